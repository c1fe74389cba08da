//! What a client is told that a statement did.
ghost use Rattle.std.specs.Prelude.{◌≡◌, ◌++◌, OnOk, map};
ghost use Rattle.sb_postgres.specs.Tags as spec;

use crate::query::{StatementKind, behind_first_word, first_word};
use itoa::Buffer;
use std::alloc::AllocError;

/// What a statement did, where it went well.
#[derive(Clone, Copy, Debug, PartialEq, Eq)]
pub enum Effect {
    Done,
    /// So many rows were changed.
    Changed(u64),
    /// So many rows were found.
    Found(u64),
}

fn capital(byte: u8) -> u8
    ensures { result ≡ spec.capital byte }
{
    if b'a' <= byte && byte <= b'z' {
        byte - 32
    } else {
        byte
    }
}

fn push_capitals(out: &mut Vec<u8>, word: &[u8]) -> Result<(), AllocError>
    ensures { OnOk result (out.new.items ≡ out.old.items ++ map spec.capital word.now) }
{
    for byte in word {
        out.push(capital(*byte))?;
    }
    Ok(())
}

fn push_number(out: &mut Vec<u8>, number: u64) -> Result<(), AllocError>
    ensures { OnOk result (out.new.items ≡ out.old.items ++ spec.counted number) }
{
    let mut buffer = Buffer::new();
    out.push(b' ')?;
    out.extend_from_slice(buffer.format(number).as_bytes())
}

/// Adds two words, as `CREATE TABLE`.
fn push_two_words(out: &mut Vec<u8>, line: &[u8]) -> Result<(), AllocError>
    ensures { OnOk result (out.new.items ≡ out.old.items ++ spec.two_words line.now) }
{
    push_capitals(out, first_word(line))?;
    out.push(b' ')?;
    push_capitals(out, first_word(behind_first_word(line)))
}

/// Adds what a statement that changes rows did. PostgreSQL has a 0 behind `INSERT`.
fn push_changed(out: &mut Vec<u8>, line: &[u8], count: u64) -> Result<(), AllocError>
    ensures { OnOk result (out.new.items ≡ out.old.items ++ spec.changed line.now count) }
{
    push_capitals(out, first_word(line))?;
    if first_word(line) == b"insert".as_slice() {
        out.extend_from_slice(b" 0")?;
    }
    push_number(out, count)
}

/// Adds the tag of a statement that went well.
pub fn push_tag(
    out: &mut Vec<u8>,
    kind: StatementKind,
    line: &[u8],
    effect: Effect,
) -> Result<(), AllocError>
    ensures { OnOk result (out.new.items ≡ out.old.items ++ spec.tag_of kind line.now effect) }
{
    match (effect, kind) {
        (Effect::Changed(count), _) => push_changed(out, line, count),
        (Effect::Found(count), _) => {
            out.extend_from_slice(b"SELECT")?;
            push_number(out, count)
        }
        (Effect::Done, StatementKind::Begin) => out.extend_from_slice(b"BEGIN"),
        (Effect::Done, StatementKind::Commit) => out.extend_from_slice(b"COMMIT"),
        (Effect::Done, StatementKind::Rollback) => out.extend_from_slice(b"ROLLBACK"),
        (Effect::Done, StatementKind::Definition | StatementKind::Process) => {
            push_two_words(out, line)
        }
        (Effect::Done, _) => push_capitals(out, first_word(line)),
    }
}
