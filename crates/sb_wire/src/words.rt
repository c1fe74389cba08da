//! A line of a reply, word by word.
ghost use Rattle.std.specs.Prelude.{◌≡◌, ◌+◌, ◌≤◌, [], ◌∷◌, ◌++◌, decimal, length, vec_len, vec_capacity, OnOk, OnErr};
ghost use Rattle.sb_wire.specs.Lines.{newline, space};
ghost use Rattle.sb_wire.specs.ReplyText.{words, refusal_words};
ghost use Rattle.sb_wire.specs.Written.{IsInFront, started_lines};

use itoa::Buffer;
use sb_value::Refusal;
use std::alloc::AllocError;

/// Adds a few bytes, for which there is room.
fn put(out: &mut Vec<u8>, bytes: &[u8])
    requires { vec_len out.old + length bytes.now ≤ vec_capacity out.old }
    ensures items { out.new.items ≡ out.old.items ++ bytes.now }
    ensures len { vec_len out.new ≡ vec_len out.old + length bytes.now }
    ensures capacity { vec_capacity out.new ≡ vec_capacity out.old }
{
    for byte in bytes {
        out.push_reserved(*byte);
    }
}

/// Adds a line, or nothing.
pub(crate) fn push_line(out: &mut Vec<u8>, start: &[u8], line: &[u8]) -> Result<(), AllocError>
    ensures ok { OnOk result (out.new.items ≡
        out.old.items ++ started_lines start.now (line.now ∷ [])) }
    ensures err { OnErr result (IsInFront out.old.items out.new.items) }
    ensures same { OnErr result (out.new.items ≡ out.old.items) }
{
    out.reserve(start.len() + line.len() + 1)?;
    put(out, start);
    put(out, line);
    out.push_reserved(b'\n');
    Ok(())
}

/// A first line of these words and the number of the lines that follow it.
pub(crate) fn push_counted(
    out: &mut Vec<u8>,
    start: &[u8],
    head: &[u8],
    count: u64,
) -> Result<(), AllocError>
    ensures ok { OnOk result (out.new.items ≡
        out.old.items ++ started_lines start.now (words (head.now ∷ decimal count ∷ []) ∷ [])) }
    ensures err { OnErr result (IsInFront out.old.items out.new.items) }
{
    push_head(out, start, head)?;
    push_count(out, count)
}

/// Begins a line.
#[inline(always)]
pub(crate) fn push_head(out: &mut Vec<u8>, start: &[u8], head: &[u8]) -> Result<(), AllocError>
    ensures ok { OnOk result (out.new.items ≡ out.old.items ++ (start.now ++ head.now)) }
    ensures err { OnErr result (IsInFront out.old.items out.new.items) }
{
    out.reserve(start.len() + head.len())?;
    put(out, start);
    put(out, head);
    Ok(())
}

/// One more word of a line.
pub(crate) fn push_word(out: &mut Vec<u8>, word: &[u8]) -> Result<(), AllocError>
    ensures ok { OnOk result (out.new.items ≡ out.old.items ++ space ∷ word.now) }
    ensures err { OnErr result (IsInFront out.old.items out.new.items) }
{
    out.push(b' ')?;
    out.extend_from_slice(word)
}

/// A number as one more word.
#[inline(always)]
fn push_number(out: &mut Vec<u8>, number: u64) -> Result<(), AllocError>
    ensures ok { OnOk result (out.new.items ≡ out.old.items ++ space ∷ decimal number) }
    ensures err { OnErr result (IsInFront out.old.items out.new.items) }
{
    if number < 10 {
        out.push(b' ')?;
        out.push(b'0' + number as u8)?;
        return Ok(());
    }
    let mut buffer = Buffer::new();
    push_word(out, buffer.format(number).as_bytes())
}

/// A number as the last word of a line.
#[inline(always)]
pub(crate) fn push_count(out: &mut Vec<u8>, count: u64) -> Result<(), AllocError>
    ensures ok { OnOk result (out.new.items ≡
        out.old.items ++ space ∷ decimal count ++ newline ∷ []) }
    ensures err { OnErr result (IsInFront out.old.items out.new.items) }
{
    push_number(out, count)?;
    out.push(b'\n')?;
    Ok(())
}

/// Some text, and a number behind it. Error: out of memory.
pub fn push_labelled(out: &mut Vec<u8>, label: &[u8], number: u64) -> Result<(), AllocError>
    ensures { OnOk result (out.new.items ≡ out.old.items ++ (label.now ++ decimal number)) }
{
    let mut buffer = Buffer::new();
    out.extend_from_slice(label)?;
    out.extend_from_slice(buffer.format(number).as_bytes())
}

/// A refusal's number and name as two more words.
pub(crate) fn push_refusal(out: &mut Vec<u8>, refusal: &Refusal) -> Result<(), AllocError>
    ensures ok { OnOk result (out.new.items ≡
        out.old.items ++ space ∷ words (refusal_words refusal.now)) }
    ensures err { OnErr result (IsInFront out.old.items out.new.items) }
{
    push_number(out, u64::from(refusal.number()))?;
    push_word(out, refusal.name().as_bytes())
}
