//! The lines of a text, each behind the same bytes.
ghost use Rattle.std.specs.Prelude.{◌≡◌, ◌++◌, ◌∷◌, [], ℕ, List, OnOk, OnErr};
ghost use Rattle.sb_rows.specs.RowText.{newline, started_rows, BeginsWithLine, IsInFront};

use crate::row_text::RowText;
use memchr::memchr;
use std::alloc::AllocError;

/// The first line with its newline, and what stands behind it.
fn split_line(text: &[u8]) -> (&[u8], &[u8])
    ensures line { (line rest : List ℕ) → BeginsWithLine text.now line rest → result.0.now ≡ line ++ newline ∷ [] }
    ensures rest { (line rest : List ℕ) → BeginsWithLine text.now line rest → result.1.now ≡ rest }
{
    match memchr(b'\n', text) {
        Some(at) => text.split_at(at + 1),
        None => (text, &[]),
    }
}

/// Adds a line behind the same bytes as the others.
fn push_line(start: &[u8], line: &[u8], out: &mut Vec<u8>) -> Result<(), AllocError>
    ensures ok { OnOk result (out.new.items ≡ out.old.items ++ (start.now ++ line.now)) }
    ensures err { OnErr result (IsInFront out.old.items out.new.items) }
{
    out.extend_from_slice(start)?;
    out.extend_from_slice(line)
}

/// Adds the lines of rows of which none is open, each behind the same bytes.
pub(crate) fn push_lines(rows: &RowText, start: &[u8], out: &mut Vec<u8>) -> Result<(), AllocError>
    requires closed { rows.now.begun ≡ [] }
    ensures ok { OnOk result (out.new.items ≡ out.old.items ++ started_rows start.now rows.now.rows) }
    ensures err { OnErr result (IsInFront out.old.items out.new.items) }
{
    let mut left = rows.text();
    for _row in 0..rows.len() {
        let (line, rest) = split_line(left);
        push_line(start, line, out)?;
        left = rest;
    }
    Ok(())
}
