//! Which lines of an input are commands.
ghost use Rattle.std.specs.Prelude.{◌≡◌, ◌≤◌, ◌+◌, ◌++◌, List, ℕ, codes, decimal, length, IfOk, OnErr, OnOk};
ghost use Rattle.sb_wire.specs.Stream.{MayFail, OnWriteFault};
ghost use Rattle.starhost.specs.Parses.{ParsesStream, TellsBytes, TellsLines};
ghost use Rattle.sb_backup.specs.Outputs.{WritesOf};

use sb_syntax::{COMMAND_LIMIT, ParseError, parse};
use sb_wire::{Piece, Responder, Sink, Source, StreamError, answer_stream, push_labelled};
use std::alloc::{AllocError, Global};

/// Writes for each line of the input whether it is a command, and where it stops being one.
pub(crate) fn parse_lines<R: Source, W: Sink>(
    alloc: Global,
    reader: &mut R,
    writer: &mut W,
) -> Result<(), StreamError>
    ensures ok { OnOk result (WritesOf R.remaining W.contents reader.old writer.old writer.new TellsLines) }
    ensures goes { ParsesStream R.fails R.remaining reader.old reader.new
        (W.contents writer.old) (W.contents writer.new) result }
    ensures refused { OnWriteFault result (MayFail W.refuses W.contents writer.new) }
{
    answer_stream(alloc, reader, writer, &CommandLines, &mut (), &mut ())
}

/// A responder that checks each line by itself.
struct CommandLines;

impl Responder<(), ()> for CommandLines {
    ghost use Rattle.starhost.specs.Parses.{Parses, is_over};

    ghost responds = { λ _. Parses };

    ghost over = { is_over };

    fn respond(
        &self,
        alloc: Global,
        piece: Piece<'_>,
        out: &mut Vec<u8>,
        _first: &mut (),
        _second: &mut (),
    ) -> Result<(), AllocError> {
        match piece {
            Piece::TooLong => tell_long(out),
            Piece::Line(line) if line.len() > COMMAND_LIMIT => tell_long(out),
            Piece::Line(line) => tell_line(alloc, line, out),
        }
    }

    fn is_over(&self, _first: &(), _second: &()) -> bool {
        false
    }
}

/// Tells that a line is too long for a command.
fn tell_long(out: &mut Vec<u8>) -> Result<(), AllocError>
    ensures ok { OnOk result (out.new.items ≡ out.old.items ++ codes "too long\n") }
    ensures err { OnErr result (out.new.items ≡ out.old.items) }
{
    out.extend_from_slice(b"too long\n")
}

/// Tells whether a line is a command, and where it stops being one.
fn tell_line(alloc: Global, line: &[u8], out: &mut Vec<u8>) -> Result<(), AllocError>
    requires { length line.now ≤ 4096 }
    ensures { (text : List ℕ) × TellsBytes line.now text
        × OnOk result (out.new.items ≡ out.old.items ++ text)
        × OnErr result (out.new.items ≡ out.old.items) }
{
    match parse(alloc, line) {
        Ok(_command) => out.extend_from_slice(b"ok\n"),
        Err(ParseError::Syntax { place }) => {
            let Ok(text) = place_text(alloc, place) else {
                return Err(AllocError);
            };
            out.extend_from_slice(text.as_slice())
        }
        Err(ParseError::NoMemory) => Err(AllocError),
    }
}

/// The text that tells of a place behind so many bytes.
fn place_text(alloc: Global, before: usize) -> Result<Vec<u8>, AllocError>
    requires { before ≤ 4096 }
    ensures { IfOk result (λ text. text.items ≡ codes "syntax " ++ decimal (before + 1) ++ codes "\n") }
{
    let mut text = Vec::new(alloc);
    push_labelled(&mut text, b"syntax ", before as u64 + 1)?;
    text.push(b'\n')?;
    Ok(text)
}
