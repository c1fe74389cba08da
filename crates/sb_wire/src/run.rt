//! A stream on a cell.
ghost use Rattle.std.specs.Prelude.{◌≡◌, List, ℕ, OnOk, IfSome};
ghost use Rattle.std.specs.Io.KnownBytes.{Appends};
ghost use Rattle.sb_wire.specs.Counts.{Counts};
ghost use Rattle.sb_wire.specs.Stream.{AnswersInput, EndsBy, MayFail, OnWriteFault, Streams};

use crate::answer::answer_piece;
use crate::ends::{Sink, Source};
use crate::fault::StreamError;
use crate::input::Piece;
use crate::responder::Responder;
use crate::stream::answer_stream;
use crate::summary::Summary;
use sb_cell::Cell;
use std::alloc::{AllocError, Global};

/// Answers each line of the input when it is complete, writes the replies before it reads on, and counts them. Error: a
/// read or a write failed, or out of memory.
pub fn run_stream<R: Source, W: Sink>(
    alloc: Global,
    reader: &mut R,
    writer: &mut W,
    cell: &mut Cell,
    summary: &mut Summary,
) -> Result<(), StreamError>
    ensures ok { OnOk result (IfSome (R.remaining reader.old) (λ input. (text : List ℕ)
        × Appends (W.contents writer.old) (W.contents writer.new) text
        × AnswersInput cell.old input text cell.new)) }
    ensures goes { (s : Streams cell.old (R.remaining reader.old) (W.contents writer.old)
        cell.new (R.remaining reader.new) (W.contents writer.new))
        × EndsBy R.fails R.remaining reader.new s.seen s.pieces s.left result }
    ensures refused { OnWriteFault result (MayFail W.refuses W.contents writer.new) }
    // however it ends, the summary counts the replies to just these lines
    ensures counts { (s : Streams cell.old (R.remaining reader.old) (W.contents writer.old)
        cell.new (R.remaining reader.new) (W.contents writer.new))
        × EndsBy R.fails R.remaining reader.new s.seen s.pieces s.left result
        × Counts s.pieces s.replies.text summary.old summary.new }
{
    answer_stream(alloc, reader, writer, &CellLines, cell, summary)
}

/// Lines are events of a cell, and their replies are counted. No line ends the stream.
struct CellLines;

impl Responder<Cell, Summary> for CellLines {
    ghost use Rattle.std.specs.Prelude.{false};
    ghost use Rattle.sb_wire.specs.Stream.{AnswersCounted};

    ghost responds = { λ _. AnswersCounted };

    ghost over = { λ _. false };

    fn respond(
        &self,
        alloc: Global,
        piece: Piece<'_>,
        out: &mut Vec<u8>,
        first: &mut Cell,
        second: &mut Summary,
    ) -> Result<(), AllocError> {
        answer_piece(alloc, first, piece, out, second)
    }

    fn is_over(&self, _first: &Cell, _second: &Summary) -> bool {
        false
    }
}
