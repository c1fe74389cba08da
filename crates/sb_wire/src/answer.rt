//! The answer to one piece of an input.
ghost use Rattle.std.specs.Prelude.{◌≡◌, ◌++◌, ◌∷◌, ℕ, List, [], OnOk, OnErr, Result};
ghost use Rattle.sb_cell.specs.Tenants.{AnswersEvent, IsSame};
ghost use Rattle.sb_wire.specs.Counts.{Adds, line_refusal, response_text, step_reply};
ghost use Rattle.sb_wire.specs.Output.{answer_text, text_behind};
ghost use Rattle.sb_wire.specs.Seen.{piece_seen, addressed_seen};
ghost use Rattle.sb_wire.specs.Stream.{AnswersCounted};

use crate::address::Addressed;
use crate::input::Piece;
use crate::prefix::Prefix;
use crate::refusal::WireRefusal;
use crate::reply_text::{write_refusal, write_reply};
use crate::summary::Summary;
use sb_cell::{Cell, StepError};
use sb_tenant::Answer;
use std::alloc::{AllocError, Global};

/// Answers a piece behind the text so far, and counts it.
pub(crate) fn answer_piece(
    alloc: Global,
    cell: &mut Cell,
    piece: Piece<'_>,
    out: &mut Vec<u8>,
    summary: &mut Summary,
) -> Result<(), AllocError>
    ensures { (text : List ℕ)
        × AnswersCounted (cell.old, summary.old) (piece_seen piece.entry) text (cell.new, summary.new)
        × OnOk result (out.new.items ≡ out.old.items ++ text)
        × OnErr result (out.new.items ≡ out.old.items) }
{
    match piece {
        Piece::TooLong => refuse_line(out, summary, WireRefusal::TooLong),
        Piece::Line(line) => match Addressed::split(line) {
            Some(addressed) => answer_line(alloc, addressed, cell, out, summary),
            None => refuse_line(out, summary, WireRefusal::BadLine),
        },
    }
}

/// Refuses a line that has no numbers to answer behind.
#[inline(never)]
fn refuse_line(
    out: &mut Vec<u8>,
    summary: &mut Summary,
    refusal: WireRefusal,
) -> Result<(), AllocError>
    ensures ok { OnOk result (out.new.items ≡
        out.old.items ++ response_text (line_refusal refusal)) }
    ensures err { OnErr result (out.new.items ≡ out.old.items) }
    ensures adds { Adds summary.old (line_refusal refusal ∷ []) summary.new }
{
    summary.add_refusal(refusal);
    write_refusal(out, &Prefix::none(), refusal)
}

/// Makes the step of an addressed line, and writes its answer.
fn answer_line(
    alloc: Global,
    line: Addressed<'_>,
    cell: &mut Cell,
    out: &mut Vec<u8>,
    summary: &mut Summary,
) -> Result<(), AllocError>
    ensures answers { (given : Result Answer StepError)
        × AnswersEvent cell.old line.entry.tenant line.entry.session line.entry.command.now given cell.new
        × OnOk result (out.new.items ≡ out.old.items ++ answer_text (addressed_seen line.entry) given)
        × OnErr result (out.new.items ≡ out.old.items)
        × Adds summary.old (step_reply (addressed_seen line.entry) given ∷ []) summary.new }
    ensures same { IsSame cell.old cell.new }
{
    let given = cell.step(alloc, line.tenant, line.session, line.command);
    summary.add_answer(&given);
    write_answer(out, &Prefix::new(line.tenant, line.session), &given)
}

/// Adds the text that a step was answered with, each line with the prefix: its reply, or why it wasn't made. Error: out
/// of memory.
pub fn write_answer(
    out: &mut Vec<u8>,
    prefix: &Prefix,
    given: &Result<Answer, StepError>,
) -> Result<(), AllocError>
    ensures ok { OnOk result (out.new.items ≡ out.old.items ++ text_behind prefix.now given.now) }
    ensures err { OnErr result (out.new.items ≡ out.old.items) }
{
    match given {
        Ok(answer) => write_reply(out, prefix, &answer.reply),
        Err(StepError::NoTenant) => write_refusal(out, prefix, WireRefusal::NoTenant),
        Err(StepError::NoSession) => write_refusal(out, prefix, WireRefusal::NoSession),
        Err(StepError::NotBegun) => write_refusal(out, prefix, WireRefusal::NotBegun),
    }
}
