//! Help, and the lines that tell why words are refused.
ghost use Rattle.std.specs.Prelude.{◌≡◌, ◌⊎◌, List, ℕ};
ghost use Rattle.starhost.specs.Commands.{Shows, Tells};
ghost use Rattle.sb_wire.specs.Faults.{fault_line};
ghost use Rattle.sb_words.specs.Refusals.{misplaced_text, refusal_text};

use crate::run_report::{SUCCESS, fault};
use sb_wire::{Sink, StreamError, write_bytes};
use sb_words::{Error, Unfit, misplaced_line, refusal_line};
use std::alloc::Global;

const BAD_WORDS: u8 = 2;

/// Writes a text that is asked for.
pub(crate) fn show<W: Sink, E: Sink>(text: &str, writer: &mut W, errors: &mut E) -> u8
    ensures { Shows W.refuses W.contents E.refuses E.contents text.now writer.old writer.new
        errors.old errors.new result }
{
    match write_bytes(writer, text.as_bytes()) {
        Ok(()) => SUCCESS,
        Err(error) => fault(error, errors),
    }
}

/// Writes the help that clap makes.
pub(crate) fn show_help<W: Sink, E: Sink>(
    alloc: Global,
    help: &Error,
    writer: &mut W,
    errors: &mut E,
) -> u8
    ensures { ((text : List ℕ) × Shows W.refuses W.contents E.refuses E.contents text writer.old writer.new
        errors.old errors.new result)
        ⊎ ((result ≡ 1) × (writer.new ≡ writer.old)
        × Tells E.refuses E.contents errors.old errors.new (fault_line StreamError.NoMemory)) }
{
    match format!(in alloc; "{help}") {
        Ok(text) => show(text.as_str(), writer, errors),
        Err(_) => fault(StreamError::NoMemory, errors),
    }
}

/// Writes what clap finds wrong with the words.
pub(crate) fn refuse<E: Sink>(alloc: Global, error: &Error, errors: &mut E) -> u8
    ensures { (result ≡ 2) ⊎ ((result ≡ 1)
        × Tells E.refuses E.contents errors.old errors.new (fault_line StreamError.NoMemory)) }
{
    match format!(in alloc; "{error}") {
        Ok(text) => refuse_by(text.as_str().as_bytes(), errors),
        Err(_) => fault(StreamError::NoMemory, errors),
    }
}

/// Writes which part of a command is not allowed, and what is.
pub(crate) fn refuse_part<E: Sink>(alloc: Global, unfit: Unfit<'_>, errors: &mut E) -> u8
    ensures { ((result ≡ 2) × Tells E.refuses E.contents errors.old errors.new (refusal_text unfit.entry))
        ⊎ ((result ≡ 1)
        × Tells E.refuses E.contents errors.old errors.new (fault_line StreamError.NoMemory)) }
{
    match refusal_line(alloc, unfit) {
        Ok(line) => refuse_by(line.as_slice(), errors),
        Err(_) => fault(StreamError::NoMemory, errors),
    }
}

/// Writes which option stands in front of a command.
pub(crate) fn refuse_misplaced<E: Sink>(alloc: Global, unfit: Unfit<'_>, errors: &mut E) -> u8
    ensures { ((result ≡ 2) × Tells E.refuses E.contents errors.old errors.new (misplaced_text unfit.entry))
        ⊎ ((result ≡ 1)
        × Tells E.refuses E.contents errors.old errors.new (fault_line StreamError.NoMemory)) }
{
    match misplaced_line(alloc, unfit) {
        Ok(line) => refuse_by(line.as_slice(), errors),
        Err(_) => fault(StreamError::NoMemory, errors),
    }
}

/// Writes why words are refused.
fn refuse_by<E: Sink>(why: &[u8], errors: &mut E) -> u8
    ensures { (result ≡ 2) × Tells E.refuses E.contents errors.old errors.new why.now }
{
    let _told = write_bytes(errors, why);
    BAD_WORDS
}
