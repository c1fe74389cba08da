//! What a run tells of itself when it ends.
ghost use Rattle.std.specs.Prelude.{◌≡◌, ◌++◌, [], List, ℕ, OnOk, OnErr};
ghost use Rattle.std.specs.Io.KnownBytes.{Appends};
ghost use Rattle.sb_wire.specs.Stream.{MayFail};
ghost use Rattle.starhost.specs.Commands.{IsSummaryLine, Tells, TellsRun, line_of, status_of};
ghost use Rattle.sb_wire.specs.Faults.{fault_line};

use sb_wire::{Sink, StreamError, Summary, write_bytes, write_summary};
use std::alloc::Global;

/// Standard error, and whether it is a terminal.
#[derive(Drop)]
pub struct Console<E> {
    pub sink: E,
    pub is_terminal: bool,
}

pub(crate) const SUCCESS: u8 = 0;

const FAULT: u8 = 1;

/// Written in place of the summary without memory for it.
const NO_SUMMARY: &str = "no memory for a summary\n";

/// Reports a run that has ended. Returns its status.
pub(crate) fn tell_run<E: Sink>(
    alloc: Global,
    summary: &Summary,
    ended: Result<(), StreamError>,
    errors: &mut Console<E>,
) -> u8
    ensures status { result ≡ status_of ended }
    ensures tells { TellsRun E.refuses E.contents errors.old.is_terminal errors.old.sink
        errors.new.sink summary.now ended }
{
    match tell_summary(alloc, summary, errors) {
        Ok(()) => tell_stream_end(ended, &mut errors.sink),
        // what can't take a summary isn't told of a fault either
        Err(_) => status(ended),
    }
}

fn status(ended: Result<(), StreamError>) -> u8
    ensures { result ≡ status_of ended }
{
    match ended {
        Ok(()) => SUCCESS,
        Err(_) => FAULT,
    }
}

/// Reports the fault that ended a stream, if one did.
pub(crate) fn tell_stream_end<E: Sink>(ended: Result<(), StreamError>, errors: &mut E) -> u8
    ensures status { result ≡ status_of ended }
    ensures tells { Tells E.refuses E.contents errors.old errors.new (line_of ended) }
{
    match ended {
        Ok(()) => SUCCESS,
        Err(error) => fault(error, errors),
    }
}

/// Writes the summary's line to a terminal.
fn tell_summary<E: Sink>(
    alloc: Global,
    summary: &Summary,
    errors: &mut Console<E>,
) -> Result<(), StreamError>
    ensures writes { (line : List ℕ) × IsSummaryLine errors.old.is_terminal summary.now line
        × (written left : List ℕ) × (line ≡ written ++ left)
        × Appends (E.contents errors.old.sink) (E.contents errors.new.sink) written
        × OnOk result (left ≡ []) }
    ensures refused { OnErr result (MayFail E.refuses E.contents errors.new.sink) }
{
    if !errors.is_terminal {
        return Ok(());
    }
    let mut line = Vec::new(alloc);
    match write_summary(&mut line, summary) {
        Ok(()) => write_bytes(&mut errors.sink, line.as_slice()),
        Err(_) => write_bytes(&mut errors.sink, NO_SUMMARY.as_bytes()),
    }
}

/// Writes the line of a fault. A failure to write it is ignored: there is nowhere to report it.
pub(crate) fn fault<E: Sink>(error: StreamError, errors: &mut E) -> u8
    ensures status { result ≡ 1 }
    ensures tells { Tells E.refuses E.contents errors.old errors.new (fault_line error) }
{
    let _told = write_bytes(errors, error.line());
    FAULT
}
