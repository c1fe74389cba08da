//! The journal in a folder, read from end to end.
ghost use Rattle.std.specs.Prelude.{List, ℕ, OnOk};
ghost use Rattle.std.specs.Io.KnownBytes.{Appends};

use crate::fault::ProgramFault;
use crate::system::System;
use sb_durable::{
    Folder, FolderError, JournalFault, JournalSummary, Syncing, check_journal, tell_no_journal,
};
use sb_monitor::EventLog;
use sb_wire::{Sink, StreamError, write_and_flush};
use sb_words::Severity;
use std::alloc::Global;
use std::fs;

/// Reads the journal in the folder at this path from end to end, and writes a line of what is there. Error: CannotOpen,
/// where a start would refuse it, and the reason is logged; or the line can't be written.
pub(crate) fn check<T: System, W: Sink>(
    rt: &T,
    alloc: Global,
    path: &str,
    writer: &mut W,
) -> Result<(), ProgramFault>
    ensures { OnOk result ((line : List ℕ) × Appends (W.contents writer.old) (W.contents writer.new) line) }
{
    match found_at(rt, alloc, path) {
        Ok(found) => write_summary(alloc, &found, writer),
        Err(error) => {
            tell_no_journal(&EventLog::new(rt, Severity::Info), path, &error);
            Err(ProgramFault::Journal(JournalFault::CannotOpen))
        }
    }
}

/// Reads the journal in the folder at this path. Nothing is made there.
fn found_at<T: System>(rt: &T, alloc: Global, path: &str) -> Result<JournalSummary, FolderError> {
    fs::metadata(rt, path)?;
    let folder = Folder::open(rt, path, Syncing::Always)?;
    match check_journal(rt, alloc, &folder)? {
        Some(found) => Ok(found),
        None => Err(FolderError::NotAJournal),
    }
}

/// Writes the line of what was found.
fn write_summary<W: Sink>(
    alloc: Global,
    found: &JournalSummary,
    writer: &mut W,
) -> Result<(), ProgramFault>
    ensures { OnOk result ((line : List ℕ) × Appends (W.contents writer.old) (W.contents writer.new) line) }
{
    let Ok(line) = format!(in alloc; "{found}\n") else {
        return Err(ProgramFault::Stream(StreamError::NoMemory));
    };
    match write_and_flush(writer, line.as_str().as_bytes()) {
        Ok(()) => Ok(()),
        Err(error) => Err(ProgramFault::Stream(error)),
    }
}
