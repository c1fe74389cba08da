//! Why a server or a replay ended early, and the line that tells it.
ghost use Rattle.std.specs.Prelude.{◌≡◌, ◌++◌, IfOk, OnOk};
ghost use Rattle.starhost.specs.Faults.{TellsEnd, TellsFault, fault_text, numbered_text};

use crate::run_report::{SUCCESS, fault};
use sb_backup::{BackupError, push_number};
use sb_durable::JournalFault;
use sb_wire::{Sink, StreamError, push_labelled, write_bytes};
use std::alloc::{AllocError, Global};

const FAULT: u8 = 1;

/// Why a server, a replay or a dump ended early.
#[derive(Clone, Copy, Debug)]
pub enum ProgramFault {
    /// A stream failed, or memory ran out.
    Stream(StreamError),
    /// The server can't listen at its port.
    CannotListen,
    /// The system refuses a poll.
    CannotWait,
    /// The system starts no thread.
    CannotStart,
    /// A poll failed while the server ran.
    WaitingFailed,
    /// A run with a journal ended early, or no journal was written.
    Journal(JournalFault),
    /// Tenants aren't dumped, or aren't made again.
    Backup(BackupError),
    /// This line of the input, counted from 1, is no command for a session of the host.
    BadLine { line: u64 },
    /// The file of keys can't be read.
    NoKeys,
    /// This line of the file of keys, counted from 1, names no key.
    BadKeys { line: u64 },
    /// The line of the input is no key.
    BadKey,
    /// The session is open already, or its tenant's trail is full.
    CannotAttach { tenant: u64, session: u32 },
    /// The session has fewer receipts than its tenant's trail has entries of it.
    TrailMissing { tenant: u64, session: u32 },
    /// The session's receipts are others than those entries.
    TrailMismatch { tenant: u64, session: u32 },
}

/// Reports the fault that ended a command, if one did.
pub(crate) fn tell_end<E: Sink>(
    alloc: Global,
    ended: Result<(), ProgramFault>,
    errors: &mut E,
) -> u8
    ensures { TellsEnd E.refuses E.contents errors.old errors.new ended result }
{
    match ended {
        Ok(()) => SUCCESS,
        Err(why) => tell_fault(alloc, why, errors),
    }
}

/// Writes the line of a fault, or the line of a lack of memory if there is none for it.
pub fn tell_fault<E: Sink>(alloc: Global, why: ProgramFault, errors: &mut E) -> u8
    ensures status { result ≡ 1 }
    ensures tells { TellsFault E.refuses E.contents errors.old errors.new why }
{
    match line_of(alloc, why) {
        Ok(line) => {
            let _told = write_bytes(errors, line.as_slice());
            FAULT
        }
        Err(_) => fault(StreamError::NoMemory, errors),
    }
}

/// The line of a fault.
fn line_of(alloc: Global, why: ProgramFault) -> Result<Vec<u8>, AllocError>
    ensures { IfOk result (λ line. line.items ≡ fault_text why) }
{
    let mut line = Vec::new(alloc);
    match push_fault(&mut line, why) {
        Ok(()) => Ok(line),
        Err(error) => Err(error),
    }
}

/// The line of a fault, behind what there is.
fn push_fault(line: &mut Vec<u8>, why: ProgramFault) -> Result<(), AllocError>
    ensures { OnOk result (line.new.items ≡ line.old.items ++ fault_text why) }
{
    match why {
        ProgramFault::Stream(error) => line.extend_from_slice(error.line()),
        ProgramFault::CannotListen => line.extend_from_slice(b"fault: cannot listen\n"),
        ProgramFault::CannotWait => line.extend_from_slice(b"fault: cannot wait\n"),
        ProgramFault::CannotStart => line.extend_from_slice(b"fault: cannot start a thread\n"),
        ProgramFault::WaitingFailed => line.extend_from_slice(b"fault: waiting failed\n"),
        ProgramFault::Journal(why) => why.push_line(line),
        ProgramFault::Backup(why) => why.push_line(line),
        ProgramFault::BadLine { line: number } => push_number(line, b"fault: bad line ", number),
        ProgramFault::NoKeys => line.extend_from_slice(b"fault: no keys\n"),
        ProgramFault::BadKeys { line: number } => push_number(line, b"fault: bad keys ", number),
        ProgramFault::BadKey => line.extend_from_slice(b"fault: bad key\n"),
        ProgramFault::CannotAttach { tenant, session } => {
            push_session(line, b"fault: cannot attach ", tenant, session)
        }
        ProgramFault::TrailMissing { tenant, session } => {
            push_session(line, b"fault: trail missing ", tenant, session)
        }
        ProgramFault::TrailMismatch { tenant, session } => {
            push_session(line, b"fault: trail mismatch ", tenant, session)
        }
    }
}

/// Some text, and the numbers of a session, to the end of the line.
fn push_session(
    out: &mut Vec<u8>,
    label: &[u8],
    tenant: u64,
    session: u32,
) -> Result<(), AllocError>
    ensures { OnOk result (out.new.items ≡ out.old.items ++ numbered_text label.now tenant session) }
{
    push_labelled(out, label, tenant)?;
    push_labelled(out, b" ", u64::from(session))?;
    out.push(b'\n')?;
    Ok(())
}
