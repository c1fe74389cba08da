//! Why a run with a journal ends early, or a journal isn't written anew.
ghost use Rattle.std.specs.Prelude.{◌≡◌, ◌++◌, OnOk};
ghost use Rattle.sb_durable.specs.JournalFaults.{fault_text};

use sb_backup::BackupError;
use sb_wire::StreamError;
use std::alloc::AllocError;

/// Why a run with a journal ends early, or a journal isn't written anew.
#[derive(Clone, Copy, Debug)]
pub enum JournalFault {
    /// A stream failed, or memory ran out.
    Stream(StreamError),
    /// The journal can't be opened, is another server's, or can't be played.
    CannotOpen,
    /// Answers could not be recorded in the journal.
    Failed,
    /// The new journal of a compaction can't be written.
    CannotWrite,
    /// A tenant of the old journal has no script.
    Undumped(BackupError),
}

impl JournalFault {
    /// Adds its line. Error: memory runs out.
    pub fn push_line(self, line: &mut Vec<u8>) -> Result<(), AllocError>
        ensures { OnOk result (line.new.items ≡ line.old.items ++ fault_text self) }
    {
        match self {
            JournalFault::Stream(error) => line.extend_from_slice(error.line()),
            JournalFault::CannotOpen => line.extend_from_slice(b"fault: cannot open journal\n"),
            JournalFault::Failed => line.extend_from_slice(b"fault: journal failed\n"),
            JournalFault::CannotWrite => line.extend_from_slice(b"fault: cannot write journal\n"),
            JournalFault::Undumped(error) => error.push_line(line),
        }
    }
}
