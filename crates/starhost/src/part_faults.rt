//! The faults of what the parts of the program answer.
ghost use Rattle.std.specs.Prelude.{◌≡◌};
ghost use Rattle.starhost.specs.Faults.{as_backup, as_digest, as_journal, unheard_as, unread_as};

use crate::fault::ProgramFault;
use sb_backup::BackupError;
use sb_durable::JournalFault;
use sb_keys::{DigestError, KeysError, Unread};
use sb_monitor::ListenError;
use sb_wire::StreamError;

/// The end of a dump, or of a load.
pub(crate) fn of_backup(ended: Result<(), BackupError>) -> Result<(), ProgramFault>
    ensures { result ≡ as_backup ended }
{
    match ended {
        Ok(()) => Ok(()),
        Err(why) => Err(ProgramFault::Backup(why)),
    }
}

/// The end of a run with a journal, or of a compaction.
pub(crate) fn of_journal(ended: Result<(), JournalFault>) -> Result<(), ProgramFault>
    ensures { result ≡ as_journal ended }
{
    match ended {
        Ok(()) => Ok(()),
        Err(why) => Err(ProgramFault::Journal(why)),
    }
}

/// The fault of a port at which nothing listens.
pub(crate) fn unheard(error: ListenError) -> ProgramFault
    ensures { result ≡ unheard_as error }
{
    match error {
        ListenError::Stream(error) => ProgramFault::Stream(error),
        ListenError::CannotListen => ProgramFault::CannotListen,
    }
}

/// The end of what tells the digest of a key.
pub(crate) fn of_digest(ended: Result<(), DigestError>) -> Result<(), ProgramFault>
    ensures { result ≡ as_digest ended }
{
    match ended {
        Ok(()) => Ok(()),
        Err(DigestError::Stream(error)) => Err(ProgramFault::Stream(error)),
        Err(DigestError::BadKey) => Err(ProgramFault::BadKey),
    }
}

/// The fault of a server whose keys can't be read.
pub(crate) fn unread(why: &Unread) -> ProgramFault
    ensures { result ≡ unread_as why.now }
{
    match why {
        Unread::Keys(KeysError::BadLine { line }) => ProgramFault::BadKeys { line: *line as u64 },
        Unread::Keys(KeysError::NoMemory) => ProgramFault::Stream(StreamError::NoMemory),
        Unread::File(_) | Unread::NotAFile | Unread::TooLong => ProgramFault::NoKeys,
    }
}
