//! Why a journal doesn't go on.
ghost use Rattle.std.specs.Prelude.{◌≡◌};
ghost use Rattle.sb_durable.specs.declared.error.JournalError.TheVariants as reason;

use std::alloc::{AllocError, AllocFailed};
use std::io;
use thiserror::Error;

#[derive(Clone, Copy, Debug, Error)]
pub enum JournalError {
    /// A call on the file failed.
    #[error("{0}")]
    Device(io::Error),
    #[error("there is no memory")]
    Memory,
    /// The file is damaged: it has no list of records.
    #[error("it is damaged")]
    Damaged,
    /// So many bytes stand behind its last block, and no crash has left them.
    #[error("{0} bytes stand behind its last whole block that no crash has left")]
    Behind(usize),
    /// An earlier write or sync has failed in this run.
    #[error("a write of it has failed before")]
    Spent,
    /// A tenant was renewed before all steps of its trail were recorded.
    #[error("a tenant was renewed before its steps were recorded")]
    Unrecorded,
    /// The disk has no room for a batch, and the journal is as it was.
    #[error("{0}")]
    NoRoom(io::Error),
    /// There is no room in the buffer, or the file has its greatest length.
    #[error("there is no room in it")]
    Full,
}

impl From<io::Error> for JournalError {
    ghost from_gives = { λ error e. e ≡ reason.Device error };

    fn from(error: io::Error) -> Self {
        JournalError::Device(error)
    }
}

impl From<AllocError> for JournalError {
    ghost from_gives = { λ _ e. e ≡ reason.Memory };

    fn from(_: AllocError) -> Self {
        JournalError::Memory
    }
}

impl<T: Drop> From<AllocFailed<T>> for JournalError {
    ghost from_gives = { λ _ e. e ≡ reason.Memory };

    fn from(_: AllocFailed<T>) -> Self {
        JournalError::Memory
    }
}
