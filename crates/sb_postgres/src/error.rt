//! Why a message isn't read.
ghost use Rattle.std.specs.Prelude.{◌≡◌};
ghost use Rattle.sb_postgres.specs.declared.error.ReadError.TheVariants.{Memory};
ghost use Rattle.sb_postgres.specs.declared.error.WriteError.TheVariants as errors;

use std::alloc::{AllocError, AllocFailed};
use thiserror::Error;

/// The first fault of a message's bytes, from the left.
#[derive(Clone, Copy, Debug, PartialEq, Eq, Error)]
pub enum Fault {
    /// A field passes the end of the message.
    #[error("a field passes the message's end")]
    Short,
    /// Bytes stand behind the last field.
    #[error("bytes stand behind the message's last field")]
    Trailing,
    /// Neither a statement nor a portal is named.
    #[error("neither a statement nor a portal is named")]
    Target,
    /// The version isn't 3.
    #[error("the version of the protocol isn't 3")]
    Version,
    /// No message of a client has this first byte.
    #[error("no message of a client has this type")]
    Kind,
}

/// Why a message isn't read.
#[derive(Clone, Copy, Debug, Error)]
pub enum ReadError {
    #[error("out of memory")]
    Memory,
    #[error("{0}")]
    Fault(Fault),
}

impl From<AllocError> for ReadError {
    ghost from_gives = { λ _ e. e ≡ Memory };

    fn from(_error: AllocError) -> ReadError {
        ReadError::Memory
    }
}

impl<T: Drop> From<AllocFailed<T>> for ReadError {
    ghost from_gives = { λ _ e. e ≡ Memory };

    fn from(_error: AllocFailed<T>) -> ReadError {
        ReadError::Memory
    }
}

/// Why a message isn't written.
#[derive(Clone, Copy, Debug, PartialEq, Eq, Error)]
pub enum WriteError {
    #[error("out of memory")]
    Memory,
    /// A text has a zero byte, a list has more than 65,535 items, or the message passes [`MESSAGE_LIMIT`].
    ///
    /// [`MESSAGE_LIMIT`]: crate::MESSAGE_LIMIT
    #[error("no message says this")]
    Unsayable,
}

impl From<AllocError> for WriteError {
    ghost from_gives = { λ _ e. e ≡ errors.Memory };

    fn from(_error: AllocError) -> WriteError {
        WriteError::Memory
    }
}

impl<T: Drop> From<AllocFailed<T>> for WriteError {
    ghost from_gives = { λ _ e. e ≡ errors.Memory };

    fn from(_error: AllocFailed<T>) -> WriteError {
        WriteError::Memory
    }
}
