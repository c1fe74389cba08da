//! The faults of a run.

use sb_wire::StreamError;
use std::alloc::{AllocError, AllocFailed};
use thiserror::Error;

/// Why the program ends early.
#[derive(Clone, Copy, Debug, Drop, PartialEq, Eq, Error)]
pub enum ScriptFault {
    #[error("{0}")]
    Stream(StreamError),
    #[error("a line stands before the first header")]
    NoHeader,
    #[error("a header can't be read")]
    BadHeader,
    #[error("a repeated text can't be read")]
    BadRepeat,
}

impl From<AllocError> for ScriptFault {
    fn from(_: AllocError) -> ScriptFault {
        ScriptFault::Stream(StreamError::NoMemory)
    }
}

impl<T: Drop> From<AllocFailed<T>> for ScriptFault {
    fn from(_: AllocFailed<T>) -> ScriptFault {
        ScriptFault::Stream(StreamError::NoMemory)
    }
}
