//! Why a query's text is refused.
ghost use Rattle.std.specs.Prelude.{◌≡◌};
ghost use Rattle.sb_postgres.specs.declared.query.error.QueryError.TheVariants.{Memory};

use std::alloc::{AllocError, AllocFailed};
use thiserror::Error;

/// What is wrong with a query's text.
#[derive(Clone, Copy, Debug, PartialEq, Eq, Error)]
pub enum Fault {
    /// A constant, a quoted name or a comment isn't closed at the text's end. It begins at the place of the refusal.
    #[error("a quote or a comment isn't closed")]
    Unclosed,
    /// `E'..'`, `B'..'`, `N'..'`, `X'..'`, `U&'..'`, `U&".."`, `$tag$`, or a `$` in a name, or a letter behind a parameter.
    #[error("this form of constant or name isn't supported")]
    Unsupported,
    /// A quoted name isn't a small letter or `_` with small letters, digits and `_` behind it.
    #[error("a quoted name has small letters, digits and _ alone")]
    Name,
    /// A byte is outside printable ASCII.
    #[error("a byte is outside printable ASCII")]
    Unprintable,
    /// The line of a statement has more than [`LINE_LIMIT`] bytes with the piece at this place.
    ///
    /// [`LINE_LIMIT`]: crate::query::LINE_LIMIT
    #[error("the statement is too long")]
    TooLong,
}

/// What is wrong, and at which byte of the text.
#[derive(Clone, Copy, Debug, PartialEq, Eq)]
pub struct Refusal {
    pub fault: Fault,
    pub at: usize,
}

/// Why a text gives no statement.
#[derive(Clone, Copy, Debug, PartialEq, Eq, Error)]
pub enum QueryError {
    #[error("out of memory")]
    Memory,
    #[error("{}", .0.fault)]
    Refused(Refusal),
}

impl From<AllocError> for QueryError {
    ghost from_gives = { λ _ e. e ≡ Memory };

    fn from(_error: AllocError) -> QueryError {
        QueryError::Memory
    }
}

impl<T: Drop> From<AllocFailed<T>> for QueryError {
    ghost from_gives = { λ _ e. e ≡ Memory };

    fn from(_error: AllocFailed<T>) -> QueryError {
        QueryError::Memory
    }
}
