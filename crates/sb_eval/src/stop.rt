//! Why an evaluation ends before its end.

use crate::error::EvalError;
use std::alloc::{AllocError, AllocFailed};

/// Why an evaluation ends before its end.
#[derive(Clone, Copy)]
pub(crate) enum Stop {
    /// There is no value, since a number leaves the range of integers; or a walk that looks for a row alone
    /// has found one.
    NoValue,
    NoMemory,
}

impl From<AllocError> for Stop {
    ghost use Rattle.std.specs.Prelude.{◌≡◌};
    ghost use Rattle.sb_eval.specs.declared.stop.Stop.TheVariants.{NoMemory};

    ghost from_gives = { λ _ stop. stop ≡ NoMemory };

    fn from(_: AllocError) -> Stop {
        Stop::NoMemory
    }
}

impl<T: Drop> From<AllocFailed<T>> for Stop {
    ghost use Rattle.std.specs.Prelude.{◌≡◌};
    ghost use Rattle.sb_eval.specs.declared.stop.Stop.TheVariants.{NoMemory};

    ghost from_gives = { λ _ stop. stop ≡ NoMemory };

    fn from(_: AllocFailed<T>) -> Stop {
        Stop::NoMemory
    }
}

impl Stop {
    ghost use Rattle.std.specs.Prelude.{◌≡◌};
    ghost use Rattle.sb_eval.specs.Refused.{error_of};

    /// The answer to the caller.
    pub(crate) fn error(self) -> EvalError
        ensures { result ≡ error_of self }
    {
        match self {
            Stop::NoValue => EvalError::Overflow,
            Stop::NoMemory => EvalError::NoMemory,
        }
    }
}
