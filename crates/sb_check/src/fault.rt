//! Why a part of a command isn't resolved.

use sb_value::Refusal;
use std::alloc::AllocError;

/// A refusal of names and types.
#[derive(Clone, Copy)]
pub(crate) enum Reason {
    NoTable,
    TableExists,
    NoColumn,
    BadType,
    Ambiguous,
    WrongCount,
    BadTransition,
}

/// The walk's refusal, or that memory ran out.
#[derive(Clone, Copy)]
pub(crate) enum CheckFault {
    Refused(Reason),
    NoMemory,
}

impl From<AllocError> for CheckFault {
    ghost use Rattle.std.specs.Prelude.{◌≡◌};
    ghost use Rattle.sb_check.specs.declared.fault.CheckFault.TheVariants.{NoMemory};

    ghost from_gives = { λ _ e. e ≡ NoMemory };

    fn from(_: AllocError) -> CheckFault {
        CheckFault::NoMemory
    }
}

impl Reason {
    ghost use Rattle.std.specs.Prelude.{◌≡◌};
    ghost use Rattle.sb_check.specs.Answer.{refusal_of};

    /// The answer to the command.
    pub(crate) fn refusal(self) -> Refusal
        ensures { result ≡ refusal_of self }
    {
        match self {
            Reason::NoTable => Refusal::NoTable,
            Reason::TableExists => Refusal::TableExists,
            Reason::NoColumn => Refusal::NoColumn,
            Reason::BadType => Refusal::BadType,
            Reason::Ambiguous => Refusal::Ambiguous,
            Reason::WrongCount => Refusal::WrongCount,
            Reason::BadTransition => Refusal::BadTransition,
        }
    }
}

impl CheckFault {
    ghost use Rattle.std.specs.Prelude.{◌≡◌};
    ghost use Rattle.sb_check.specs.Answer.{refused};

    /// The answer to the command.
    pub(crate) fn refusal(self) -> Refusal
        ensures { result ≡ refused self }
    {
        match self {
            CheckFault::Refused(reason) => reason.refusal(),
            CheckFault::NoMemory => Refusal::NoMemory,
        }
    }
}
