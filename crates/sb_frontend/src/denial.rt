//! Why a message of the extended query fails.
ghost use Rattle.std.specs.Prelude.{◌≡◌, IfOk};
ghost use Rattle.sb_frontend.specs.Denials as spec;
ghost use Rattle.sb_frontend.specs.Outputs as output;

use crate::output::Output;
use crate::report::{Report, push_position, say_made};
use crate::script::{fault_state, fault_text};
use sb_postgres::query::{FillError, QueryError, Refusal};
use sb_postgres::told::SqlState;
use std::alloc::{AllocError, AllocFailed, Global};

/// Why a message of the extended query fails.
#[derive(Clone, Copy)]
pub(crate) enum Denial {
    Memory,
    /// The text can't be read.
    Unread(Refusal),
    /// The text has several statements.
    Several,
    /// The line is too long with its values.
    TooLong,
    /// A parameter has the number 0, or one of more than 16 bits.
    NoParameter,
    StatementExists,
    NoStatement,
    PortalExists,
    NoPortal,
    /// There are as many names as there may be.
    TooMany,
    /// There are more or fewer values than parameters.
    WrongValues,
    WrongFormats,
    UnknownFormat,
    UnknownType,
    Null,
    /// A text isn't one of its type.
    NotOfType,
    /// Bytes aren't a value of their type.
    WrongBytes,
    OutOfRange,
    LongText,
    Unprintable,
    /// The portal was played already.
    Played,
    /// A limit of rows is asked for.
    Limited,
}

impl From<AllocError> for Denial {
    ghost use Rattle.sb_frontend.specs.declared.denial.Denial.TheVariants.{Memory};

    ghost from_gives = { λ _ e. e ≡ Memory };

    fn from(_error: AllocError) -> Denial {
        Denial::Memory
    }
}

impl<T: Drop> From<AllocFailed<T>> for Denial {
    ghost use Rattle.sb_frontend.specs.declared.denial.Denial.TheVariants.{Memory};

    ghost from_gives = { λ _ e. e ≡ Memory };

    fn from(_error: AllocFailed<T>) -> Denial {
        Denial::Memory
    }
}

/// Why a text can't be read.
pub(crate) fn of_query(error: QueryError) -> Denial
    ensures { result ≡ spec.of_query error }
{
    match error {
        QueryError::Memory => Denial::Memory,
        QueryError::Refused(refusal) => Denial::Unread(refusal),
    }
}

/// Why a line has no values in it.
pub(crate) fn of_fill(error: FillError) -> Denial
    ensures { result ≡ spec.of_fill error }
{
    match error {
        FillError::Memory => Denial::Memory,
        FillError::Refused(refusal) => Denial::Unread(refusal),
        FillError::NoValue(_) => Denial::NoParameter,
        FillError::TooLong => Denial::TooLong,
    }
}

fn state_of(denial: Denial) -> SqlState
    ensures { result ≡ spec.state_of denial }
{
    match denial {
        Denial::Memory => SqlState::OutOfMemory,
        Denial::Unread(refusal) => fault_state(refusal.fault),
        Denial::Several => SqlState::SyntaxError,
        Denial::TooLong => SqlState::ProgramLimitExceeded,
        Denial::NoParameter => SqlState::UndefinedParameter,
        Denial::StatementExists => SqlState::DuplicatePreparedStatement,
        Denial::NoStatement => SqlState::InvalidSqlStatementName,
        Denial::PortalExists => SqlState::DuplicateCursor,
        Denial::NoPortal => SqlState::InvalidCursorName,
        Denial::TooMany => SqlState::ProgramLimitExceeded,
        Denial::WrongValues => SqlState::ProtocolViolation,
        Denial::WrongFormats => SqlState::ProtocolViolation,
        Denial::UnknownFormat => SqlState::FeatureNotSupported,
        Denial::UnknownType => SqlState::FeatureNotSupported,
        Denial::Null => SqlState::NullValueNotAllowed,
        Denial::NotOfType => SqlState::InvalidTextRepresentation,
        Denial::WrongBytes => SqlState::InvalidBinaryRepresentation,
        Denial::OutOfRange => SqlState::NumericValueOutOfRange,
        Denial::LongText => SqlState::StringDataRightTruncation,
        Denial::Unprintable => SqlState::CharacterNotInRepertoire,
        Denial::Played => SqlState::ObjectNotInPrerequisiteState,
        Denial::Limited => SqlState::FeatureNotSupported,
    }
}

fn text_of(denial: Denial) -> &'static str
    ensures { result.now ≡ spec.text_of denial }
{
    match denial {
        Denial::Memory => "out of memory",
        Denial::Unread(refusal) => fault_text(refusal.fault),
        Denial::Several => "cannot insert multiple commands into a prepared statement",
        Denial::TooLong => {
            "a statement is too long with its values: its line has at most 4096 bytes"
        }
        Denial::NoParameter => "there is no such parameter",
        Denial::StatementExists => "a prepared statement of this name already exists",
        Denial::NoStatement => "the prepared statement does not exist",
        Denial::PortalExists => "a portal of this name already exists",
        Denial::NoPortal => "the portal does not exist",
        Denial::TooMany => "there are too many prepared statements or portals",
        Denial::WrongValues => {
            "the bind message has another number of parameters than the prepared statement"
        }
        Denial::WrongFormats => {
            "the bind message has another number of parameter formats than parameters"
        }
        Denial::UnknownFormat => "this format is not supported",
        Denial::UnknownType => "parameters of this type are not supported",
        Denial::Null => "there is no null value",
        Denial::NotOfType => "invalid input syntax for the type of the parameter",
        Denial::WrongBytes => "incorrect binary data format for the type of the parameter",
        Denial::OutOfRange => "the value of the parameter is out of range",
        Denial::LongText => "the value of the parameter is too long: a text has at most 255 bytes",
        Denial::Unprintable => "a byte of the parameter is outside printable ASCII",
        Denial::Played => "the portal cannot be run again",
        Denial::Limited => "a limit on the rows of a portal is not supported",
    }
}

/// Adds the place of what can't be read.
fn push_place(out: &mut Vec<u8>, denial: Denial) -> Result<(), AllocError> {
    match denial {
        Denial::Unread(refusal) => push_position(out, refusal.at),
        _ => Ok(()),
    }
}

/// The report of a denial. Only what can't be read has a place.
fn report_of(alloc: Global, denial: Denial) -> Result<Report, AllocError>
    ensures { IfOk result (λ r. (r.state ≡ spec.state_of denial) × (r.message.items ≡ spec.text_of denial)) }
{
    let mut report = Report::new(alloc, state_of(denial));
    report
        .message
        .extend_from_slice(text_of(denial).as_bytes())?;
    push_place(&mut report.position, denial)?;
    Ok(report)
}

/// Tells why a message fails.
pub(crate) fn tell_denial(alloc: Global, out: &mut Output, denial: Denial)
    ensures { output.SaysSome (output.FailsBy (spec.state_of denial) (spec.text_of denial)) out.old out.new }
{
    let made = report_of(alloc, denial);
    say_made(alloc, out, made);
}
