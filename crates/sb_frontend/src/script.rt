//! A query's text that can't be read.
ghost use Rattle.std.specs.Prelude.{◌≡◌, IfOk};
ghost use Rattle.sb_frontend.specs.Outputs as output;
ghost use Rattle.sb_frontend.specs.Scripts as spec;

use crate::output::Output;
use crate::report::{Report, push_position, say_made};
use sb_postgres::query::{Fault, QueryError, Refusal};
use sb_postgres::told::SqlState;
use std::alloc::{AllocError, Global};

pub(crate) fn fault_state(fault: Fault) -> SqlState
    ensures { result ≡ spec.fault_state fault }
{
    match fault {
        Fault::Unclosed => SqlState::SyntaxError,
        Fault::Unsupported => SqlState::FeatureNotSupported,
        Fault::Name => SqlState::InvalidName,
        Fault::Unprintable => SqlState::CharacterNotInRepertoire,
        Fault::TooLong => SqlState::ProgramLimitExceeded,
    }
}

pub(crate) fn fault_text(fault: Fault) -> &'static str
    ensures { result.now ≡ spec.fault_text fault }
{
    match fault {
        Fault::Unclosed => "unterminated quoted string or comment",
        Fault::Unsupported => "this form of constant or name is not supported",
        Fault::Name => "a quoted name has small letters, digits and _ alone",
        Fault::Unprintable => "a byte is outside printable ASCII",
        Fault::TooLong => "a statement is too long: its line has at most 4096 bytes",
    }
}

/// The report of a fault, with its place.
fn report_of(alloc: Global, refusal: Refusal) -> Result<Report, AllocError>
    ensures { IfOk result (λ r. (r.state ≡ spec.fault_state refusal.fault) × (r.message.items ≡ spec.fault_text refusal.fault)) }
{
    let mut report = Report::new(alloc, fault_state(refusal.fault));
    report
        .message
        .extend_from_slice(fault_text(refusal.fault).as_bytes())?;
    push_position(&mut report.position, refusal.at)?;
    Ok(report)
}

/// Tells why a text isn't read.
pub(crate) fn tell_unread(alloc: Global, out: &mut Output, error: QueryError)
    ensures { output.SaysSome (spec.TellsUnread error) out.old out.new }
{
    match error {
        QueryError::Memory => out.say_error(SqlState::OutOfMemory, b"out of memory"),
        QueryError::Refused(refusal) => {
            let made = report_of(alloc, refusal);
            say_made(alloc, out, made);
        }
    }
}
