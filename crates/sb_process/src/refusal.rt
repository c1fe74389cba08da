//! Faults of evaluation, as refusals.
ghost use Rattle.std.specs.Prelude.{◌≡◌};
ghost use Rattle.sb_process.specs.Request.{refusal_for};

use sb_eval::EvalError;
use sb_value::Refusal;

/// The refusal for a fault of evaluation.
pub(crate) fn refusal_for(error: EvalError) -> Refusal
    ensures { result ≡ refusal_for error }
{
    match error {
        EvalError::TooBig => Refusal::TooBig,
        EvalError::Overflow => Refusal::Overflow,
        EvalError::TooManyRows => Refusal::TooManyRows,
        EvalError::NoMemory => Refusal::NoMemory,
    }
}
