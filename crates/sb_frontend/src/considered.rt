//! The text of considered rules.
ghost use Rattle.std.specs.Prelude.{◌≡◌, ◌++◌, OnOk, codes, flat_map};
ghost use Rattle.sb_frontend.specs.Considerations as spec;
ghost use Rattle.sb_frontend.specs.Outputs as output;

use crate::output::Output;
use sb_postgres::told::SqlState;
use sb_value::{Name, Verdict};
use std::alloc::{AllocError, Global};

fn verdict_text(verdict: Verdict) -> &'static str
    ensures { result.now ≡ spec.verdict_text verdict }
{
    match verdict {
        Verdict::True => " true",
        Verdict::False => " false",
        Verdict::Error => " error",
    }
}

fn push_one(out: &mut Vec<u8>, considered: &(Name, Verdict)) -> Result<(), AllocError>
    ensures { OnOk result (out.new.items ≡ out.old.items ++ spec.considered considered.now) }
{
    let (rule, verdict) = considered;
    out.extend_from_slice(rule.as_slice())?;
    out.extend_from_slice(verdict_text(*verdict).as_bytes())
}

/// Adds more rules, each behind a comma.
fn push_others(out: &mut Vec<u8>, considered: &[(Name, Verdict)]) -> Result<(), AllocError>
    ensures { OnOk result (out.new.items ≡ out.old.items ++ flat_map (λ d. codes ", " ++ spec.considered d) considered.now) }
{
    for one in considered {
        out.extend_from_slice(b", ")?;
        push_one(out, one)?;
    }
    Ok(())
}

fn push_list(out: &mut Vec<u8>, considered: &[(Name, Verdict)]) -> Result<(), AllocError>
    ensures { OnOk result (out.new.items ≡ out.old.items ++ spec.listed considered.now) }
{
    if let [first, others @ ..] = considered {
        push_one(out, first)?;
        push_others(out, others)?;
    }
    Ok(())
}

/// Adds the considered rules, as `rules considered: note true, check false`.
pub(crate) fn push_considered(
    out: &mut Vec<u8>,
    considered: &[(Name, Verdict)],
) -> Result<(), AllocError>
    ensures { OnOk result (out.new.items ≡ out.old.items ++ spec.considered_text considered.now) }
{
    out.extend_from_slice(b"rules considered: ")?;
    push_list(out, considered)?;
    Ok(())
}

/// Tells which rules were considered, if any.
pub(crate) fn note(alloc: Global, out: &mut Output, considered: &[(Name, Verdict)])
    ensures { output.Says (spec.notices considered.now) out.old out.new }
{
    if considered.is_empty() {
        return;
    }
    let mut message = Vec::new(alloc);
    match push_considered(&mut message, considered) {
        Ok(()) => out.say_notice("NOTICE", SqlState::SuccessfulCompletion, &message),
        Err(_) => out.fail(),
    }
}
