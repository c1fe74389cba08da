//! The text of considered rules.
ghost use Rattle.std.specs.Prelude.{◌≡◌, [], ◌∷◌, ◌++◌, map, OnOk, OnErr};
ghost use Rattle.sb_wire.specs.ReplyText.{trace_line, verdict_word, words};
ghost use Rattle.sb_wire.specs.Written.{IsInFront, started_lines};

use crate::words::{push_head, push_word};
use sb_value::{Name, Verdict};
use std::alloc::AllocError;

pub(crate) fn push_trace(
    out: &mut Vec<u8>,
    start: &[u8],
    trace: &[(Name, Verdict)],
) -> Result<(), AllocError>
    ensures ok { OnOk result (out.new.items ≡
        out.old.items ++ started_lines start.now (map trace_line trace.now)) }
    ensures err { OnErr result (IsInFront out.old.items out.new.items) }
{
    for (rule, verdict) in trace {
        push_consideration(out, start, rule, *verdict)?;
    }
    Ok(())
}

fn push_consideration(
    out: &mut Vec<u8>,
    start: &[u8],
    rule: &Name,
    verdict: Verdict,
) -> Result<(), AllocError>
    ensures ok { OnOk result (out.new.items ≡
        out.old.items ++ started_lines start.now (words (rule.now ∷ verdict_word verdict ∷ []) ∷ [])) }
    ensures err { OnErr result (IsInFront out.old.items out.new.items) }
{
    push_head(out, start, rule.as_slice())?;
    push_word(out, verdict_text(verdict).as_bytes())?;
    out.push(b'\n')?;
    Ok(())
}

fn verdict_text(verdict: Verdict) -> &'static str
    ensures { result.now ≡ verdict_word verdict }
{
    match verdict {
        Verdict::True => "true",
        Verdict::False => "false",
        Verdict::Error => "error",
    }
}
