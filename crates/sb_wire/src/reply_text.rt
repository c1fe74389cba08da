//! The text of replies, added behind what is in a buffer.
ghost use Rattle.std.specs.Prelude.{◌≡◌, [], ◌∷◌, ◌++◌, map, OnOk, OnErr};
ghost use Rattle.sb_tenant.specs.declared.reply.Reply.TheVariants as reply;
ghost use Rattle.sb_wire.specs.ReplyText.{reply_lines, trace_line, counted};
ghost use Rattle.sb_wire.specs.Output.{prefixed, ended_lines};
ghost use Rattle.sb_wire.specs.Seen.{refusal_line};
ghost use Rattle.sb_wire.specs.Written.{IsInFront, started_lines};

use crate::prefix::Prefix;
use crate::refusal::WireRefusal;
use crate::rows::push_rows;
use crate::trace::push_trace;
use crate::words::{push_count, push_counted, push_head, push_line, push_refusal, push_word};
use sb_tenant::Reply;
use sb_value::{Name, Refusal, Verdict};
use std::alloc::AllocError;

/// Adds the lines of a reply, each with the prefix. Error: out of memory.
#[tactic(auto, using(crate::proofs::Texts::prefixed_started))]
pub fn write_reply(out: &mut Vec<u8>, prefix: &Prefix, reply: &Reply) -> Result<(), AllocError>
    ensures ok { OnOk result (out.new.items ≡
        out.old.items ++ prefixed prefix.now (reply_lines reply.now)) }
    ensures err { OnErr result (out.new.items ≡ out.old.items) }
{
    push_whole_reply(out, prefix.start(), reply)
}

/// Adds the lines of a reply. Error: out of memory.
pub fn write_bare_reply(out: &mut Vec<u8>, reply: &Reply) -> Result<(), AllocError>
    ensures ok { OnOk result (out.new.items ≡
        out.old.items ++ ended_lines (reply_lines reply.now)) }
    ensures err { OnErr result (out.new.items ≡ out.old.items) }
{
    push_whole_reply(out, &[], reply)
}

/// Adds the line of a refusal, with the prefix.
#[inline(never)]
pub fn write_refusal(
    out: &mut Vec<u8>,
    prefix: &Prefix,
    refusal: WireRefusal,
) -> Result<(), AllocError>
    ensures ok { OnOk result (out.new.items ≡
        out.old.items ++ prefixed prefix.now (refusal_line refusal ∷ [])) }
    ensures err { OnErr result (out.new.items ≡ out.old.items) }
{
    push_line(out, prefix.start(), refusal.text().as_bytes())
}

/// Adds the line of a refusal.
pub fn write_bare_refusal(out: &mut Vec<u8>, refusal: WireRefusal) -> Result<(), AllocError>
    ensures ok { OnOk result (out.new.items ≡
        out.old.items ++ ended_lines (refusal_line refusal ∷ [])) }
    ensures err { OnErr result (out.new.items ≡ out.old.items) }
{
    push_line(out, &[], refusal.text().as_bytes())
}

/// Adds all lines, or nothing.
fn push_whole_reply(out: &mut Vec<u8>, start: &[u8], reply: &Reply) -> Result<(), AllocError>
    ensures ok { OnOk result (out.new.items ≡
        out.old.items ++ started_lines start.now (reply_lines reply.now)) }
    ensures err { OnErr result (out.new.items ≡ out.old.items) }
{
    let before = out.len();
    let pushed = push_reply(out, start, reply);
    if pushed.is_err() {
        out.truncate(before);
    }
    pushed
}

fn push_reply(out: &mut Vec<u8>, start: &[u8], reply: &Reply) -> Result<(), AllocError>
    ensures ok { OnOk result (out.new.items ≡
        out.old.items ++ started_lines start.now (reply_lines reply.now)) }
    ensures err { OnErr result (IsInFront out.old.items out.new.items) }
{
    match reply {
        Reply::Ok => push_line(out, start, b"ok"),
        Reply::Count(count) => push_counted(out, start, b"ok", *count),
        Reply::Rows(rows) => push_rows(out, start, rows),
        Reply::Done(trace) => push_considered(out, start, b"done", trace.as_slice()),
        Reply::ByRule(rule, trace) => push_by_rule(out, start, rule.name(), trace.as_slice()),
        Reply::ByError(rule, error, trace) => {
            push_by_error(out, start, rule.name(), error.refusal(), trace.as_slice())
        }
        Reply::ByLimit(trace) => push_considered(out, start, b"rolledback limit", trace.as_slice()),
        Reply::No(refusal) => push_no(out, start, refusal),
    }
}

fn push_by_rule(
    out: &mut Vec<u8>,
    start: &[u8],
    rule: &Name,
    trace: &[(Name, Verdict)],
) -> Result<(), AllocError>
    ensures ok { OnOk result (out.new.items ≡
        out.old.items ++ started_lines start.now (reply_lines (reply.ByRule rule.now trace.now))) }
    ensures err { OnErr result (IsInFront out.old.items out.new.items) }
{
    push_head(out, start, b"rolledback rule")?;
    push_word(out, rule.as_slice())?;
    push_count(out, trace.len() as u64)?;
    push_trace(out, start, trace)
}

fn push_by_error(
    out: &mut Vec<u8>,
    start: &[u8],
    rule: &Name,
    refusal: &Refusal,
    trace: &[(Name, Verdict)],
) -> Result<(), AllocError>
    ensures ok { OnOk result (out.new.items ≡
        out.old.items ++ started_lines start.now (reply_lines (reply.ByError rule.now refusal.now trace.now))) }
    ensures err { OnErr result (IsInFront out.old.items out.new.items) }
{
    push_head(out, start, b"rolledback error")?;
    push_word(out, rule.as_slice())?;
    push_refusal(out, refusal)?;
    push_count(out, trace.len() as u64)?;
    push_trace(out, start, trace)
}

/// A first line that ends with the number of the considerations, and these.
fn push_considered(
    out: &mut Vec<u8>,
    start: &[u8],
    head: &[u8],
    trace: &[(Name, Verdict)],
) -> Result<(), AllocError>
    ensures ok { OnOk result (out.new.items ≡
        out.old.items ++ started_lines start.now (counted (head.now ∷ []) (map trace_line trace.now))) }
    ensures err { OnErr result (IsInFront out.old.items out.new.items) }
{
    push_counted(out, start, head, trace.len() as u64)?;
    push_trace(out, start, trace)
}

fn push_no(out: &mut Vec<u8>, start: &[u8], refusal: &Refusal) -> Result<(), AllocError>
    ensures ok { OnOk result (out.new.items ≡
        out.old.items ++ started_lines start.now (reply_lines (reply.No refusal.now))) }
    ensures err { OnErr result (IsInFront out.old.items out.new.items) }
{
    push_head(out, start, b"no")?;
    push_refusal(out, refusal)?;
    if let Refusal::Locked(table) = refusal {
        push_word(out, table.as_slice())?;
    }
    out.push(b'\n')?;
    Ok(())
}
