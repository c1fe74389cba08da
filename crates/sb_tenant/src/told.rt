//! The reply of an assertion point, with the rules' names.
ghost use Rattle.std.specs.Prelude.{◌≡◌, [], IfOk};
ghost use Rattle.sb_tenant.specs.declared.reply.Reply.TheVariants as told;
ghost use Rattle.sb_tenant.specs.Perform.{named, reply_of};
ghost use Rattle.sb_tenant.specs.Catalog.{EachCatalog, rule_name};

use crate::reply::{NamedTrace, Reply, RuleError, RuleName};
use crate::store::Replies;
use sb_catalog::Catalog;
use sb_process::{Outcome, Processed};
use sb_value::{Name, RuleId, Verdict};
use std::alloc::{AllocError, Global};

/// The reply, twice. Both share the trace.
#[inline(always)]
pub(crate) fn told(
    alloc: Global,
    rules: &Catalog,
    processed: &Processed,
) -> Result<Replies, AllocError>
    ensures told { EachCatalog rules.now (λ catalog. IfOk result (λ r.
        r.0 ≡ reply_of catalog processed.now.outcome (named catalog processed.now.trace))) }
    ensures twice { IfOk result (λ r. r.1 ≡ r.0) }
{
    let turns = processed.trace.as_slice();
    if turns.is_empty() && processed.outcome.is_done() {
        return Ok(plainly_done());
    }
    let trace = named(alloc, rules, turns)?;
    let shared = trace.share()?;
    let reply = with_trace(alloc, rules, processed, trace)?;
    let copy = with_trace(alloc, rules, processed, shared)?;
    Ok((reply, copy))
}

/// The reply where no rule was considered, twice.
fn plainly_done() -> Replies
    ensures { result ≡ (told.Done [], told.Done []) }
{
    (
        Reply::Done(NamedTrace::none()),
        Reply::Done(NamedTrace::none()),
    )
}

/// The reply with this trace.
fn with_trace(
    alloc: Global,
    rules: &Catalog,
    processed: &Processed,
    trace: NamedTrace,
) -> Result<Reply, AllocError>
    ensures { EachCatalog rules.now (λ catalog. IfOk result (λ r. r ≡ reply_of catalog processed.now.outcome trace)) }
{
    match processed.outcome {
        Outcome::Done => Ok(Reply::Done(trace)),
        Outcome::ByRule(rule) => Ok(Reply::ByRule(kept_name(alloc, rules, rule)?, trace)),
        Outcome::ByError(rule, refusal) => {
            let name = kept_name(alloc, rules, rule)?;
            Ok(Reply::ByError(name, RuleError::new(alloc, refusal)?, trace))
        }
        Outcome::ByLimit => Ok(Reply::ByLimit(trace)),
    }
}

/// The name of a rule, for a reply.
fn kept_name(alloc: Global, rules: &Catalog, rule: RuleId) -> Result<RuleName, AllocError>
    ensures { EachCatalog rules.now (λ catalog. IfOk result (λ name. name ≡ rule_name catalog rule)) }
{
    RuleName::new(alloc, name_of(rules, rule)?)
}

/// The verdicts with the rules' names.
fn named(
    alloc: Global,
    rules: &Catalog,
    verdicts: &[(RuleId, Verdict)],
) -> Result<NamedTrace, AllocError>
    ensures { EachCatalog rules.now (λ catalog. IfOk result (λ trace. trace ≡ named catalog verdicts.now)) }
{
    let mut list = Vec::with_capacity(alloc, verdicts.len())?;
    for (rule, verdict) in verdicts {
        list.push((name_of(rules, *rule)?, *verdict))?;
    }
    NamedTrace::new(alloc, list)
}

/// The name of a rule. One that isn't there can't occur, and is answered as want of memory.
fn name_of(rules: &Catalog, rule: RuleId) -> Result<Name, AllocError>
    ensures { EachCatalog rules.now (λ catalog. IfOk result (λ name. name ≡ rule_name catalog rule)) }
{
    match rules.rule(rule) {
        Some(rule) => Ok(rule.name),
        None => Err(AllocError),
    }
}
