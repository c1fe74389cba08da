//! Replies are compared by value.
ghost use Rattle.std.specs.Prelude.{◌≡◌};
ghost use Rattle.sb_host.specs.Comparing.{Tells};

use sb_tenant::{NamedTrace, Reply, RuleError, RuleName};
use sb_value::{Name, Refusal, Verdict};

/// True if the two have the same bytes.
pub(crate) fn same_bytes(one: &[u8], other: &[u8]) -> bool
    ensures { Tells result one.now other.now }
{
    one == other
}

fn same_name(one: &Name, other: &Name) -> bool
    ensures { Tells result one.now other.now }
{
    same_bytes(one.as_slice(), other.as_slice())
}

fn same_verdict(one: Verdict, other: Verdict) -> bool
    ensures { Tells result one other }
{
    one == other
}

fn same_turn(one: &(Name, Verdict), other: &(Name, Verdict)) -> bool
    ensures { Tells result one.now other.now }
{
    same_name(&one.0, &other.0) && same_verdict(one.1, other.1)
}

fn same_trace(one: &NamedTrace, other: &NamedTrace) -> bool
    ensures { Tells result one.now other.now }
{
    let turns = one.as_slice();
    let others = other.as_slice();
    if turns.len() != others.len() {
        return false;
    }
    for i in 0..turns.len() {
        if !same_turn(&turns[i], &others[i]) {
            return false;
        }
    }
    true
}

fn same_refusal(one: &Refusal, other: &Refusal) -> bool
    ensures { Tells result one.now other.now }
{
    match one {
        Refusal::Locked(table) => match other {
            Refusal::Locked(another) => same_name(table, another),
            _ => false,
        },
        _ => one.number() == other.number(),
    }
}

fn same_rule(one: &RuleName, other: &RuleName) -> bool
    ensures { Tells result one.now other.now }
{
    same_name(one.name(), other.name())
}

fn same_error(one: &RuleError, other: &RuleError) -> bool
    ensures { Tells result one.now other.now }
{
    same_refusal(one.refusal(), other.refusal())
}

/// True if the two are one reply.
pub(crate) fn same_reply(one: &Reply, other: &Reply) -> bool
    ensures { Tells result one.now other.now }
{
    match one {
        Reply::Ok => match other {
            Reply::Ok => true,
            _ => false,
        },
        Reply::Count(n) => match other {
            Reply::Count(m) => *n == *m,
            _ => false,
        },
        Reply::Rows(rows) => match other {
            Reply::Rows(others) => rows.is_same(others),
            _ => false,
        },
        Reply::Done(trace) => match other {
            Reply::Done(another) => same_trace(trace, another),
            _ => false,
        },
        Reply::ByRule(name, trace) => match other {
            Reply::ByRule(others, another) => same_rule(name, others) && same_trace(trace, another),
            _ => false,
        },
        Reply::ByError(name, error, trace) => match other {
            Reply::ByError(others, why, another) => {
                same_rule(name, others) && same_error(error, why) && same_trace(trace, another)
            }
            _ => false,
        },
        Reply::ByLimit(trace) => match other {
            Reply::ByLimit(another) => same_trace(trace, another),
            _ => false,
        },
        Reply::No(refusal) => match other {
            Reply::No(why) => same_refusal(refusal, why),
            _ => false,
        },
    }
}
