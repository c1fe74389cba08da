//! The rules of two tenants, the order of them and the rulesets, compared.
ghost use Rattle.std.specs.Prelude.{◌≡◌, ◌+◌, ℕ, IsTrue};
ghost use Rattle.sb_tenant.specs.Compared.{AreSameFrom, HaveSameBefore};

use crate::alike::same::{Same, are_same};
use crate::alike::same_tables::same_name;
use crate::alike::trees::same_rule_condition;
use sb_catalog::{Definitions, Rule, Rulesets};
use sb_priority::Priorities;
use sb_value::{RULE_LIMIT, RuleId, RuleSet, Triggers};

/// True if the rules, the rulesets and the pairs of precedence are the same.
pub(crate) fn same_definitions(one: &Definitions, other: &Definitions) -> bool
    ensures rules { IsTrue result → one.now.rules ≡ other.now.rules }
    ensures rulesets { IsTrue result → one.now.rulesets ≡ other.now.rulesets }
    ensures order { IsTrue result → (b : ℕ) → HaveSameBefore one.now.order.before other.now.order.before b }
{
    are_same(one.rules.rules(), other.rules.rules())
        && same_rulesets(&one.rulesets, &other.rulesets)
        && same_order(&one.order, &other.order)
}

impl Same for Rule {
    fn is_same(&self, other: &Rule) -> bool {
        self.id == other.id
            && same_name(&self.name, &other.name)
            && self.table == other.table
            && same_triggers(self.triggers, other.triggers)
            && same_rule_condition(&self.condition, &other.condition)
            && are_same(self.actions.as_slice(), other.actions.as_slice())
            && self.active == other.active
    }
}

fn same_triggers(one: Triggers, other: Triggers) -> bool
    ensures { IsTrue result → one ≡ other }
{
    one.inserted == other.inserted
        && one.deleted == other.deleted
        && one.updated == other.updated
        && one.columns == other.columns
}

fn same_rulesets(one: &Rulesets, other: &Rulesets) -> bool
    ensures { IsTrue result → one.now ≡ other.now }
{
    if one.len() != other.len() {
        return false;
    }
    for place in 0..one.len() {
        if !same_ruleset_at(one, other, place) {
            return false;
        }
    }
    true
}

/// True if the rulesets at that place are the same.
fn same_ruleset_at(one: &Rulesets, other: &Rulesets, place: usize) -> bool
    ensures { IsTrue result → AreSameFrom one.now other.now (place + 1) → AreSameFrom one.now other.now place }
{
    match one.at(place) {
        None => false,
        Some((name, set)) => match other.at(place) {
            None => false,
            Some((second, members)) => same_name(name, second) && same_set(*set, *members),
        },
    }
}

fn same_set(one: RuleSet, other: RuleSet) -> bool
    ensures { IsTrue result → one ≡ other }
{
    // for the proof: both are as long
    let _ = (one.capacity(), other.capacity());
    for number in 0..RULE_LIMIT {
        let rule = RuleId::new(number as u8);
        if one.contains(rule) != other.contains(rule) {
            return false;
        }
    }
    true
}

/// True if the same rules are put before each rule.
fn same_order(one: &Priorities, other: &Priorities) -> bool
    ensures { IsTrue result → (b : ℕ) → HaveSameBefore one.now.before other.now.before b }
{
    // for the proof: no rule beyond the limit has any
    let _ = (one.direct(RuleId::new(0)), other.direct(RuleId::new(0)));
    for number in 0..RULE_LIMIT {
        if !same_before(one, other, RuleId::new(number as u8)) {
            return false;
        }
    }
    true
}

fn same_before(one: &Priorities, other: &Priorities, rule: RuleId) -> bool
    ensures { IsTrue result → HaveSameBefore one.now.before other.now.before rule }
{
    same_set(one.direct(rule), other.direct(rule))
}
