//! Pairs of rules, with their closure at hand.
ghost use Rattle.std.specs.Prelude.{◌≡◌, ℕ, Bool, List, [], not, ◌&&◌, ◌||◌, ◌==◌, ◌++◌, map, length};
ghost use Rattle.sb_value.specs.Flags.{flag_at};
ghost use Rattle.sb_value.specs.Limits.{rule_limit};
ghost use Rattle.sb_value.specs.Order.{precedes};
ghost use Rattle.sb_priority.specs.Closed.{relates, AreClosed, ArePredecessors, GainsPairs, HasPairs};
ghost use Rattle.sb_priority.specs.Rows.{IsRowOf};
ghost use Rattle.sb_priority.specs.Ranks.{is_between, pairs_of};
ghost use Rattle.std.specs.List.{list_any};

use crate::closure::Closure;
use crate::rows::PrecedenceRow;
use sb_value::{RULE_LIMIT, RuleId, RuleSet, precedes_is_closure};
use std::marker::Model;

/// Pairs: for each rule those that a pair puts before it, and those that any way of pairs does.
#[derive(Drop)]
pub struct Pairs {
    direct: [RuleSet; RULE_LIMIT],
    closure: Closure,
}

impl Model for Pairs {
    ghost use Rattle.std.specs.Prelude.{List, Bool};
    ghost use Rattle.sb_priority.specs.Closed.{AreClosed};

    ghost Value = { List (List Bool) };

    ghost view = { λ p. p.direct };

    ghost invariant = { λ p. AreClosed p.direct p.closure };
}

impl Pairs {
    /// The pairs of these rows, with their closure.
    pub fn of(direct: [RuleSet; RULE_LIMIT], closure: Closure) -> Pairs
        requires { AreClosed direct closure }
        ensures { result ≡ direct }
    {
        Pairs { direct, closure }
    }

    /// The pairs are those of a list.
    pub fn are_listed(&self)
        ensures { (pairs : List (ℕ × ℕ)) × HasPairs self.now pairs }
    {
        let _ = &self.direct;
    }

    /// The row of the rule.
    pub fn row(&self, rule: RuleId) -> PrecedenceRow
        ensures { IsRowOf self.now rule result }
    {
        PrecedenceRow {
            direct: self.direct[rule.index()],
            before: self.predecessors(rule),
        }
    }

    /// No pairs.
    pub fn none() -> Pairs
        ensures { HasPairs result [] }
    {
        Pairs {
            direct: [RuleSet::empty(); RULE_LIMIT],
            closure: Closure::new(),
        }
    }

    /// The rules that precede the rule.
    pub fn predecessors(&self, rule: RuleId) -> RuleSet
        ensures { ArePredecessors result self.now rule }
    {
        // for the proof: the test of precedence is the closure of the pairs
        precedes_is_closure();
        self.closure.predecessors(rule)
    }

    /// Adds the pairs of a new rule.
    pub fn add_rule(&mut self, rule: RuleId, ahead_of: &[RuleId], behind: &[RuleId])
        ensures { GainsPairs self.old self.new (pairs_of rule ahead_of.now behind.now) }
    {
        self.lead(rule, ahead_of);
        self.trail(rule, behind);
    }

    /// Puts the rule before the others.
    fn lead(&mut self, rule: RuleId, others: &[RuleId])
        ensures { GainsPairs self.old self.new (map (λ o. (rule, o)) others.now) }
    {
        for other in others {
            self.link(rule, *other);
        }
    }

    /// Puts the rule behind the others.
    fn trail(&mut self, rule: RuleId, others: &[RuleId])
        ensures { GainsPairs self.old self.new (map (λ o. (o, rule)) others.now) }
    {
        for other in others {
            self.link(*other, rule);
        }
    }

    /// Adds one pair.
    fn link(&mut self, first: RuleId, second: RuleId)
        ensures { (a b : ℕ) → relates self.new a b ≡ (relates self.old a b || ((first == a) && (second == b))) }
    {
        self.link_row(RuleSet::empty().with(first), second);
    }

    /// Puts the rules of the set before the rule.
    fn link_row(&mut self, row: RuleSet, second: RuleId)
        ensures { (a b : ℕ) → relates self.new a b ≡ (relates self.old a b || (flag_at row a && (second == b))) }
    {
        if row.is_empty() {
            return;
        }
        // for the proof: no rule of the row is past its capacity
        let _capacity = row.capacity();
        mark(&mut self.direct, row, second);
        self.closure.link_row(row, second);
    }

    /// The pairs without those of the rule.
    pub fn without(&self, rule: RuleId) -> Pairs
        ensures { (a b : ℕ) → relates result a b ≡ (relates self.now a b && (not (a == rule) && not (b == rule))) }
    {
        linked_without(&self.direct, rule)
    }

    /// The pairs without those between the rule and the others, either way round.
    pub fn apart(&self, rule: RuleId, others: &[RuleId]) -> Pairs
        ensures { (a b : ℕ) → relates result a b ≡ (relates self.now a b && not (is_between rule others.now a b)) }
    {
        linked_apart(&self.direct, rule, others)
    }
}

/// The pairs of the rows, linked afresh without those of the dropped rule.
fn linked_without(rows: &[RuleSet], dropped: RuleId) -> Pairs
    requires { length rows.now ≡ rule_limit }
    ensures { (a b : ℕ) → relates result a b ≡ (relates rows.now a b && (not (a == dropped) && not (b == dropped))) }
{
    let mut kept = Pairs::none();
    for number in 0..RULE_LIMIT {
        let second = RuleId::new(number as u8);
        kept.link_row(row_without(rows[number], second, dropped), second);
    }
    kept
}

/// Marks the rules in the row of the second.
fn mark(rows: &mut [RuleSet], first: RuleSet, second: RuleId)
    requires { length rows.old ≡ rule_limit }
    ensures { (a b : ℕ) → relates rows.new a b ≡ (relates rows.old a b || (flag_at first a && (second == b))) }
{
    let _in_range = second.number();
    rows[second.index()] = rows[second.index()].union(first);
}

/// The row of the second rule without the dropped one, or none if it is the dropped one's.
fn row_without(row: RuleSet, second: RuleId, dropped: RuleId) -> RuleSet
    ensures { (a : ℕ) → flag_at result a ≡ (flag_at row a && (not (a == dropped) && not (second == dropped))) }
{
    if second == dropped {
        RuleSet::empty()
    } else {
        row.without(dropped)
    }
}

/// The pairs of the rows, linked afresh without those between the rule and the others.
fn linked_apart(rows: &[RuleSet], rule: RuleId, others: &[RuleId]) -> Pairs
    requires { length rows.now ≡ rule_limit }
    ensures { (a b : ℕ) → relates result a b ≡ (relates rows.now a b && not (is_between rule others.now a b)) }
{
    let mut kept = Pairs::none();
    for number in 0..RULE_LIMIT {
        let second = RuleId::new(number as u8);
        kept.link_row(row_apart(rows[number], second, rule, others), second);
    }
    kept
}

/// The row of the second rule without what stands between the rule and the others.
fn row_apart(row: RuleSet, second: RuleId, rule: RuleId, others: &[RuleId]) -> RuleSet
    ensures { (a : ℕ) → flag_at result a ≡ (flag_at row a && not (is_between rule others.now a second)) }
{
    if second == rule {
        row_less(row, others)
    } else if is_listed(others, second) {
        row.without(rule)
    } else {
        row
    }
}

/// True if the rule is in the list.
fn is_listed(list: &[RuleId], rule: RuleId) -> bool
    ensures { result ≡ list_any (λ o. o == rule) list.now }
{
    list.iter().any(|other| *other == rule)
}

/// The set without the rules of the list.
fn row_less(row: RuleSet, others: &[RuleId]) -> RuleSet
    ensures { (a : ℕ) → flag_at result a ≡ (flag_at row a && not (list_any (λ o. o == a) others.now)) }
{
    let mut kept = row;
    for other in others {
        kept = kept.without(*other);
    }
    kept
}
