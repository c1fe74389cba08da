//! Rules in order of creation.
ghost use Rattle.std.specs.Prelude.{◌≡◌, ℕ, ◌<◌, ◌≤◌, not, ◌==◌, if◌then◌else◌, [], ◌∷◌, ◌++◌, length, filter, slice_get, slice_index, take, Some, false};
ghost use Rattle.std.specs.List.{list_any};
ghost use Rattle.sb_value.specs.Flags.{flag_at};
ghost use Rattle.sb_value.specs.Limits.{rule_limit};
ghost use Rattle.sb_priority.specs.Members.{AreDifferent};

use sb_value::{RULE_LIMIT, RuleId, RuleSet};
use std::marker::Model;

/// A list of different rules, the set of the same rules, and for each of them its place in the list.
#[derive(Drop)]
pub struct RuleList {
    rules: [RuleId; RULE_LIMIT],
    places: [u8; RULE_LIMIT],
    count: usize,
    members: RuleSet,
}

impl Model for RuleList {
    ghost use Rattle.std.specs.Prelude.{ℕ, List, take};
    ghost use Rattle.sb_priority.specs.Members.{AreListed};

    ghost Value = { List ℕ };

    ghost view = { λ list. take list.count list.rules };

    ghost invariant = { λ list. AreListed list.members list.rules list.places list.count };
}

impl RuleList {
    /// No rules.
    pub fn new() -> RuleList
        ensures { result ≡ [] }
    {
        RuleList {
            rules: [RuleId::new(0); RULE_LIMIT],
            places: [0; RULE_LIMIT],
            count: 0,
            members: RuleSet::empty(),
        }
    }

    /// The rules, the earliest created first.
    pub fn as_slice(&self) -> &[RuleId]
        ensures value { result.now ≡ self.now }
        ensures bound { length result.now ≤ rule_limit }
        ensures different { AreDifferent self.now }
    {
        &self.rules[..self.count]
    }

    /// The rules as a set.
    pub fn members(&self) -> RuleSet
        ensures { (k : ℕ) → flag_at result k ≡ list_any (λ r. r == k) self.now }
    {
        self.members
    }

    /// The place of a rule that is in the list.
    pub fn place(&self, rule: RuleId) -> usize
        ensures { (k : ℕ) → slice_get self.now k ≡ Some rule → result ≡ k }
    {
        self.places[rule.index()] as usize
    }

    /// Adds the rule as the last.
    pub fn push(&mut self, rule: RuleId)
        requires room { length self.old < rule_limit }
        requires new { list_any (λ r. r == rule) self.old ≡ false }
        ensures { self.new ≡ self.old ++ rule ∷ [] }
    {
        self.rules[self.count] = rule;
        self.places[rule.index()] = self.count as u8;
        self.count += 1;
        self.members = self.members.with(rule);
    }

    /// Adds the rule if it is wanted.
    fn push_if(&mut self, rule: RuleId, wanted: bool)
        requires room { length self.old < rule_limit }
        requires new { list_any (λ r. r == rule) self.old ≡ false }
        ensures { self.new ≡ self.old ++ (if wanted then rule ∷ [] else []) }
    {
        if wanted {
            self.push(rule);
        }
    }

    /// The list without the rule.
    pub fn without(&self, dropped: RuleId) -> RuleList
        ensures { result ≡ filter (λ r. not (r == dropped)) self.now }
    {
        let mut kept = RuleList::new();
        for rule in self.as_slice() {
            kept.push_if(*rule, *rule != dropped);
        }
        kept
    }
}
