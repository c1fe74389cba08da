//! The order of the rules of one tenant.
ghost use Rattle.std.specs.Prelude.{◌≡◌, ℕ, ◌<◌, ◌≤◌, not, ◌&&◌, ◌==◌, nat_lt, true, false, Some, slice_get, if◌then◌else◌, MatchOption, List, [], ◌∷◌, ◌++◌, filter, length, OnOk, OnErr};
ghost use Rattle.sb_value.specs.Flags.{flag_at};
ghost use Rattle.sb_value.specs.Limits.{rule_limit};
ghost use Rattle.sb_value.specs.Order.{precedes, chosen};
ghost use Rattle.sb_priority.specs.Closed.{relates};
ghost use Rattle.sb_priority.specs.Ranks.{HasOrder, HasRow, AreRanked, is_ranked, pairs_of, pairs_altered as altered};
ghost use Rattle.sb_priority.specs.Ranks.{Alters, AltersToCycle, Gains, Loses, ClosesCycle, DecidesCycle, DecidesFree, IsEarlier, ranked};

use crate::list::RuleList;
use crate::rows::PrecedenceRows;
use sb_value::{RULE_LIMIT, RuleId, RuleSet, precedes_is_closure};
use std::alloc::{AllocError, Global};
use std::marker::Model;

/// With the new pairs a rule would precede itself.
#[derive(Clone, Copy, Debug, PartialEq, Eq)]
pub struct Cycle;

/// Rules in order of creation, and which of them precede which.
pub struct Priorities {
    rules: RuleList,
    rows: PrecedenceRows,
}

impl Drop for Priorities {
    fn drop(self) {
        let Self { rules: _, rows: _ } = self;
    }
}

impl Model for Priorities {
    ghost use Rattle.sb_priority.specs.Ranks.{Ranks, HaveRows};

    ghost Value = { Ranks };

    ghost view = { λ p. record { rules = p.rules; before = p.rows } };

    ghost invariant = { λ p. HaveRows p.rules p.rows };
}

impl Priorities {
    /// No rules.
    pub fn new(alloc: Global) -> Priorities
        ensures rules { result.rules ≡ [] }
        ensures pairs { HasOrder result [] }
    {
        Priorities {
            rules: RuleList::new(),
            rows: PrecedenceRows::new(alloc),
        }
    }

    /// True if one more rule fits.
    pub fn has_room(&self) -> bool
        ensures { result ≡ nat_lt (length self.now.rules) rule_limit }
    {
        self.rules.as_slice().len() < RULE_LIMIT
    }

    /// Makes room for a rule of that number: after it, adding the rule takes no memory.
    pub fn reserve(&mut self, rule: RuleId) -> Result<(), AllocError>
        ensures room { OnOk result (HasRow self.new rule) }
        ensures rules { self.new.rules ≡ self.old.rules }
        ensures pairs { (pairs : List (ℕ × ℕ)) → HasOrder self.old pairs → HasOrder self.new pairs }
        ensures unchanged { OnErr result (self.new ≡ self.old) }
    {
        self.rows.reserve(rule)
    }

    /// True if the rule would precede itself if it preceded those of the first list and followed those of the second.
    pub fn closes_cycle(&self, rule: RuleId, ahead_of: &[RuleId], behind: &[RuleId]) -> bool
        ensures { DecidesCycle self.now rule (pairs_of rule ahead_of.now behind.now) result }
    {
        let mut pairs = self.rows.load();
        pairs.add_rule(rule, ahead_of, behind);
        pairs.predecessors(rule).contains(rule)
    }

    /// Adds a rule that precedes those of the first list and follows those of the second. Error: the pairs would close
    /// a cycle; nothing changes.
    pub fn add(&mut self, rule: RuleId, ahead_of: &[RuleId], behind: &[RuleId]) -> Result<(), Cycle>
        requires room { length self.old.rules < rule_limit }
        requires row { HasRow self.old rule }
        requires new { is_ranked self.old rule ≡ false }
        requires others { AreRanked self.old ahead_of.now }
        ensures last { OnOk result (self.new.rules ≡ self.old.rules ++ rule ∷ []) }
        ensures linked { OnOk result (Gains self.old self.new (pairs_of rule ahead_of.now behind.now)) }
        ensures cycle { OnErr result (ClosesCycle self.old rule (pairs_of rule ahead_of.now behind.now)) }
        ensures unchanged { OnErr result (self.new ≡ self.old) }
    {
        // for the proof: a cycle goes through the new rule
        precedes_is_closure();
        let mut pairs = self.rows.load();
        pairs.are_listed();
        pairs.add_rule(rule, ahead_of, behind);
        if pairs.predecessors(rule).contains(rule) {
            return Err(Cycle);
        }
        self.rows.store(&pairs);
        self.rules.push(rule);
        Ok(())
    }

    /// Takes away the pairs between a rule and those of the last list, either way round; then the rule precedes those
    /// of the first list and follows those of the second. Error: the pairs would close a cycle; nothing changes.
    pub fn alter(
        &mut self,
        rule: RuleId,
        ahead_of: &[RuleId],
        behind: &[RuleId],
        apart: &[RuleId],
    ) -> Result<(), Cycle>
        requires known { is_ranked self.old rule ≡ true }
        requires others { AreRanked self.old ahead_of.now }
        ensures rules { self.new.rules ≡ self.old.rules }
        ensures altered { OnOk result (Alters self.old self.new (altered rule apart.now ahead_of.now behind.now)) }
        ensures cycle { OnErr result (AltersToCycle self.old rule (altered rule apart.now ahead_of.now behind.now)) }
        ensures unchanged { OnErr result (self.new ≡ self.old) }
    {
        // for the proof: a cycle goes through the rule whose pairs are new
        precedes_is_closure();
        let mut altered = self.rows.load().apart(rule, apart);
        altered.are_listed();
        altered.add_rule(rule, ahead_of, behind);
        if altered.predecessors(rule).contains(rule) {
            return Err(Cycle);
        }
        self.rows.store(&altered);
        Ok(())
    }

    /// Drops a rule with its pairs: what led through it is gone.
    pub fn drop_rule(&mut self, rule: RuleId)
        ensures rules { self.new.rules ≡ filter (λ r. not (r == rule)) self.old.rules }
        ensures pairs { Loses self.old self.new rule }
    {
        // for the proof: with fewer pairs nothing more precedes
        precedes_is_closure();
        self.rules = self.rules.without(rule);
        let pairs = self.rows.load().without(rule);
        self.rows.store(&pairs);
    }

    /// True if the first rule precedes the second, by a pair or through other rules.
    pub fn precedes(&self, first: RuleId, second: RuleId) -> bool
        ensures { (pairs : List (ℕ × ℕ)) → HasOrder self.now pairs → result ≡ precedes pairs first second }
    {
        self.rows.predecessors(second).contains(first)
    }

    /// The rules that a pair puts before the rule.
    pub fn direct(&self, rule: RuleId) -> RuleSet
        ensures rules { (a : ℕ) → flag_at result a ≡ relates self.now.before a rule }
        ensures few { length self.now.before ≤ rule_limit }
    {
        self.rows.direct(rule)
    }

    /// The earliest created rule of the set that no other rule of the set precedes.
    pub fn choose(&self, set: RuleSet) -> Option<RuleId>
        ensures { (pairs : List (ℕ × ℕ)) → HasOrder self.now pairs → result ≡ chosen pairs (ranked set self.now.rules) }
    {
        // for the proof: each rule has one place
        let _ = self.rules.as_slice();
        let ranked = self.rules.members().intersection(set);
        let mut first = None;
        let mut next = 0;
        while let Some(rule) = ranked.first_from(next) {
            next = rule.index() + 1;
            if self.is_free(rule, set) {
                first = Some(self.earlier(first, rule));
            }
        }
        first
    }

    /// Of the two rules the one that was created earlier.
    fn earlier(&self, first: Option<RuleId>, rule: RuleId) -> RuleId
        ensures { IsEarlier self.now.rules first rule result }
    {
        match first {
            Some(other) => {
                if self.rules.place(other) < self.rules.place(rule) {
                    other
                } else {
                    rule
                }
            }
            None => rule,
        }
    }

    /// True if no other rule of the set precedes the rule.
    fn is_free(&self, rule: RuleId, set: RuleSet) -> bool
        ensures { DecidesFree self.now set rule result }
    {
        let others = self.rules.members().intersection(set);
        !self.rows.predecessors(rule).intersects(others)
    }
}
