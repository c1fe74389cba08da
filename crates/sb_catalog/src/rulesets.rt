//! All rulesets of a tenant.
ghost use Rattle.std.specs.Map.Iter.{deref_pair};
ghost use Rattle.std.specs.Prelude.{◌≡◌, [], length, option_map, slice_get, IsTrue, IsFalse, map, unwrap_or, slice_set, false, OnOk, IfErr, OnErr};
ghost use Rattle.sb_catalog.specs.Members.{changed_members, with_rules, without_rules};
ghost use Rattle.sb_catalog.specs.Sets.{has_name, create_refusal, created, without_set, changed, without_rule, members_of};
ghost use Rattle.sb_catalog.specs.Distinct.{AreDistinct};

use crate::members::{MemberChange, changed};
use indexmap::IndexMap;
use sb_value::{Name, Refusal, RuleId, RuleSet};
use std::alloc::Global;
use std::marker::Model;

/// A tenant has at most this many rulesets.
pub const RULESET_LIMIT: usize = 16;

/// The rulesets in order of creation, found by name in constant time.
pub struct Rulesets {
    sets: IndexMap<Name, RuleSet>,
}

impl Drop for Rulesets {
    fn drop(self) {
        let Self { sets: _ } = self;
    }
}

impl Model for Rulesets {
    ghost use Rattle.std.specs.Prelude.{List, map};
    ghost use Rattle.sb_catalog.specs.Ruleset.{Ruleset, set_of};
    ghost use Rattle.sb_catalog.specs.Distinct.{AreDistinct};

    ghost Value = { List Ruleset };

    ghost view = { λ r. map set_of r.sets.entries };

    ghost invariant = { λ r. AreDistinct (map set_of r.sets.entries) };
}

impl Rulesets {
    /// No rulesets.
    pub fn new(alloc: Global) -> Rulesets
        ensures { result ≡ [] }
    {
        Rulesets {
            sets: IndexMap::new(alloc),
        }
    }

    /// Adds an empty ruleset of that name. Error: RulesetExists, TooManyRulesets or NoMemory.
    pub fn create(&mut self, name: Name) -> Result<(), Refusal>
        ensures added { OnOk result (self.new ≡ created self.old name) }
        ensures allowed { OnOk result (create_refusal self.old name ≡ None) }
        ensures refused { IfErr result (λ e. e ≡ unwrap_or (create_refusal self.old name) Refusal.NoMemory) }
        ensures unchanged { OnErr result (self.new ≡ self.old) }
    {
        if self.has(&name) {
            return Err(Refusal::RulesetExists);
        }
        if self.sets.len() >= RULESET_LIMIT {
            return Err(Refusal::TooManyRulesets);
        }
        match self.sets.insert(name, RuleSet::empty()) {
            Ok(_) => Ok(()),
            Err(_) => Err(Refusal::NoMemory),
        }
    }

    /// Drops the ruleset of that name. Error: NoRuleset.
    pub fn drop_set(&mut self, name: &Name) -> Result<(), Refusal>
        ensures known { OnOk result (IsTrue (has_name self.old name.now)) }
        ensures dropped { OnOk result (self.new ≡ without_set self.old name.now) }
        ensures refused { IfErr result (λ e. (e ≡ Refusal.NoRuleset) × IsFalse (has_name self.old name.now)) }
        ensures unchanged { OnErr result (self.new ≡ self.old) }
    {
        match self.sets.shift_remove(name) {
            Some(_) => Ok(()),
            None => Err(Refusal::NoRuleset),
        }
    }

    /// Adds the rules to the ruleset of that name, or takes them out of it. Error: NoRuleset.
    pub fn change_members(
        &mut self,
        name: &Name,
        change: MemberChange,
        rules: &[RuleId],
    ) -> Result<(), Refusal>
        ensures known { OnOk result (IsTrue (has_name self.old name.now)) }
        ensures changed { OnOk result (self.new ≡ changed (λ set. changed_members change set rules.now) self.old name.now) }
        ensures refused { IfErr result (λ e. (e ≡ Refusal.NoRuleset) × IsFalse (has_name self.old name.now)) }
        ensures unchanged { OnErr result (self.new ≡ self.old) }
    {
        match self.sets.get_mut(name) {
            Some(set) => {
                *set = changed(*set, change, rules);
                Ok(())
            }
            None => Err(Refusal::NoRuleset),
        }
    }

    /// Adds the rules to the ruleset of that name. Error: NoRuleset.
    pub fn add_rules(&mut self, name: &Name, rules: &[RuleId]) -> Result<(), Refusal>
        ensures known { OnOk result (IsTrue (has_name self.old name.now)) }
        ensures added { OnOk result (self.new ≡ changed (λ set. with_rules set rules.now) self.old name.now) }
        ensures refused { IfErr result (λ e. (e ≡ Refusal.NoRuleset) × IsFalse (has_name self.old name.now)) }
        ensures unchanged { OnErr result (self.new ≡ self.old) }
    {
        self.change_members(name, MemberChange::Added, rules)
    }

    /// Takes the rules out of the ruleset of that name. Error: NoRuleset.
    pub fn del_rules(&mut self, name: &Name, rules: &[RuleId]) -> Result<(), Refusal>
        ensures known { OnOk result (IsTrue (has_name self.old name.now)) }
        ensures taken { OnOk result (self.new ≡ changed (λ set. without_rules set rules.now) self.old name.now) }
        ensures refused { IfErr result (λ e. (e ≡ Refusal.NoRuleset) × IsFalse (has_name self.old name.now)) }
        ensures unchanged { OnErr result (self.new ≡ self.old) }
    {
        self.change_members(name, MemberChange::Taken, rules)
    }

    /// Takes the rule out of every ruleset.
    pub fn drop_rule(&mut self, rule: RuleId)
        ensures { self.new ≡ without_rule self.old rule }
    {
        take_out(&mut self.sets, rule);
    }

    /// The rules of the ruleset of that name.
    pub fn members(&self, name: &Name) -> Option<RuleSet>
        ensures members { result ≡ members_of self.now name.now }
        ensures distinct { AreDistinct self.now }
    {
        self.sets.get(name).copied()
    }

    /// The number of rulesets.
    pub fn len(&self) -> usize
        ensures { result ≡ length self.now }
    {
        self.sets.len()
    }

    /// The name and the rules of the ruleset at that place in the order of creation.
    pub fn at(&self, place: usize) -> Option<(&Name, &RuleSet)>
        ensures { option_map deref_pair result ≡ option_map (λ s. (s.name, s.rules)) (slice_get self.now place) }
    {
        self.sets.get_index(place)
    }

    /// True if there is a ruleset of that name.
    pub fn has(&self, name: &Name) -> bool
        ensures { result ≡ has_name self.now name.now }
    {
        self.sets.contains_key(name)
    }
}

/// Takes the rule out of each set.
fn take_out(sets: &mut IndexMap<Name, RuleSet>, rule: RuleId)
    ensures { sets.new.entries ≡ map (λ e. (e.0, slice_set e.1 rule false)) sets.old.entries }
{
    for place in 0..sets.len() {
        sets[place] = sets[place].without(rule);
    }
}
