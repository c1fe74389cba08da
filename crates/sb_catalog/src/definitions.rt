//! The rules with their order, and the rulesets: what commands on them do, in step with the index.
ghost use Rattle.std.specs.Prelude.{◌≡◌, ℕ, List, [], true, false, None, Ok, Err, IsTrue, IsFalse, if◌then◌else◌, IfOk, OnSome, OnErr};
ghost use Rattle.sb_value.specs.Flags.{flag_at};
ghost use Rattle.sb_check.specs.Answer.{Answers};
ghost use Rattle.sb_check.specs.RuleParts.{walk_alteration, walk_parts};
ghost use Rattle.sb_check.specs.RulePartsView.{new_parts, rule_parts};
ghost use Rattle.sb_check.specs.Walk.{Schema};
ghost use Rattle.sb_catalog.specs.ClauseTexts.{AreClauses, AreNewClauses};
ghost use Rattle.sb_value.specs.declared.net.Triggers.{Triggers};
ghost use Rattle.sb_value.specs.declared.value.ColumnDefinition.{ColumnDefinition};
ghost use Rattle.sb_catalog.specs.Clauses.{AreClausesOf};
ghost use Rattle.sb_syntax.specs.Views.{alteration, rule};
ghost use Rattle.sb_catalog.specs.Sets.{has_name as has_ruleset};
ghost use Rattle.sb_priority.specs.Ranks.{pairs_of};
ghost use Rattle.sb_catalog.specs.Members.{changed_members};
ghost use Rattle.sb_catalog.specs.Definitions as spec;
ghost use Rattle.sb_catalog.specs.Definitions.{AltersInOrder, AreIndexed, AreOrdered, ChangesMembers, CreatesInOrder, Drops, GivesActiveMembers, GivesActiveRule, OtherTenantsStay, PushesInOrder, SetsActive, StayIndexed, members};
ghost use Rattle.sb_catalog.specs.Rules.{AreThere, free_rule, has_name, has_room, numbered, rule_named, is_active};

use crate::catalog::Catalog;
use crate::members::MemberChange;
use crate::rule::{ReadAlteration, ReadRule};
use crate::rulesets::Rulesets;
use sb_index::RuleIndex;
use sb_priority::Priorities;
use sb_syntax::{AlterationText, RuleText};
use sb_value::{Name, Refusal, RuleId, RuleSet, TenantId};
use std::alloc::Global;

/// All rules of a tenant, their order and its rulesets.
pub struct Definitions {
    pub rules: Catalog,
    pub order: Priorities,
    pub rulesets: Rulesets,
}

impl Drop for Definitions {
    fn drop(self) {
        let Self {
            rules: _,
            order: _,
            rulesets: _,
        } = self;
    }
}

impl Definitions {
    /// No rules and no rulesets.
    pub fn new(alloc: Global) -> Definitions
        ensures rules { result.rules ≡ [] }
        ensures order { AreOrdered result.order [] [] }
        ensures rulesets { result.rulesets ≡ [] }
    {
        Definitions {
            rules: Catalog::new(alloc),
            order: Priorities::new(alloc),
            rulesets: Rulesets::new(alloc),
        }
    }

    /// Adds an active rule of these parts and clauses, with the name and the pairs of its text. Room in the index is
    /// had before the rules change. Error: NoRule where a name of `precedes` or `follows` is none, TooManyRules, Cycle
    /// or NoMemory; nothing changes.
    pub fn create_rule(
        &mut self,
        alloc: Global,
        index: &mut RuleIndex,
        tenant: TenantId,
        text: &RuleText,
        read: ReadRule,
    ) -> Result<(), Refusal>
        requires written { AreClauses read.clauses (rule text.now) }
        requires resolved { (schema : Schema) × (walk_parts schema (rule text.now) ≡ Ok (rule_parts read.parts)) }
        requires new_name { IsFalse (has_name self.old.rules text.now.name) }
        requires ordered { (pairs : List (ℕ × ℕ)) × AreOrdered self.old.order self.old.rules pairs }
        ensures created { CreatesInOrder self.old self.new (rule text.now) (rule_parts read.parts) result }
        ensures indexed { AreIndexed index.old tenant self.old.rules → AreIndexed index.new tenant self.new.rules }
        ensures others { OtherTenantsStay tenant index.old index.new }
    {
        let ReadRule { parts, clauses } = read;
        let before = self.numbers(alloc, text.precedes.as_slice())?;
        let after = self.numbers(alloc, text.follows.as_slice())?;
        if !self.rules.has_room() {
            drop(parts);
            return Err(Refusal::TooManyRules);
        }
        let rule = self.rules.free_rule();
        let Ok(()) = index.add_rule(tenant, rule, parts.table, parts.triggers) else {
            drop(parts);
            return Err(Refusal::NoMemory);
        };
        let read = ReadRule { parts, clauses };
        match self.push_rule(rule, text.name, read, before.as_slice(), after.as_slice()) {
            Ok(()) => Ok(()),
            Err(refusal) => {
                index.drop_rule(tenant, rule);
                Err(refusal)
            }
        }
    }

    /// Puts a new rule behind the others, unless its pairs close a cycle. Room in the order is had last: what follows
    /// takes no memory.
    fn push_rule(
        &mut self,
        rule: RuleId,
        name: Name,
        read: ReadRule,
        before: &[RuleId],
        after: &[RuleId],
    ) -> Result<(), Refusal>
        requires written { AreClausesOf read.clauses (rule_parts read.parts) }
        requires number { rule ≡ free_rule self.old.rules }
        requires free { numbered self.old.rules rule ≡ None }
        requires new_name { IsFalse (has_name self.old.rules name) }
        requires room { IsTrue (has_room self.old.rules) }
        requires ordered { (pairs : List (ℕ × ℕ)) × AreOrdered self.old.order self.old.rules pairs }
        requires others { AreThere self.old.rules before.now }
        ensures { PushesInOrder self.old self.new name (rule_parts read.parts) (pairs_of rule before.now after.now) result }
    {
        if self.order.closes_cycle(rule, before, after) {
            drop(read);
            return Err(Refusal::Cycle);
        }
        match self.rules.create(name, read) {
            Ok(_) => match self.order.reserve(rule) {
                Ok(()) => {
                    // Its pairs close no cycle, so it is added.
                    let _ = self.order.add(rule, before, after);
                    Ok(())
                }
                Err(_) => {
                    let _ = self.rules.drop_rule(&name);
                    Err(Refusal::NoMemory)
                }
            },
            Err(refusal) => Err(refusal),
        }
    }

    /// Gives a rule new parts with their clauses, and new pairs. Everything that can be refused is looked at before
    /// anything changes.
    pub fn alter_rule(
        &mut self,
        alloc: Global,
        rule: RuleId,
        text: &AlterationText,
        read: ReadAlteration,
    ) -> Result<(), Refusal>
        requires written { AreNewClauses read.clauses (alteration text.now) }
        requires resolved { (schema : Schema) × (columns : List ColumnDefinition) × (triggers : Triggers)
            × (walk_alteration schema columns triggers (alteration text.now) ≡ Ok (new_parts read.parts)) }
        requires named { rule_named self.old.rules text.now.name ≡ Ok rule }
        requires ordered { (pairs : List (ℕ × ℕ)) × AreOrdered self.old.order self.old.rules pairs }
        ensures altered { AltersInOrder self.old self.new rule (alteration text.now) (new_parts read.parts) result }
        ensures indexed { StayIndexed self.old.rules self.new.rules }
    {
        let before = self.numbers(alloc, text.precedes.as_slice())?;
        let after = self.numbers(alloc, text.follows.as_slice())?;
        let apart = self.numbers(alloc, text.nopriority.as_slice())?;
        match self.order.alter(rule, before.as_slice(), after.as_slice(), apart.as_slice()) {
            Ok(()) => {
                let _ = self.rules.alter(&text.name, read);
                Ok(())
            }
            Err(_) => {
                drop(read);
                Err(Refusal::Cycle)
            }
        }
    }

    /// The numbers of rules by their names.
    fn numbers(&self, alloc: Global, names: &[Name]) -> Result<Vec<RuleId>, Refusal>
        ensures { Answers (λ ids. ids.items) (spec.rules_named self.now.rules names.now) result }
    {
        let mut numbers = Vec::new(alloc);
        for name in names {
            let Some(rule) = self.rules.find(name) else {
                return Err(Refusal::NoRule);
            };
            if numbers.push(rule.id).is_err() {
                return Err(Refusal::NoMemory);
            }
        }
        Ok(numbers)
    }

    /// Drops the rule of that name, and gives its number. Error: NoRule.
    pub fn drop_rule(
        &mut self,
        index: &mut RuleIndex,
        tenant: TenantId,
        name: &Name,
    ) -> Result<RuleId, Refusal>
        ensures found { result ≡ rule_named self.old.rules name.now }
        ensures dropped { IfOk result (λ id. Drops self.old self.new id) }
        ensures indexed { AreIndexed index.old tenant self.old.rules → AreIndexed index.new tenant self.new.rules }
        ensures others { OtherTenantsStay tenant index.old index.new }
        ensures unchanged { OnErr result (self.new ≡ self.old) }
    {
        match self.rules.drop_rule(name) {
            Ok(rule) => {
                self.order.drop_rule(rule);
                self.rulesets.drop_rule(rule);
                index.drop_rule(tenant, rule);
                Ok(rule)
            }
            Err(refusal) => Err(refusal),
        }
    }

    /// Makes the rule of that name active, and gives its number. Room in the index is had before the rule changes.
    /// Error: NoRule, or NoMemory in the index.
    pub fn activate(
        &mut self,
        index: &mut RuleIndex,
        tenant: TenantId,
        name: &Name,
    ) -> Result<RuleId, Refusal>
        ensures found { Answers (λ id. id) (rule_named self.old.rules name.now) result }
        ensures active { IfOk result (λ id. SetsActive self.old self.new id true) }
        ensures indexed { AreIndexed index.old tenant self.old.rules → AreIndexed index.new tenant self.new.rules }
        ensures others { OtherTenantsStay tenant index.old index.new }
        ensures unchanged { OnErr result (self.new ≡ self.old) }
    {
        // for the proof: no other rule has its number
        let _ = self.rules.rules();
        let Some(rule) = self.rules.find(name) else {
            return Err(Refusal::NoRule);
        };
        match index.add_rule(tenant, rule.id, rule.table, rule.triggers) {
            Ok(()) => self.rules.activate(name),
            Err(_) => Err(Refusal::NoMemory),
        }
    }

    /// Makes the rule of that name inactive, and gives its number. Error: NoRule.
    pub fn deactivate(
        &mut self,
        index: &mut RuleIndex,
        tenant: TenantId,
        name: &Name,
    ) -> Result<RuleId, Refusal>
        ensures found { result ≡ rule_named self.old.rules name.now }
        ensures inactive { IfOk result (λ id. SetsActive self.old self.new id false) }
        ensures indexed { AreIndexed index.old tenant self.old.rules → AreIndexed index.new tenant self.new.rules }
        ensures others { OtherTenantsStay tenant index.old index.new }
        ensures unchanged { OnErr result (self.new ≡ self.old) }
    {
        match self.rules.deactivate(name) {
            Ok(rule) => {
                index.drop_rule(tenant, rule);
                Ok(rule)
            }
            Err(refusal) => Err(refusal),
        }
    }

    /// Puts the rules of these names into the ruleset, or takes them out of it. Error: NoRuleset, NoRule or NoMemory;
    /// nothing changes.
    pub fn change_members(
        &mut self,
        alloc: Global,
        set: &Name,
        change: MemberChange,
        names: &[Name],
    ) -> Result<(), Refusal>
        ensures { ChangesMembers (changed_members change) self.old self.new set.now
            (members self.old set.now names.now) result }
    {
        match self.numbers(alloc, names) {
            Ok(rules) => self.rulesets.change_members(set, change, rules.as_slice()),
            Err(refusal) => Err(self.refusal_beside(set, refusal)),
        }
    }

    /// Why rules are refused beside a ruleset, where they are refused for this by themselves. The ruleset comes first.
    fn refusal_beside(&self, set: &Name, refusal: Refusal) -> Refusal
        ensures { result ≡ (if has_ruleset self.now.rulesets set.now then refusal else Refusal.NoRuleset) }
    {
        if self.rulesets.has(set) {
            refusal
        } else {
            Refusal::NoRuleset
        }
    }

    /// The active rules.
    pub fn active(&self) -> RuleSet
        ensures { (id : ℕ) → flag_at result id ≡ is_active self.now.rules id }
    {
        self.rules.active()
    }

    /// The active rules of a ruleset.
    pub fn active_members(&self, set: &Name) -> Option<RuleSet>
        ensures known { OnSome result (IsTrue (has_ruleset self.now.rulesets set.now)) }
        ensures members { GivesActiveMembers self.now set.now result }
    {
        match self.rulesets.members(set) {
            Some(members) => Some(self.active().intersection(members)),
            None => None,
        }
    }

    /// The rule of that name alone, if it is active.
    pub fn active_rule(&self, name: &Name) -> Option<RuleSet>
        ensures { GivesActiveRule self.now name.now result }
    {
        match self.rules.find(name) {
            Some(rule) => Some(RuleSet::empty().with(rule.id).intersection(self.active())),
            None => None,
        }
    }
}
