//! All rules of a tenant.
ghost use Rattle.std.specs.Prelude.{◌≡◌, ℕ, ◌==◌, if◌then◌else◌, [], ◌∷◌, ◌++◌, IsTrue, IsFalse, unwrap_or, true, false, OnOk, IfOk, IfErr, OnErr};
ghost use Rattle.std.specs.Option.{option_copied};
ghost use Rattle.sb_value.specs.Flags.{flag_at};
ghost use Rattle.sb_check.specs.RulePartsView.{new_parts, rule_parts};
ghost use Rattle.sb_catalog.specs.Rules as spec;
ghost use Rattle.sb_catalog.specs.Rules.{AreNumbered, named, numbered, rule_named, create_refusal, created, without_rule, with_active, with_parts, is_active};
ghost use Rattle.sb_catalog.specs.Uses.{is_used};
ghost use Rattle.sb_catalog.specs.Clauses.{AreClausesOf, AreNewClausesOf, HaveClauses, parts_of};

use crate::clauses::RuleClauses;
use crate::mentions::rule_names;
use crate::places::Places;
use crate::rule::{ReadAlteration, ReadRule, Rule, rule_of_parts};
use indexmap::IndexMap;
use sb_value::{Name, RULE_LIMIT, Refusal, RuleId, RuleSet, TableId};
use std::alloc::Global;
use std::marker::Model;

/// The rules in order of creation, found by name or by number in constant time.
pub struct Catalog {
    rules: IndexMap<Name, Rule>,
    places: Places,
    active: RuleSet,
    /// Those of each rule, in the order of the rules.
    clauses: Vec<RuleClauses>,
    /// The number of bytes of both texts.
    clause_bytes: u64,
}

impl Drop for Catalog {
    fn drop(self) {
        let Self {
            rules: _,
            places: _,
            active: _,
            clauses: _,
            clause_bytes: _,
        } = self;
    }
}

impl Model for Catalog {
    ghost use Rattle.std.specs.Prelude.{List};
    ghost use Rattle.std.specs.Coded.{coded_list};
    ghost use Rattle.std.specs.Map.{values_of};
    ghost use Rattle.sb_catalog.specs.contracts.rule.Rule as rule;
    ghost use Rattle.sb_catalog.specs.declared.rule.Rule.{Rule};
    ghost use Rattle.sb_catalog.specs.Places.{AreKept};

    ghost Value = { List Rule };

    ghost coded = { coded_list rule.the_row.coded };

    ghost view = { λ c. values_of c.rules.entries };

    ghost invariant = { λ c. AreKept c.rules.entries c.places c.active c.clauses.items };
}

impl Catalog {
    /// No rules.
    pub fn new(alloc: Global) -> Catalog
        ensures { result ≡ [] }
    {
        Catalog {
            rules: IndexMap::new(alloc),
            places: Places::new(),
            active: RuleSet::empty(),
            clauses: Vec::new(alloc),
            clause_bytes: 0,
        }
    }

    /// Adds an active rule with its clauses, and gives its number. Error: RuleExists, TooManyRules or NoMemory.
    pub fn create(&mut self, name: Name, read: ReadRule) -> Result<RuleId, Refusal>
        requires written { AreClausesOf read.clauses (rule_parts read.parts) }
        ensures added { OnOk result (self.new ≡ created self.old name (rule_parts read.parts)) }
        ensures number { IfOk result (λ id. id ≡ spec.free_rule self.old) }
        ensures allowed { OnOk result (create_refusal self.old name ≡ None) }
        ensures refused { IfErr result (λ e. e ≡ unwrap_or (create_refusal self.old name) Refusal.NoMemory) }
        ensures unchanged { OnErr result (self.new ≡ self.old) }
    {
        match self.check_new(&name) {
            Ok(()) => {
                let rule = rule_of_parts(self.free_rule(), name, read.parts);
                self.push(rule, read.clauses)
            }
            Err(refusal) => {
                drop(read);
                Err(refusal)
            }
        }
    }

    /// Refuses a name that a rule has, and a rule too many.
    fn check_new(&self, name: &Name) -> Result<(), Refusal>
        ensures allowed { OnOk result (create_refusal self.now name.now ≡ None) }
        ensures refused { IfErr result (λ e. create_refusal self.now name.now ≡ Some e) }
    {
        if self.has(name) {
            return Err(Refusal::RuleExists);
        }
        if !self.has_room() {
            return Err(Refusal::TooManyRules);
        }
        Ok(())
    }

    /// True if there is a rule of that name.
    pub fn has(&self, name: &Name) -> bool
        ensures { result ≡ spec.has_name self.now name.now }
    {
        self.rules.contains_key(name)
    }

    /// Puts a rule of a new name and a new number behind the others, with its clauses. Room for these is had first.
    fn push(&mut self, rule: Rule, clauses: RuleClauses) -> Result<RuleId, Refusal>
        requires written { AreClausesOf clauses (parts_of rule) }
        requires new_name { IsFalse (spec.has_name self.old rule.name) }
        requires new_number { numbered self.old rule.id ≡ None }
        requires room { IsTrue (spec.has_room self.old) }
        ensures last { OnOk result (self.new ≡ self.old ++ rule ∷ []) }
        ensures number { IfOk result (λ id. id ≡ rule.id) }
        ensures no_memory { IfErr result (λ e. e ≡ Refusal.NoMemory) }
        ensures unchanged { OnErr result (self.new ≡ self.old) }
    {
        if self.clauses.reserve(1).is_err() {
            drop(rule);
            drop(clauses);
            return Err(Refusal::NoMemory);
        }
        let id = rule.id;
        let active = rule.active;
        let place = self.rules.len();
        match self.rules.insert(rule.name, rule) {
            Ok(replaced) => {
                drop(replaced);
                self.places.note(id, place);
                self.active = with_flag(self.active, id, active);
                self.clause_bytes = self.clause_bytes.saturating_add(clauses.len() as u64);
                self.clauses.push_reserved(clauses);
                Ok(id)
            }
            Err(failed) => {
                drop(failed);
                drop(clauses);
                Err(Refusal::NoMemory)
            }
        }
    }

    /// Drops the rule of that name, and gives its number. Error: NoRule.
    pub fn drop_rule(&mut self, name: &Name) -> Result<RuleId, Refusal>
        ensures found { result ≡ rule_named self.old name.now }
        ensures dropped { IfOk result (λ id. self.new ≡ without_rule self.old id) }
        ensures unchanged { OnErr result (self.new ≡ self.old) }
    {
        let Some(place) = self.rules.get_index_of(name) else {
            return Err(Refusal::NoRule);
        };
        let (_, rule) = self.rules.shift_remove_index(place).unwrap();
        self.places.close(place);
        let id = rule.id;
        self.active = self.active.without(id);
        drop(rule);
        let clauses = self.clauses.remove(place);
        self.clause_bytes = self.clause_bytes.saturating_sub(clauses.len() as u64);
        drop(clauses);
        Ok(id)
    }

    /// Makes the rule of that name active, and gives its number. Error: NoRule, or NoMemory in the index.
    pub fn activate(&mut self, name: &Name) -> Result<RuleId, Refusal>
        ensures found { result ≡ rule_named self.old name.now }
        ensures active { IfOk result (λ id. self.new ≡ with_active self.old id true) }
        ensures unchanged { OnErr result (self.new ≡ self.old) }
    {
        self.set_active(name, true)
    }

    /// Makes the rule of that name inactive, and gives its number. Error: NoRule.
    pub fn deactivate(&mut self, name: &Name) -> Result<RuleId, Refusal>
        ensures found { result ≡ rule_named self.old name.now }
        ensures inactive { IfOk result (λ id. self.new ≡ with_active self.old id false) }
        ensures unchanged { OnErr result (self.new ≡ self.old) }
    {
        self.set_active(name, false)
    }

    fn set_active(&mut self, name: &Name, active: bool) -> Result<RuleId, Refusal>
        ensures found { result ≡ rule_named self.old name.now }
        ensures set { IfOk result (λ id. self.new ≡ with_active self.old id active) }
        ensures unchanged { OnErr result (self.new ≡ self.old) }
    {
        match self.rules.get_mut(name) {
            Some(rule) => {
                rule.active = active;
                let id = rule.id;
                self.active = with_flag(self.active, id, active);
                Ok(id)
            }
            None => Err(Refusal::NoRule),
        }
    }

    /// Gives the rule of that name new parts with their clauses, as far as they are written, and gives its number.
    /// Error: NoRule.
    pub fn alter(&mut self, name: &Name, read: ReadAlteration) -> Result<RuleId, Refusal>
        requires written { AreNewClausesOf read.clauses (new_parts read.parts) }
        ensures found { result ≡ rule_named self.old name.now }
        ensures altered { IfOk result (λ id. self.new ≡ with_parts self.old id (new_parts read.parts)) }
        ensures unchanged { OnErr result (self.new ≡ self.old) }
    {
        let Some(rule) = self.rules.get_mut(name) else {
            drop(read);
            return Err(Refusal::NoRule);
        };
        let id = rule.id;
        rule.alter(read.parts);
        let clauses = &mut self.clauses[self.places.get(id)];
        let before = clauses.len() as u64;
        clauses.alter(read.clauses);
        let bytes = self.clause_bytes.saturating_add(clauses.len() as u64);
        self.clause_bytes = bytes.saturating_sub(before);
        Ok(id)
    }

    /// The rule of that name.
    pub fn find(&self, name: &Name) -> Option<&Rule>
        ensures { option_copied result ≡ named self.now name.now }
    {
        self.rules.get(name)
    }

    /// The rule of that number.
    pub fn rule(&self, id: RuleId) -> Option<&Rule>
        ensures { option_copied result ≡ numbered self.now id }
    {
        let rule = self.rules().get(self.places.get(id))?;
        if rule.id == id { Some(rule) } else { None }
    }

    /// The rules, the earliest created first.
    pub fn rules(&self) -> &[Rule]
        ensures value { result.now ≡ self.now }
        ensures numbered { AreNumbered self.now }
    {
        self.rules.values().as_slice()
    }

    /// The clauses of the rules, in the order of the rules.
    pub fn clauses(&self) -> &[RuleClauses]
        ensures { HaveClauses self.now result.now }
    {
        self.clauses.as_slice()
    }

    /// The number of bytes of the clauses. It is an estimate: only a tenant's limit of memory rests on it.
    pub fn clause_bytes(&self) -> u64 {
        self.clause_bytes
    }

    /// The active rules.
    pub fn active(&self) -> RuleSet
        ensures { (id : ℕ) → flag_at result id ≡ is_active self.now id }
    {
        self.active
    }

    /// True if one more rule may be made.
    pub fn has_room(&self) -> bool
        ensures { result ≡ spec.has_room self.now }
    {
        self.rules.len() < RULE_LIMIT
    }

    /// The least number that no rule has.
    pub fn free_rule(&self) -> RuleId
        requires { IsTrue (spec.has_room self.now) }
        ensures least { result ≡ spec.free_rule self.now }
        ensures free { numbered self.now result ≡ None }
    {
        let mut number = 0;
        while number < RULE_LIMIT - 1 && self.rule(RuleId::new(number as u8)).is_some() {
            number += 1;
        }
        RuleId::new(number as u8)
    }

    /// True if a rule, active or not, is on the table or names it.
    pub fn uses(&self, table: TableId) -> bool
        ensures { result ≡ is_used self.now table }
    {
        self.rules().iter().any(|rule| rule_names(table, rule))
    }
}

/// The set with the rule where it is to be in it, and without it where it isn't.
fn with_flag(set: RuleSet, rule: RuleId, is_in: bool) -> RuleSet
    ensures { (id : ℕ) → flag_at result id ≡ (if id == rule then is_in else flag_at set id) }
{
    if is_in {
        set.with(rule)
    } else {
        set.without(rule)
    }
}
