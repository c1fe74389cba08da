//! The index of all tenants.
ghost use Rattle.std.specs.Prelude.{◌≡◌, ◌<◌, ℕ, Bool, List, [], false, length, OnOk, OnErr};
ghost use Rattle.sb_value.specs.Flags.{flag_at};
ghost use Rattle.sb_index.specs.Operation.{Operation};
ghost use Rattle.sb_index.specs.Stands.{HasRules, stands, triggers_by, with_rule, without_rule};

use crate::tenant::TenantRules;
use sb_value::{Change, RuleId, RuleSet, TableId, TenantId, Triggers};
use std::alloc::{AllocError, Global};
use std::marker::Model;

/// The rules of all tenants by what triggers them. A tenant has a slot by its number, and tables in it once it has a rule.
pub struct RuleIndex {
    tenants: Vec<TenantRules>,
    alloc: Global,
}

impl Drop for RuleIndex {
    fn drop(self) {
        let Self {
            tenants: _,
            alloc: _,
        } = self;
    }
}

impl Model for RuleIndex {
    ghost use Rattle.std.specs.Prelude.{List};
    ghost use Rattle.sb_index.specs.TableSets.{TableSets};

    ghost Value = { List (List TableSets) };

    ghost view = { λ x. x.tenants.items };
}

impl RuleIndex {
    /// No rules.
    pub fn new(alloc: Global) -> RuleIndex
        ensures { (n t : ℕ) (o : Operation) (r : ℕ) → stands result n t o r ≡ false }
    {
        RuleIndex {
            tenants: Vec::new(alloc),
            alloc,
        }
    }

    /// Adds the tenant's rule on the table under each of its operations. Error: out of memory.
    pub fn add_rule(
        &mut self,
        tenant: TenantId,
        rule: RuleId,
        table: TableId,
        triggers: Triggers,
    ) -> Result<(), AllocError>
        ensures added { OnOk result (HasRules self.new (with_rule self.old tenant table rule triggers)) }
        ensures unchanged { OnErr result (HasRules self.new (stands self.old)) }
    {
        self.reserve(tenant)?;
        let rules = &mut self.tenants[tenant.index()];
        rules.add(rule, table, triggers)
    }

    /// Takes the tenant's rule away.
    pub fn drop_rule(&mut self, tenant: TenantId, rule: RuleId)
        ensures { HasRules self.new (without_rule self.old tenant rule) }
    {
        if tenant.index() < self.tenants.len() {
            let rules = &mut self.tenants[tenant.index()];
            rules.drop_rule(rule);
        }
    }

    /// The rules of the change's tenant that the change may trigger.
    pub fn candidates(&self, change: &Change) -> RuleSet
        ensures { (r : ℕ) → flag_at result r ≡ triggers_by self.now change.now r }
    {
        match self.tenants.get(change.tenant.index()) {
            Some(rules) => rules.candidates(change),
            None => RuleSet::empty(),
        }
    }

    /// Makes the tenant's slot.
    fn reserve(&mut self, tenant: TenantId) -> Result<(), AllocError>
        ensures room { OnOk result (tenant < length self.new) }
        ensures same { (n t : ℕ) (o : Operation) (r : ℕ) → stands self.new n t o r ≡ stands self.old n t o r }
    {
        while self.tenants.len() <= tenant.index() {
            self.tenants.push(TenantRules::new(self.alloc))?;
        }
        Ok(())
    }
}
