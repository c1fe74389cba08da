//! The rules of one tenant, by table.
ghost use Rattle.std.specs.Prelude.{◌≡◌, ◌<◌, ℕ, Bool, List, [], not, ◌&&◌, ◌||◌, ◌==◌, length, slice_index_or, OnOk, OnErr};
ghost use Rattle.sb_value.specs.Flags.{flag_at};
ghost use Rattle.sb_index.specs.Operation.{Operation};
ghost use Rattle.sb_index.specs.Stands.{HaveRules, in_tenant, triggers_here, with_tenant_rule, without_tenant_rule};

use crate::table::TableRules;
use sb_value::{Change, RuleId, RuleSet, TableId, Triggers};
use std::alloc::{AllocError, Global};
use std::marker::Model;

/// The rules of a tenant's tables, up to the last table that ever had one.
pub struct TenantRules {
    tables: Vec<TableRules>,
}

impl Drop for TenantRules {
    fn drop(self) {
        let Self { tables: _ } = self;
    }
}

impl Model for TenantRules {
    ghost use Rattle.std.specs.Prelude.{List};
    ghost use Rattle.sb_index.specs.TableSets.{TableSets};

    ghost Value = { List TableSets };

    ghost view = { λ t. t.tables.items };
}

impl TenantRules {
    /// No rules.
    pub fn new(alloc: Global) -> TenantRules
        ensures { result ≡ [] }
    {
        TenantRules {
            tables: Vec::new(alloc),
        }
    }

    /// Adds the rule under each of its operations on the table. Error: out of memory.
    pub fn add(
        &mut self,
        rule: RuleId,
        table: TableId,
        triggers: Triggers,
    ) -> Result<(), AllocError>
        ensures added { OnOk result (HaveRules self.new (with_tenant_rule self.old table rule triggers)) }
        ensures unchanged { OnErr result (HaveRules self.new (in_tenant self.old)) }
    {
        self.reserve(table)?;
        let rules = &mut self.tables[table.index()];
        rules.add(rule, triggers);
        Ok(())
    }

    /// Takes the rule from all tables.
    pub fn drop_rule(&mut self, rule: RuleId)
        ensures { HaveRules self.new (without_tenant_rule self.old rule) }
    {
        for table in self.tables.iter_mut() {
            table.drop_rule(rule);
        }
    }

    /// The rules that the change may trigger.
    pub fn candidates(&self, change: &Change) -> RuleSet
        ensures { (r : ℕ) → flag_at result r ≡ triggers_here self.now change.now r }
    {
        match self.tables.get(change.table.index()) {
            Some(table) => table.candidates(change),
            None => RuleSet::empty(),
        }
    }

    /// Makes the table's place.
    fn reserve(&mut self, table: TableId) -> Result<(), AllocError>
        ensures room { OnOk result (table < length self.new) }
        ensures same { (t : ℕ) (o : Operation) (r : ℕ) → in_tenant self.new t o r ≡ in_tenant self.old t o r }
    {
        while self.tables.len() <= table.index() {
            self.tables.push(TableRules::none())?;
        }
        Ok(())
    }
}
