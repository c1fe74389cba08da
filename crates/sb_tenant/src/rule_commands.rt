//! The commands that define rules.
ghost use Rattle.std.specs.Prelude.{◌≡◌, ◌≤◌, List, [], Some, length, unwrap_or};
ghost use Rattle.sb_index.specs.TableSets.{TableSets};
ghost use Rattle.sb_syntax.specs.Text.{command_of};
ghost use Rattle.sb_syntax.specs.Tree as text;
ghost use Rattle.sb_syntax.specs.Views.{alteration as alteration_text, rule as rule_text};
ghost use Rattle.sb_tenant.specs.Defining.{DefinesAlone, Defines, IsAtRest, Stands};

use crate::names::{Names, columns_of};
use crate::store::Store;
use sb_catalog::{ReadAlteration, ReadRule, new_clauses, rule_clauses};
use sb_check::{RuleEntry, resolve_alteration, resolve_rule, resolved_tables_are_there};
use sb_index::RuleIndex;
use sb_syntax::{AlterationText, RuleText};
use sb_tables::Tables;
use sb_value::{ColumnDefinition, Name, Refusal, TableId};
use std::alloc::Global;

impl Store {
    /// Adds the active rule that the line makes, the last.
    pub(crate) fn create_rule(
        &mut self,
        alloc: Global,
        index: &mut RuleIndex,
        rule: &RuleText,
        line: &[u8],
    ) -> Result<(), Refusal>
        requires rest { IsAtRest self.old.phases }
        requires stand { Stands self.old index.old }
        requires few { length rule.now.actions.items ≤ 8 }
        requires spelled { command_of line.now ≡ Some (text.create_rule (rule_text rule.now)) }
        ensures { Defines self.old self.new index.old index.new (text.create_rule (rule_text rule.now)) result }
    {
        if self.definitions.rules.has(&rule.name) {
            return Err(Refusal::RuleExists);
        }
        // for the proof: the tables that the rule names are there
        resolved_tables_are_there();
        let names = Names {
            tables: &self.database.tables,
        };
        let parts = match resolve_rule(alloc, rule, &names) {
            Ok(parts) => parts,
            Err(refusal) => return Err(refusal),
        };
        let Ok(clauses) = rule_clauses(alloc, line) else {
            return Err(Refusal::NoMemory);
        };
        let read = ReadRule { parts, clauses };
        self.definitions
            .create_rule(alloc, index, self.database.id, rule, read)
    }

    /// Gives a rule the new parts and new pairs that the line writes; it keeps its place.
    pub(crate) fn alter_rule(
        &mut self,
        alloc: Global,
        rule: &AlterationText,
        line: &[u8],
    ) -> Result<(), Refusal>
        requires rest { IsAtRest self.old.phases }
        requires stand { (index : List (List TableSets)) × Stands self.old index }
        requires few { length (unwrap_or (alteration_text rule.now).actions []) ≤ 8 }
        requires spelled { command_of line.now ≡ Some (text.alter_rule (alteration_text rule.now)) }
        ensures { DefinesAlone self.old self.new (text.alter_rule (alteration_text rule.now)) result }
    {
        let Some(found) = self.definitions.rules.find(&rule.name) else {
            return Err(Refusal::NoRule);
        };
        // for the proof: the tables that the rule names are there
        resolved_tables_are_there();
        let names = Names {
            tables: &self.database.tables,
        };
        let entry = RuleEntry {
            columns: columns_of(names.tables, found.table),
            triggers: found.triggers,
        };
        let id = found.id;
        let parts = match resolve_alteration(alloc, rule, &entry, &names) {
            Ok(parts) => parts,
            Err(refusal) => return Err(refusal),
        };
        let Ok(clauses) = new_clauses(alloc, line) else {
            return Err(Refusal::NoMemory);
        };
        self.definitions
            .alter_rule(alloc, id, rule, ReadAlteration { parts, clauses })
    }

    /// Drops a rule with its pairs and its memberships.
    pub(crate) fn drop_rule(&mut self, index: &mut RuleIndex, name: &Name) -> Result<(), Refusal>
        requires { IsAtRest self.old.phases }
        ensures { Defines self.old self.new index.old index.new (text.drop_rule name.now) result }
    {
        match self.definitions.drop_rule(index, self.database.id, name) {
            Ok(_) => Ok(()),
            Err(refusal) => Err(refusal),
        }
    }

    /// Makes a rule active.
    pub(crate) fn activate_rule(
        &mut self,
        index: &mut RuleIndex,
        name: &Name,
    ) -> Result<(), Refusal>
        requires { IsAtRest self.old.phases }
        ensures { Defines self.old self.new index.old index.new (text.activate_rule name.now) result }
    {
        match self.definitions.activate(index, self.database.id, name) {
            Ok(_) => Ok(()),
            Err(refusal) => Err(refusal),
        }
    }

    /// Makes a rule inactive.
    pub(crate) fn deactivate_rule(
        &mut self,
        index: &mut RuleIndex,
        name: &Name,
    ) -> Result<(), Refusal>
        requires { IsAtRest self.old.phases }
        ensures { Defines self.old self.new index.old index.new (text.deactivate_rule name.now) result }
    {
        match self.definitions.deactivate(index, self.database.id, name) {
            Ok(_) => Ok(()),
            Err(refusal) => Err(refusal),
        }
    }
}
