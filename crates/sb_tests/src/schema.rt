//! A tenant with one table, and what its commands name.
ghost use Rattle.std.specs.Prelude.{◌≡◌, ◌∷◌, [], None};
ghost use Rattle.sb_catalog.specs.Clauses.{AreClausesOf};
ghost use Rattle.sb_check.specs.RulePartsView.{rule_parts};
ghost use Rattle.sb_value.specs.Table.{empty_table};

use crate::tables::columns;
use sb_catalog::{ReadRule, rule_clauses};
use sb_check::{RuleEntry, Schema, TableEntry, resolve_rule};
use sb_syntax::{Command, Definition, parse};
use sb_value::{ColumnDefinition, Name, TableId};
use std::alloc::Global;
use std::process::Abort;

/// The only table, `t`, with a column `a` of integers.
#[derive(Drop)]
struct OneTable {
    name: Name,
    columns: Vec<ColumnDefinition>,
}

impl Schema for OneTable {
    ghost names = { λ s.
        record { tables = record { id = 0; name = s.name; table = empty_table s.columns.items } ∷ []; rule = None } };

    fn table(&self, name: &Name) -> Option<TableEntry<'_>> {
        if self.name.is_same(name) {
            Some(TableEntry {
                id: TableId::new(0),
                name: self.name,
                columns: self.columns.as_slice(),
            })
        } else {
            None
        }
    }

    fn rule(&self) -> Option<RuleEntry<'_>> {
        None
    }

    fn tells_columns(&self) {}
}

/// A rule on the table, as it is read: its parts and its clauses.
pub fn read_rule(rt: &impl Abort, alloc: Global) -> ReadRule
    ensures { AreClausesOf result.clauses (rule_parts result.parts) }
{
    let schema = OneTable {
        name: Name::new(b"t"),
        columns: columns(rt, alloc),
    };
    let line = b"create rule r on t when inserted then delete from t";
    let Ok(Command::Definition(Definition::CreateRule(rule))) = parse(alloc, line) else {
        rt.panic("no rule")
    };
    let Ok(parts) = resolve_rule(alloc, &rule, &schema) else {
        rt.panic("no parts")
    };
    let Ok(clauses) = rule_clauses(alloc, line) else {
        rt.panic("no clauses")
    };
    ReadRule { parts, clauses }
}
