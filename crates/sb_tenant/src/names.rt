//! The tables of a tenant as the walk of a command looks them up.
ghost use Rattle.std.specs.Prelude.{◌≡◌};
ghost use Rattle.sb_tables.specs.Held.{entries};
ghost use Rattle.sb_value.specs.Table.{table_at};

use sb_check::{RuleEntry, Schema, TableEntry};
use sb_tables::Tables;
use sb_value::{ColumnDefinition, Name, TableId};

/// The tables by their names, outside of rules.
#[derive(Drop)]
pub(crate) struct Names<'a> {
    pub(crate) tables: &'a Tables,
}

impl<'a> Schema for Names<'a> {
    ghost use Rattle.std.specs.Prelude.{None};

    ghost names = { λ n. record { tables = entries n.tables.now; rule = None } };

    fn table(&self, name: &Name) -> Option<TableEntry<'_>> {
        // for the proof: a number tells the columns that its name tells
        self.tables.names_agree();
        match self.tables.find(name) {
            Some(id) => Some(TableEntry {
                id,
                name: *name,
                columns: columns_of(self.tables, id),
            }),
            None => None,
        }
    }

    fn rule(&self) -> Option<RuleEntry<'_>> {
        None
    }

    fn tells_columns(&self) {
        self.tables.names_agree();
    }
}

/// The columns of the table of that number.
pub(crate) fn columns_of(tables: &Tables, id: TableId) -> &[ColumnDefinition]
    ensures { result.now ≡ (table_at (entries tables.now) id).columns }
{
    match tables.get(id) {
        Some(table) => table.columns(),
        None => &[],
    }
}
