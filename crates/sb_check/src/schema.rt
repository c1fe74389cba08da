//! The names that a command may use: the tables, and in a rule its table's columns and its triggers.
ghost use Rattle.std.specs.Prelude.{◌≡◌, option_map};
ghost use Rattle.sb_check.specs.Lent.{NumbersTellColumns, rule_lent, seen_named, table_lent};
ghost use Rattle.sb_check.specs.Walk.{Schema as Names};

use sb_value::{ColumnDefinition, Name, TableId, Triggers};

/// A table, as commands see it.
#[derive(Drop)]
pub struct TableEntry<'a> {
    pub id: TableId,
    pub name: Name,
    pub columns: &'a [ColumnDefinition],
}

/// A rule's triggers, and the columns of its table.
#[derive(Drop)]
pub struct RuleEntry<'a> {
    pub columns: &'a [ColumnDefinition],
    pub triggers: Triggers,
}

/// The names that a command may use.
pub trait Schema {
    /// The tables with their names, and in a rule its table's columns and its triggers.
    ghost names: { Self → Names };

    /// The table of that name.
    fn table(&self, name: &Name) -> Option<TableEntry<'_>>
        ensures { option_map table_lent result ≡ seen_named (names self.now).tables name.now };

    /// The rule that the command is part of.
    fn rule(&self) -> Option<RuleEntry<'_>>
        ensures { option_map rule_lent result ≡ (names self.now).rule };

    /// A table's number tells its columns, whatever name it was found by.
    fn tells_columns(&self)
        ensures { NumbersTellColumns (names self.now).tables };
}

/// The names that a rule's condition and actions may use.
#[derive(Drop)]
pub struct InRule<'a, S> {
    pub outside: &'a S,
    pub columns: &'a [ColumnDefinition],
    pub triggers: Triggers,
}

impl<'a, S: Schema> Schema for InRule<'a, S> {
    ghost use Rattle.std.specs.Prelude.{Some};

    ghost names = { λ s. record { tables = (S.names s.outside.now).tables; rule = Some (s.columns.now, s.triggers) } };

    fn table(&self, name: &Name) -> Option<TableEntry<'_>> {
        self.outside.table(name)
    }

    fn rule(&self) -> Option<RuleEntry<'_>> {
        Some(RuleEntry {
            columns: self.columns,
            triggers: self.triggers,
        })
    }

    fn tells_columns(&self) {
        self.outside.tells_columns();
    }
}
