//! The commands that define tables.
ghost use Rattle.sb_syntax.specs.Tree as text;
ghost use Rattle.sb_tenant.specs.Defining.{DefinesAlone, IsAtRest};

use crate::names::Names;
use crate::store::Store;
use sb_catalog::least_free_is_least;
use sb_check::resolve_new_table;
use sb_value::{ColumnDefinition, Name, Refusal, TABLE_LIMIT};

impl Store {
    /// Adds an empty table, the last.
    pub(crate) fn create_table(
        &mut self,
        name: Name,
        columns: Vec<ColumnDefinition>,
    ) -> Result<(), Refusal>
        requires { IsAtRest self.old.phases }
        ensures { DefinesAlone self.old self.new (text.create_table name columns.items) result }
    {
        let names = Names {
            tables: &self.database.tables,
        };
        match resolve_new_table(&name, columns.as_slice(), &names) {
            Ok(()) => {}
            Err(refusal) => return Err(refusal),
        }
        if self.database.tables.len() >= TABLE_LIMIT {
            return Err(Refusal::TooManyTables);
        }
        // for the proof: the number that is free is the least one
        least_free_is_least();
        match self.database.tables.create(name, columns) {
            Ok(_) => Ok(()),
            Err(_) => Err(Refusal::NoMemory),
        }
    }

    /// Drops a table that no rule uses, with its rows.
    pub(crate) fn drop_table(&mut self, name: &Name) -> Result<(), Refusal>
        requires { IsAtRest self.old.phases }
        ensures { DefinesAlone self.old self.new (text.drop_table name.now) result }
    {
        let Some(id) = self.database.tables.find(name) else {
            return Err(Refusal::NoTable);
        };
        if self.definitions.rules.uses(id) {
            return Err(Refusal::TableInUse);
        }
        self.database.tables.drop_table(id);
        self.database.memory.count_drop(id);
        Ok(())
    }
}
