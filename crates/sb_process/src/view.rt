//! What a statement sees.
ghost use Rattle.std.specs.Prelude.{◌≡◌, length};
ghost use Rattle.sb_eval.specs.Seen as seen;
ghost use Rattle.sb_eval.specs.Seen.{Seen};
ghost use Rattle.sb_process.specs.Represents.{who_in};
ghost use Rattle.sb_process.specs.View.{rows_listed};
ghost use Rattle.sb_tables.specs.Held.{entries};
ghost use Rattle.sb_value.specs.Table.{table_at, values};

use crate::database::Database;
use sb_check::Source;
use sb_eval::{SourceRows, Sources};
use sb_tables::{Rows, Tables};
use sb_value::{Row, RowList, SessionId, TableId, Transition, Who};
use std::alloc::Global;

/// The tables as they are now, the transition tables of a rule or none, and the session.
#[derive(Drop)]
pub(crate) struct View<'a> {
    pub(crate) tables: &'a Tables,
    pub(crate) transition: &'a Transition,
    pub(crate) who: Who,
}

/// The viewer of the tables: a session, and the transition tables of its rule, or none.
#[derive(Drop)]
pub(crate) struct Viewer<'a> {
    pub(crate) session: SessionId,
    pub(crate) tables: &'a Transition,
}

impl Database {
    /// The tables that a statement of the viewer sees.
    pub(crate) fn view<'a>(&'a self, viewer: &Viewer<'a>) -> View<'a>
        ensures tables { result.tables.now ≡ self.now.tables }
        ensures transition { result.transition.now ≡ viewer.now.tables.now }
        ensures who { result.who ≡ who_in self.now viewer.now.session }
    {
        View {
            tables: &self.tables,
            transition: viewer.tables,
            who: self.who(viewer.session),
        }
    }
}

/// No transition tables.
pub(crate) fn no_transition(alloc: Global) -> Transition
    ensures { result ≡ seen.no_transition }
{
    Transition {
        inserted: RowList::new(alloc),
        deleted: RowList::new(alloc),
        old_updated: RowList::new(alloc),
        new_updated: RowList::new(alloc),
    }
}

impl<'a> Sources for View<'a> {
    ghost use Rattle.sb_process.specs.View.{seen_by};

    ghost seen = { λ v. seen_by v.tables.now v.transition.now v.who };

    fn rows(&self, source: Source) -> SourceRows<'_> {
        if let Source::Table(table) = source {
            return SourceRows::of_table(self.numbered_rows(table));
        }
        SourceRows::of_list(transition_rows(self.transition, source))
    }

    fn row_count(&self, source: Source) -> usize {
        match source {
            Source::Table(table) => table_len(self.tables, table),
            Source::Inserted => self.transition.inserted.len(),
            Source::Deleted => self.transition.deleted.len(),
            Source::OldUpdated => self.transition.old_updated.len(),
            Source::NewUpdated => self.transition.new_updated.len(),
        }
    }

    fn numbered_rows(&self, table: TableId) -> Rows<'_> {
        match self.tables.get(table) {
            Some(table) => table.rows(),
            None => Rows::none(),
        }
    }

    fn next_number(&self, table: TableId) -> u64 {
        match self.tables.get(table) {
            Some(table) => table.next(),
            None => 1,
        }
    }

    fn who(&self) -> Who {
        self.who
    }
}

/// The number of rows of that table. A table that isn't there has none.
fn table_len(tables: &Tables, table: TableId) -> usize
    ensures { result ≡ length (values (table_at (entries tables.now) table)) }
{
    match tables.get(table) {
        Some(table) => table.len(),
        None => 0,
    }
}

/// The rows of a transition table. A table is none.
fn transition_rows(transition: &Transition, source: Source) -> &[Row]
    ensures { result.now ≡ rows_listed transition.now source }
{
    match source {
        Source::Table(_) => &[],
        Source::Inserted => transition.inserted.rows(),
        Source::Deleted => transition.deleted.rows(),
        Source::OldUpdated => transition.old_updated.rows(),
        Source::NewUpdated => transition.new_updated.rows(),
    }
}
