//! The tables and a rule's transition tables, as a statement sees them.
ghost use Rattle.std.specs.Prelude.{◌≡◌, length};
ghost use Rattle.sb_value.specs.Table.{table_at};
ghost use Rattle.sb_plan.specs.Seen.{Seen, rows_in};

use crate::source_rows::SourceRows;
use sb_check::Source;
use sb_tables::Rows;
use sb_value::{TableId, Who};

/// The tables and a rule's transition tables, as they are while a statement is evaluated. Rows are lent where they
/// stand: nothing is copied or listed for a statement.
pub trait Sources {
    /// The tables, the transition tables and the session.
    ghost seen: { Self → Seen };

    /// The rows of a source, in order.
    fn rows(&self, source: Source) -> SourceRows<'_>
        ensures { result ≡ rows_in (seen self.now) source };

    /// The number of rows of a source.
    fn row_count(&self, source: Source) -> usize
        ensures { result ≡ length (rows_in (seen self.now) source) };

    /// The rows of a table with their numbers, in the same order.
    fn numbered_rows(&self, table: TableId) -> Rows<'_>
        ensures { result ≡ (table_at (seen self.now).tables table).rows };

    /// The number of the next row of a table.
    fn next_number(&self, table: TableId) -> u64
        ensures { result ≡ (table_at (seen self.now).tables table).next };

    /// Whose statement it is.
    fn who(&self) -> Who
        ensures { result ≡ (seen self.now).who };
}
