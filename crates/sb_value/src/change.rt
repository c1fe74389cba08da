//! Changes of tuples.
ghost use Rattle.std.specs.Prelude.{◌≡◌, [], unwrap_or};
ghost use Rattle.sb_value.specs.Table.{old_row, new_row};

use crate::columns::Columns;
use crate::id::{SessionId, TableId, TenantId};
use crate::row::Row;
use crate::value::Value;

/// The kind of a change.
#[derive(Clone, Copy, Debug, PartialEq, Eq)]
pub enum ChangeKind {
    Inserted,
    Deleted,
    Updated,
}

/// A change of one tuple of a table, by a session of a tenant.
#[derive(Drop)]
pub struct Change {
    pub tenant: TenantId,
    pub session: SessionId,
    pub table: TableId,
    pub tuple: u64,
    pub kind: ChangeKind,
    /// The row before it, of a delete or an update.
    pub old: Option<Row>,
    /// The row after it, of an insert or an update.
    pub new: Option<Row>,
    /// The columns that an update's `set` list names.
    pub columns: Columns,
}

/// The row's values. A row that isn't there has none.
fn values_of(row: &Option<Row>) -> &[Value]
    ensures { result.now ≡ unwrap_or row.now [] }
{
    match row {
        Some(row) => row.values(),
        None => &[],
    }
}

impl Change {
    /// The values that the change takes away.
    pub fn old_row(&self) -> &[Value]
        ensures { result.now ≡ old_row self.now }
    {
        values_of(&self.old)
    }

    /// The values that the change gives.
    pub fn new_row(&self) -> &[Value]
        ensures { result.now ≡ new_row self.now }
    {
        values_of(&self.new)
    }
}
