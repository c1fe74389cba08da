//! Net effects, the operations that trigger a rule, and a rule's transition tables.

use crate::columns::Columns;
use crate::row::{Row, RowList};

/// The net effect of several changes of one tuple.
#[derive(Drop)]
pub enum Net {
    Inserted(Row),
    Deleted(Row),
    Updated(Row, Row, Columns),
}

/// The triggering operations of a rule.
#[derive(Clone, Copy)]
pub struct Triggers {
    /// True if an insert triggers.
    pub inserted: bool,
    /// True if a delete triggers.
    pub deleted: bool,
    /// True if an update of any column triggers.
    pub updated: bool,
    /// The columns of which an update triggers.
    pub columns: Columns,
}

/// A rule's transition tables.
pub struct Transition {
    pub inserted: RowList,
    pub deleted: RowList,
    pub old_updated: RowList,
    pub new_updated: RowList,
}

impl Drop for Transition {
    fn drop(self) {
        let Self {
            inserted: _,
            deleted: _,
            old_updated: _,
            new_updated: _,
        } = self;
    }
}
