//! Which of a log's changes are looked at.

use sb_value::{TableId, Who};

/// Names the changes of a session on a table that are no older than `since`.
#[derive(Clone, Copy)]
pub(crate) struct ChangeScope {
    pub(crate) who: Who,
    pub(crate) table: TableId,
    pub(crate) since: u64,
}
