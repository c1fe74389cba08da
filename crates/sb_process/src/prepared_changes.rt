//! All memory that changes need, before the first of them is made.
ghost use Rattle.std.specs.Prelude.{◌≡◌, ◌≤◌, length, map, IsTrue, IfOk, OnOk};
ghost use Rattle.sb_eval.specs.Laws.{inserts};
ghost use Rattle.sb_tables.specs.Held.{has_number, stored_at};
ghost use Rattle.sb_process.specs.Made.{AreNumbered, without_room};
ghost use Rattle.sb_process.specs.PreparedChanges.{copies_of};

use sb_rawlog::ChangeLog;
use sb_tables::{ROW_LIMIT, Tables};
use sb_value::{Change, ChangeKind, Row, TableId};
use smallvec::SmallVec;
use std::alloc::{AllocError, Global};

/// Changes for the log, and copies of their new rows for the table: that of the first change last. One copy stands inline.
#[derive(Drop)]
pub(crate) struct PreparedChanges {
    pub(crate) changes: Vec<Change>,
    pub(crate) copies: SmallVec<Option<Row>, 1>,
}

/// The changes with their copies, once the log and their table have room for them.
pub(crate) fn prepare<L: ChangeLog>(
    alloc: Global,
    tables: &mut Tables,
    log: &mut L,
    target: TableId,
    changes: Vec<Change>,
) -> Result<PreparedChanges, AllocError>
    requires there { IsTrue (has_number tables.old target) }
    requires numbered { AreNumbered tables.old }
    ensures changes { IfOk result (λ prepared_changes. prepared_changes.changes.items ≡ changes.items) }
    ensures copied { IfOk result (λ prepared_changes. prepared_changes.copies.items ≡ copies_of prepared_changes.changes.items) }
    ensures few { OnOk result (length changes.items ≤ 4096) }
    ensures log { OnOk result (length changes.items ≤ L.room log.new) }
    ensures table { OnOk result (inserts changes.items ≤ (stored_at tables.new target).room) }
    ensures same { map without_room tables.new ≡ map without_room tables.old }
    ensures records { L.records log.new ≡ L.records log.old }
    ensures clock { L.clock log.new ≡ L.clock log.old }
{
    // No table has more rows, so no statement changes more.
    if changes.len() > ROW_LIMIT {
        return Err(AllocError);
    }
    match reserve(tables, log, target, changes.as_slice()) {
        Ok(()) => with_copies(alloc, changes),
        Err(error) => Err(error),
    }
}

/// Makes room for the changes in the log, and in their table for those that are inserts.
fn reserve<L: ChangeLog>(
    tables: &mut Tables,
    log: &mut L,
    target: TableId,
    changes: &[Change],
) -> Result<(), AllocError>
    requires there { IsTrue (has_number tables.old target) }
    requires numbered { AreNumbered tables.old }
    ensures log { OnOk result (length changes.now ≤ L.room log.new) }
    ensures table { OnOk result (inserts changes.now ≤ (stored_at tables.new target).room) }
    ensures same { map without_room tables.new ≡ map without_room tables.old }
    ensures records { L.records log.new ≡ L.records log.old }
    ensures clock { L.clock log.new ≡ L.clock log.old }
{
    log.shrink(changes.len());
    log.reserve(changes.len())?;
    tables.reserve(target, insert_count(changes))
}

/// The number of inserts among the changes.
fn insert_count(changes: &[Change]) -> usize
    ensures { result ≡ inserts changes.now }
{
    let mut count = 0;
    for change in changes {
        if let ChangeKind::Inserted = change.kind {
            count += 1;
        }
    }
    count
}

/// The changes with copies of their new rows.
fn with_copies(alloc: Global, changes: Vec<Change>) -> Result<PreparedChanges, AllocError>
    ensures changes { IfOk result (λ prepared_changes. prepared_changes.changes.items ≡ changes.items) }
    ensures copied { IfOk result (λ prepared_changes. prepared_changes.copies.items ≡ copies_of prepared_changes.changes.items) }
{
    let copies = copies_of(alloc, changes.as_slice())?;
    Ok(PreparedChanges { changes, copies })
}

/// Copies of the changes' new rows, that of the first change last.
fn copies_of(alloc: Global, changes: &[Change]) -> Result<SmallVec<Option<Row>, 1>, AllocError>
    ensures { IfOk result (λ copies. copies.items ≡ copies_of changes.now) }
{
    let mut copies = SmallVec::with_capacity(alloc, changes.len())?;
    let mut left = changes.len();
    while left > 0 {
        left -= 1;
        copies.push_reserved(copy_of(&changes[left])?);
    }
    Ok(copies)
}

/// A copy of the change's new row, if it has one.
fn copy_of(change: &Change) -> Result<Option<Row>, AllocError>
    ensures { IfOk result (λ copy. copy ≡ change.now.new) }
{
    match &change.new {
        Some(row) => Ok(Some(row.clone()?)),
        None => Ok(None),
    }
}
