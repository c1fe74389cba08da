//! Net effects over every log.

use crate::changes::{integer, session_of, table};
use crate::mark::mark;
use sb_net::{NetOf, is_triggered, net, transition_tables};
use sb_rawlog::ChangeLog;
use sb_value::{Columns, RowList, Triggers};
use std::alloc::Global;
use std::process::Abort;

/// The integers of a net effect's rows.
fn shown(net: &NetOf<'_>) -> (Option<i64>, Option<i64>) {
    match *net {
        NetOf::Inserted(new) => (None, integer(new)),
        NetOf::Deleted(old) => (integer(old), None),
        NetOf::Updated(old, new, _) => (integer(old), integer(new)),
    }
}

/// The net effect on tuple 1.
fn net_at<L: ChangeLog>(log: &L, since: u64) -> Option<(Option<i64>, Option<i64>)> {
    mark();
    let net = net(log, session_of(0), table(), 1, since);
    mark();
    match net {
        Some(net) => Some(shown(&net)),
        None => None,
    }
}

fn on_update() -> Triggers {
    Triggers {
        inserted: false,
        deleted: false,
        updated: true,
        columns: Columns::empty(),
    }
}

/// True if an update of the table triggers.
fn triggers<L: ChangeLog>(log: &L, since: u64) -> bool {
    mark();
    let triggered = is_triggered(log, session_of(0), table(), on_update(), since);
    mark();
    triggered
}

/// True if these are the row of that integer alone.
fn is_only(rows: &RowList, value: i64) -> bool {
    match rows.rows() {
        [row] => integer(row.values()) == Some(value),
        _ => false,
    }
}

/// An insert and an update of it are an insert, and the update alone is one.
pub fn has_net_effects<L: ChangeLog>(rt: &impl Abort, alloc: Global, log: &L) {
    assert!(rt; net_at(log, 0) == Some((None, Some(6))));
    assert!(rt; net_at(log, 1) == Some((Some(5), Some(6))));
    assert!(rt; net_at(log, 3).is_none());
    assert!(rt; !triggers(log, 0) && triggers(log, 1) && !triggers(log, 3));
    let tables = transition_tables(alloc, log, session_of(0), table(), on_update(), 1).expect(
        rt, "tables",
    );
    assert!(rt; is_only(&tables.old_updated, 5) && is_only(&tables.new_updated, 6));
    assert!(rt; tables.inserted.rows().is_empty() && tables.deleted.rows().is_empty());
}
