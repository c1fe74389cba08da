//! The net effect of several changes of a tuple.
ghost use Rattle.std.specs.Prelude.{◌≡◌, None, option_map, if◌then◌else◌};
ghost use Rattle.sb_value.specs.NetEffect.{net_between, net_effect, update_between};
ghost use Rattle.sb_rawlog.specs.Sessions.{changes_since};
ghost use Rattle.sb_net.specs.Newest.{is_newest};
ghost use Rattle.sb_net.specs.Scopes.{changes_in};
ghost use Rattle.sb_net.specs.Seen.{seen};

use crate::scope::ChangeScope;
use crate::span::{span_from, span_of};
use sb_rawlog::ChangeLog;
use sb_value::{Change, ChangeKind, Columns, TableId, Value, Who, differing, same_row};

/// The net effect of several changes of one tuple, with rows borrowed from the log.
#[derive(Clone, Copy)]
pub enum NetOf<'a> {
    Inserted(&'a [Value]),
    Deleted(&'a [Value]),
    Updated(&'a [Value], &'a [Value], Columns),
}

/// An update from one row to another, or nothing where these are equal.
fn update<'a>(old: &'a [Value], new: &'a [Value]) -> Option<NetOf<'a>>
    ensures { option_map seen result ≡ update_between old.now new.now }
{
    if same_row(old, new) {
        return None;
    }
    Some(NetOf::Updated(old, new, differing(old, new)))
}

fn between<'a>(first: &'a Change, last: &'a Change) -> Option<NetOf<'a>>
    ensures { option_map seen result ≡ net_between first.now.kind last.now.kind first.now last.now }
{
    match (first.kind, last.kind) {
        (ChangeKind::Inserted, ChangeKind::Deleted) => None,
        (ChangeKind::Inserted, _) => Some(NetOf::Inserted(last.new_row())),
        (_, ChangeKind::Deleted) => Some(NetOf::Deleted(first.old_row())),
        (ChangeKind::Updated, ChangeKind::Updated) => update(first.old_row(), last.new_row()),
        _ => None,
    }
}

/// The net effect of the session's changes of the tuple that are no older than `since`.
pub fn net<L: ChangeLog>(
    log: &L,
    who: Who,
    table: TableId,
    tuple: u64,
    since: u64,
) -> Option<NetOf<'_>>
    ensures { option_map seen result ≡ net_effect (changes_since who since (L.records log.now)) table tuple }
{
    let Some(changes) = span_of(log, who, table, tuple, since) else {
        return None;
    };
    between(changes.first, changes.last)
}

/// The net effect on the tuple of a change, where the tuple's newest change is of that time.
pub(crate) fn net_at<'a, L: ChangeLog>(
    log: &'a L,
    scope: &ChangeScope,
    tuple: u64,
    time: u64,
) -> Option<NetOf<'a>>
    ensures { let rs = L.records log.now in option_map seen result ≡
        (if is_newest scope.now rs tuple time then net_effect (changes_in scope.now rs) scope.now.table tuple else None) }
{
    let Some(newest) = log.tuple_first(scope.who, scope.table, tuple, scope.since) else {
        return None;
    };
    if newest.time != time {
        return None;
    }
    let changes = span_from(log, newest);
    between(changes.first, changes.last)
}
