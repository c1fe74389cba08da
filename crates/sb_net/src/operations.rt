//! The net effects of a session's tuples together, for whatever rule.
ghost use Rattle.std.specs.Prelude.{◌≡◌, ◌≤◌, ◌||◌, ◌&&◌, false, IsFalse, option_map};
ghost use Rattle.sb_value.specs.Laws.{AreLives};
ghost use Rattle.sb_value.specs.NetEffect.{is_operation, is_triggered};
ghost use Rattle.sb_value.specs.declared.net.Triggers.{Triggers as Operations};
ghost use Rattle.sb_rawlog.specs.Changes.{is_op};
ghost use Rattle.sb_rawlog.specs.Records.{walk};
ghost use Rattle.sb_rawlog.specs.Sessions.{changes_since, changes_between};
ghost use Rattle.sb_net.specs.Hits.{is_hit, is_asked, any_asked};
ghost use Rattle.sb_net.specs.Meets.{meets};
ghost use Rattle.sb_net.specs.Scopes.{changes_in};
ghost use Rattle.sb_net.specs.Seen.{seen};

use crate::effect::{NetOf, net, net_at};
use crate::scope::ChangeScope;
use sb_rawlog::ChangeLog;
use sb_value::{Change, ChangeKind, Columns, TableId, Triggers, Who, new_changes_trigger};

/// The operations of the net effects on a table's tuples: of which kinds there are some, and which columns the updates
/// alter.
#[derive(Clone, Copy)]
pub struct NetOperations {
    pub inserted: bool,
    pub deleted: bool,
    pub updated: bool,
    pub columns: Columns,
}

/// Of no net effect.
fn no_operations() -> NetOperations
    ensures { (t : Operations) → meets t result ≡ false }
{
    NetOperations {
        inserted: false,
        deleted: false,
        updated: false,
        columns: Columns::empty(),
    }
}

/// True if one of the operations triggers a rule.
pub fn meets(triggers: Triggers, found: NetOperations) -> bool
    ensures { result ≡ meets triggers found }
{
    (triggers.inserted && found.inserted)
        || (triggers.deleted && found.deleted)
        || (triggers.updated && found.updated)
        || triggers.columns.intersects(found.columns)
}

/// Adds the operation of a net effect.
fn add_net(found: &mut NetOperations, net: &Option<NetOf<'_>>)
    ensures { (t : Operations) →
        meets t found.new ≡ (meets t found.old || is_operation t (option_map seen net.now)) }
{
    match net {
        Some(NetOf::Inserted(_)) => found.inserted = true,
        Some(NetOf::Deleted(_)) => found.deleted = true,
        Some(NetOf::Updated(_, _, columns)) => {
            found.updated = true;
            found.columns = found.columns.union(*columns);
        }
        None => {}
    }
}

/// Adds the operation of the net effect on a change's tuple. An update that isn't its tuple's newest change isn't asked.
fn add_tuple<L: ChangeLog>(
    log: &L,
    scope: &ChangeScope,
    kind: ChangeKind,
    time: u64,
    change: &Change,
    found: &mut NetOperations,
)
    ensures { let rs = L.records log.now in (t : Operations) →
        meets t found.new ≡ (meets t found.old || (is_asked scope.now rs kind (time, change.now)
        && is_hit t scope.now.table (changes_in scope.now rs) change.now.tuple)) }
{
    match kind {
        ChangeKind::Inserted => {
            add_net(
                found,
                &net(log, scope.who, scope.table, change.tuple, scope.since),
            )
        }
        ChangeKind::Deleted => {
            add_net(
                found,
                &net(log, scope.who, scope.table, change.tuple, scope.since),
            )
        }
        ChangeKind::Updated => add_net(found, &net_at(log, scope, change.tuple, time)),
    }
}

/// Adds those of the tuples that have a change of the kind which is no older than `tested`.
fn add_kind<L: ChangeLog>(
    log: &L,
    scope: &ChangeScope,
    kind: ChangeKind,
    tested: u64,
    found: &mut NetOperations,
)
    ensures { let rs = L.records log.now in (t : Operations) →
        meets t found.new ≡ (meets t found.old
        || any_asked t scope.now kind rs (walk (is_op scope.now.who scope.now.table kind) tested rs)) }
{
    for (time, change) in log.by_op(scope.who, scope.table, kind, tested) {
        add_tuple(log, scope, kind, time, change, found);
    }
}

/// The operations of the net effects on the tuples that the session's changes no older than `tested` touch, over its
/// changes no older than `since`. A rule on the table that the changes before `tested` don't trigger is triggered where
/// its own operations meet them: so one walk tests all such rules.
pub fn net_operations<L: ChangeLog>(
    log: &L,
    who: Who,
    table: TableId,
    since: u64,
    tested: u64,
) -> NetOperations
    requires times { since ≤ tested }
    requires lives { AreLives (changes_since who since (L.records log.now)) }
    ensures { let rs = L.records log.now in (t : Operations) →
        IsFalse (is_triggered t table (changes_between who since tested rs)) →
        meets t result ≡ is_triggered t table (changes_since who since rs) }
{
    // for the proof: times rise, later ones cut the changes, and new ones alone can trigger the rule
    let _now = log.now();
    new_changes_trigger();
    let scope = ChangeScope { who, table, since };
    let mut found = no_operations();
    add_kind(log, &scope, ChangeKind::Inserted, tested, &mut found);
    add_kind(log, &scope, ChangeKind::Deleted, tested, &mut found);
    add_kind(log, &scope, ChangeKind::Updated, tested, &mut found);
    found
}
