//! Tests whether a rule is triggered.
ghost use Rattle.std.specs.Prelude.{◌≡◌, ◌≤◌, ◌&&◌, IsTrue, IsFalse, option_map};
ghost use Rattle.sb_value.specs.Laws.{AreLives};
ghost use Rattle.sb_value.specs.NetEffect.{has_update, is_operation, is_triggered};
ghost use Rattle.sb_rawlog.specs.Changes.{is_op};
ghost use Rattle.sb_rawlog.specs.Records.{walk};
ghost use Rattle.sb_rawlog.specs.Sessions.{changes_since, changes_between};
ghost use Rattle.sb_net.specs.Hits.{is_hit, is_asked, names_kind, any_asked, any_tuple};
ghost use Rattle.sb_net.specs.Seen.{seen};
ghost use Rattle.sb_net.specs.Scopes.{changes_in, walk_in};

use crate::effect::{NetOf, net, net_at};
use crate::scope::ChangeScope;
use sb_rawlog::ChangeLog;
use sb_value::{Change, ChangeKind, Columns, TableId, Triggers, Who, new_changes_trigger};

/// True if an update of these columns is one of the operations.
pub(crate) fn has_update(triggers: &Triggers, columns: Columns) -> bool
    ensures { result ≡ has_update triggers.now columns }
{
    triggers.updated || triggers.columns.intersects(columns)
}

/// True if a net effect is one of the operations.
fn is_operation(triggers: &Triggers, net: &Option<NetOf<'_>>) -> bool
    ensures { result ≡ is_operation triggers.now (option_map seen net.now) }
{
    match net {
        Some(NetOf::Inserted(_)) => triggers.inserted,
        Some(NetOf::Deleted(_)) => triggers.deleted,
        Some(NetOf::Updated(_, _, columns)) => has_update(triggers, *columns),
        None => false,
    }
}

/// True if the net effect on the tuple is one of the operations.
fn is_hit<L: ChangeLog>(log: &L, scope: &ChangeScope, tuple: u64, triggers: &Triggers) -> bool
    ensures { result ≡ is_hit triggers.now scope.now.table (changes_in scope.now (L.records log.now)) tuple }
{
    let found = net(log, scope.who, scope.table, tuple, scope.since);
    is_operation(triggers, &found)
}

/// True if changes of the kind may be operations.
fn names_kind(triggers: &Triggers, kind: ChangeKind) -> bool
    ensures { result ≡ names_kind triggers.now kind }
{
    match kind {
        ChangeKind::Inserted => triggers.inserted,
        ChangeKind::Deleted => triggers.deleted,
        ChangeKind::Updated => triggers.updated || !triggers.columns.is_empty(),
    }
}

/// True if the net effect of a change's tuple is one of the operations. An update that isn't its tuple's newest change
/// isn't asked: so each tuple is asked once, however often it changed.
fn is_asked_hit<L: ChangeLog>(
    log: &L,
    scope: &ChangeScope,
    kind: ChangeKind,
    triggers: &Triggers,
    time: u64,
    change: &Change,
) -> bool
    ensures { let rs = L.records log.now in
        result ≡ (is_asked scope.now rs kind (time, change.now)
        && is_hit triggers.now scope.now.table (changes_in scope.now rs) change.now.tuple) }
{
    match kind {
        ChangeKind::Inserted => is_hit(log, scope, change.tuple, triggers),
        ChangeKind::Deleted => is_hit(log, scope, change.tuple, triggers),
        ChangeKind::Updated => is_operation(triggers, &net_at(log, scope, change.tuple, time)),
    }
}

/// True if a change of the kind that is no older than `tested` is asked, and the net effect on its tuple is an operation.
/// The tuple is noted as the rule's witness.
fn any_asked<L: ChangeLog>(
    log: &L,
    scope: &ChangeScope,
    kind: ChangeKind,
    triggers: &Triggers,
    tested: u64,
    witness: &mut Option<u64>,
) -> bool
    ensures { let rs = L.records log.now in
        result ≡ (names_kind triggers.now kind && any_asked triggers.now scope.now kind rs
        (walk (is_op scope.now.who scope.now.table kind) tested rs)) }
{
    if !names_kind(triggers, kind) {
        return false;
    }
    for (time, change) in log.by_op(scope.who, scope.table, kind, tested) {
        if is_asked_hit(log, scope, kind, triggers, time, change) {
            *witness = Some(change.tuple);
            return true;
        }
    }
    false
}

/// True if the witness is a tuple whose net effect is one of the operations.
fn is_witnessed<L: ChangeLog>(
    log: &L,
    scope: &ChangeScope,
    triggers: &Triggers,
    witness: Option<u64>,
) -> bool
    ensures { IsTrue result →
        IsTrue (is_triggered triggers.now scope.now.table (changes_in scope.now (L.records log.now))) }
{
    match witness {
        Some(tuple) => is_hit(log, scope, tuple, triggers),
        None => false,
    }
}

/// True if the session's changes that are no older than `since` trigger a rule on the table, where those of them
/// that are older than `tested` don't. What it costs are the changes since then: of other tuples the net effects are
/// what they were. The witness is a tuple that triggered the rule before, if one is known. It is asked first, so a rule
/// that waits costs no walk; nothing rests on it. One that is found is noted.
pub fn is_triggered_anew<L: ChangeLog>(
    log: &L,
    who: Who,
    table: TableId,
    triggers: Triggers,
    since: u64,
    tested: u64,
    witness: &mut Option<u64>,
) -> bool
    requires times { since ≤ tested }
    requires lives { AreLives (changes_since who since (L.records log.now)) }
    requires untriggered { let older = changes_between who since tested (L.records log.now) in
        IsFalse (is_triggered triggers table older) }
    ensures { result ≡ is_triggered triggers table (changes_since who since (L.records log.now)) }
{
    // for the proof: times rise, later ones cut the changes, and new ones alone can trigger the rule
    let _now = log.now();
    new_changes_trigger();
    let scope = ChangeScope { who, table, since };
    if is_witnessed(log, &scope, &triggers, *witness) {
        return true;
    }
    if any_asked(
        log,
        &scope,
        ChangeKind::Inserted,
        &triggers,
        tested,
        witness,
    ) {
        return true;
    }
    if any_asked(log, &scope, ChangeKind::Deleted, &triggers, tested, witness) {
        return true;
    }
    any_asked(log, &scope, ChangeKind::Updated, &triggers, tested, witness)
}

/// True if a change of the kind is of a tuple whose net effect is an operation.
fn any_tuple<L: ChangeLog>(
    log: &L,
    scope: &ChangeScope,
    kind: ChangeKind,
    triggers: &Triggers,
) -> bool
    ensures { let rs = L.records log.now in
        result ≡ any_tuple triggers.now scope.now.table (changes_in scope.now rs) (walk_in scope.now kind rs) }
{
    for (_, change) in log.by_op(scope.who, scope.table, kind, scope.since) {
        if is_hit(log, scope, change.tuple, triggers) {
            return true;
        }
    }
    false
}

/// True if the session's changes that are no older than `since` trigger a rule on the table, whatever changes these
/// are. It looks at the net effect of each change's tuple.
pub fn is_triggered<L: ChangeLog>(
    log: &L,
    who: Who,
    table: TableId,
    triggers: Triggers,
    since: u64,
) -> bool
    ensures { result ≡ is_triggered triggers table (changes_since who since (L.records log.now)) }
{
    let scope = ChangeScope { who, table, since };
    if any_tuple(log, &scope, ChangeKind::Inserted, &triggers) {
        return true;
    }
    if any_tuple(log, &scope, ChangeKind::Deleted, &triggers) {
        return true;
    }
    any_tuple(log, &scope, ChangeKind::Updated, &triggers)
}
