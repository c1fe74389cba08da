//! A rule's transition tables.
ghost use Rattle.std.specs.Prelude.{◌≡◌, ◌++◌, map, IfOk, OnOk};
ghost use Rattle.sb_value.specs.NetEffect.{net_effect, tuples_of, transition_tables};
ghost use Rattle.sb_rawlog.specs.Sessions.{changes_since};
ghost use Rattle.sb_net.specs.Scopes.{changes_in, walk_in};
ghost use Rattle.sb_net.specs.Seen.{seen};
ghost use Rattle.sb_net.specs.Tables.{with_net};

use crate::effect::{NetOf, net};
use crate::scope::ChangeScope;
use crate::triggers::has_update;
use sb_rawlog::ChangeLog;
use sb_value::{ChangeKind, Row, RowList, TableId, Transition, Triggers, Who};
use std::alloc::{AllocError, Global};

/// Adds the numbers of the tuples that have a change of the kind, one for each such change.
fn push_tuples<L: ChangeLog>(
    tuples: &mut Vec<u64>,
    log: &L,
    scope: &ChangeScope,
    kind: ChangeKind,
) -> Result<(), AllocError>
    ensures { let found = walk_in scope.now kind (L.records log.now) in
        OnOk result (tuples.new.items ≡ tuples.old.items ++ map (λ r. r.1.tuple) found) }
{
    for (_, change) in log.by_op(scope.who, scope.table, kind, scope.since) {
        tuples.push(change.tuple)?;
    }
    Ok(())
}

/// The numbers of the tuples of the table that the session has changed, rising.
fn tuples_of<L: ChangeLog>(
    alloc: Global,
    log: &L,
    scope: &ChangeScope,
) -> Result<Vec<u64>, AllocError>
    ensures { IfOk result (λ v. v.items ≡ tuples_of (changes_in scope.now (L.records log.now)) scope.now.table) }
{
    let mut tuples = Vec::new(alloc);
    push_tuples(&mut tuples, log, scope, ChangeKind::Inserted)?;
    push_tuples(&mut tuples, log, scope, ChangeKind::Deleted)?;
    push_tuples(&mut tuples, log, scope, ChangeKind::Updated)?;
    tuples.sort_unstable();
    tuples.dedup();
    Ok(tuples)
}

/// Adds the rows of a net effect.
fn push_net(
    alloc: Global,
    tables: &mut Transition,
    triggers: &Triggers,
    net: &NetOf<'_>,
) -> Result<(), AllocError>
    ensures { OnOk result (tables.new ≡ with_net triggers.now tables.old (Some (seen net.now))) }
{
    match *net {
        NetOf::Inserted(new) => tables.inserted.push(Row::from_values(alloc, new)?)?,
        NetOf::Deleted(old) => tables.deleted.push(Row::from_values(alloc, old)?)?,
        NetOf::Updated(old, new, columns) => {
            if has_update(triggers, columns) {
                tables.old_updated.push(Row::from_values(alloc, old)?)?;
                tables.new_updated.push(Row::from_values(alloc, new)?)?;
            }
        }
    }
    Ok(())
}

/// Adds the rows of the net effect on one tuple.
fn push_tuple<L: ChangeLog>(
    alloc: Global,
    tables: &mut Transition,
    triggers: &Triggers,
    log: &L,
    scope: &ChangeScope,
    tuple: u64,
) -> Result<(), AllocError>
    ensures { let changes = changes_in scope.now (L.records log.now) in
        OnOk result (tables.new ≡ with_net triggers.now tables.old (net_effect changes scope.now.table tuple)) }
{
    match net(log, scope.who, scope.table, tuple, scope.since) {
        Some(net) => push_net(alloc, tables, triggers, &net),
        None => Ok(()),
    }
}

/// The transition tables of the session's changes that are no older than `since`. Error: out of memory.
pub fn transition_tables<L: ChangeLog>(
    alloc: Global,
    log: &L,
    who: Who,
    table: TableId,
    triggers: Triggers,
    since: u64,
) -> Result<Transition, AllocError>
    ensures { let changes = changes_since who since (L.records log.now) in
        IfOk result (λ tables. tables ≡ transition_tables triggers table changes) }
{
    let scope = ChangeScope { who, table, since };
    let tuples = tuples_of(alloc, log, &scope)?;
    let mut tables = Transition {
        inserted: RowList::new(alloc),
        deleted: RowList::new(alloc),
        old_updated: RowList::new(alloc),
        new_updated: RowList::new(alloc),
    };
    for tuple in &tuples {
        push_tuple(alloc, &mut tables, &triggers, log, &scope, *tuple)?;
    }
    Ok(tables)
}
