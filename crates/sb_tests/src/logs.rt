//! Every log of changes, by one list of tests.

use crate::changes::{append, insert, integer, session_of, table, update};
use crate::mark::mark;
use crate::net::has_net_effects;
use sb_rawlog::{ChangeLog, PlainLog, RawLog};
use sb_value::{Change, ChangeKind, Who};
use std::alloc::Global;
use std::process::Abort;

/// The walk over the changes of the kind has these times.
fn compare_op<L: ChangeLog>(rt: &impl Abort, log: &L, who: Who, kind: ChangeKind, times: &[u64]) {
    let mut left = times.iter();
    mark();
    for (time, _) in log.by_op(who, table(), kind, 0) {
        assert!(rt; left.next() == Some(&time));
    }
    mark();
    assert!(rt; left.next().is_none());
}

/// The walk over the changes of tuple 1 has these times.
fn compare_tuple<L: ChangeLog>(rt: &impl Abort, log: &L, since: u64, times: &[u64]) {
    let mut left = times.iter();
    mark();
    for (time, _) in log.by_tuple(session_of(0), table(), 1, since) {
        assert!(rt; left.next() == Some(&time));
    }
    mark();
    assert!(rt; left.next().is_none());
}

/// An insert by tenant 0, one by tenant 8, and an update by tenant 0.
fn fill<L: ChangeLog>(rt: &impl Abort, alloc: Global, log: &mut L) {
    log.reserve(3).expect(rt, "room");
    append(rt, log, insert(rt, alloc, 0, 5));
    append(rt, log, insert(rt, alloc, 8, 7));
    append(rt, log, update(rt, alloc, 0, 5, 6));
    mark();
    assert!(rt; log.now() == 3 && log.len() == 3 && log.spare() == 0);
    mark();
}

/// Each walk gives its own changes, newest first.
fn walk<L: ChangeLog>(rt: &impl Abort, log: &L) {
    compare_tuple(rt, log, 0, &[2, 0]);
    compare_tuple(rt, log, 1, &[2]);
    compare_op(rt, log, session_of(8), ChangeKind::Inserted, &[1]);
    compare_op(rt, log, session_of(8), ChangeKind::Updated, &[]);
}

/// A walk goes on from where it stands.
fn step<L: ChangeLog>(rt: &impl Abort, log: &L) {
    mark();
    let update = log
        .tuple_first(session_of(0), table(), 1, 0)
        .expect(rt, "an update");
    let insert = log.tuple_next(update).expect(rt, "an insert");
    let (time, change) = log.get(insert);
    assert!(rt; time == 0 && change.kind == ChangeKind::Inserted);
    assert!(rt; log.tuple_next(insert).is_none());
    let only = log
        .op_first(session_of(8), table(), ChangeKind::Inserted, 0)
        .expect(rt, "its insert");
    assert!(rt; log.op_next(only).is_none());
    mark();
}

/// The kind of the session's newest change, which is taken out.
fn taken<L: ChangeLog>(log: &mut L, who: Who) -> Option<ChangeKind> {
    match log.take_newest(who) {
        Some(change) => Some(change.kind),
        None => None,
    }
}

/// The newest change is taken out, and another tenant's are forgotten.
fn take<L: ChangeLog>(rt: &impl Abort, log: &mut L) {
    mark();
    assert!(rt; log.newest(session_of(0)).is_some());
    assert!(rt; taken(log, session_of(0)) == Some(ChangeKind::Updated));
    log.forget(session_of(8));
    assert!(rt; taken(log, session_of(8)).is_none());
    assert!(rt; log.now() == 3 && log.len() == 1 && log.spare() == 2);
    mark();
}

/// The integer of the new row of a change.
fn new_integer(change: Option<&Change>) -> Option<i64> {
    match change {
        Some(Change { new: Some(row), .. }) => integer(row.values()),
        _ => None,
    }
}

/// A place that is free again shows nothing of what stood there.
fn fill_again<L: ChangeLog>(rt: &impl Abort, alloc: Global, log: &mut L) {
    append(rt, log, insert(rt, alloc, 1, 9));
    compare_op(rt, log, session_of(1), ChangeKind::Inserted, &[3]);
    compare_op(rt, log, session_of(8), ChangeKind::Inserted, &[]);
    assert!(rt; new_integer(log.newest(session_of(1))) == Some(9));
    assert!(rt; log.len() == 2 && log.spare() == 1);
    log.shrink(0);
    assert!(rt; log.spare() == 0);
}

fn is_a_log<L: ChangeLog>(rt: &impl Abort, alloc: Global, log: &mut L) {
    fill(rt, alloc, log);
    walk(rt, log);
    step(rt, log);
    has_net_effects(rt, alloc, log);
    take(rt, log);
    fill_again(rt, alloc, log);
}

#[test]
fn a_plain_log_is_a_log(rt: HostRuntime) {
    is_a_log(&rt, rt.alloc(), &mut PlainLog::new(rt.alloc()));
}

fn check_hashed(rt: &impl Abort, alloc: Global, log: RawLog) {
    let mut log = log;
    is_a_log(rt, alloc, &mut log);
}

#[test]
fn a_hashed_log_is_a_log(rt: HostRuntime) {
    let alloc = rt.alloc();
    check_hashed(&rt, alloc, RawLog::new(alloc, 1).expect(&rt, "a log"));
    check_hashed(&rt, alloc, RawLog::new(alloc, 1_000).expect(&rt, "a log"));
}
