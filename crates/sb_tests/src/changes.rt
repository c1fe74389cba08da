//! Changes of one table. A test ends where memory runs out.
ghost use Rattle.std.specs.Prelude.{◌≡◌};

use crate::mark::mark;
use sb_rawlog::ChangeLog;
use sb_value::{Change, ChangeKind, Columns, Row, SessionId, TableId, TenantId, Value, Who};
use std::alloc::Global;
use std::process::Abort;

/// Session 0 of the tenant.
pub fn session_of(tenant: u8) -> Who
    ensures { result ≡ record { tenant = tenant; session = 0 } }
{
    Who {
        tenant: TenantId::new(tenant),
        session: SessionId::new(0),
    }
}

/// The table that all changes are of.
pub fn table() -> TableId {
    TableId::new(0)
}

/// The row of one integer.
pub fn row_of(rt: &impl Abort, alloc: Global, value: i64) -> Row {
    let mut row = Row::new(alloc);
    row.push(Value::Int(value)).expect(rt, "a row");
    row
}

/// The integer of these values of a row of one.
pub fn integer(values: &[Value]) -> Option<i64> {
    match values {
        [Value::Int(value)] => Some(*value),
        _ => None,
    }
}

/// A change of tuple 1 by the tenant's session 0, which names no column.
fn change(tenant: u8, kind: ChangeKind, old: Option<Row>, new: Option<Row>) -> Change {
    Change {
        tenant: TenantId::new(tenant),
        session: SessionId::new(0),
        table: table(),
        tuple: 1,
        kind,
        old,
        new,
        columns: Columns::empty(),
    }
}

pub fn insert(rt: &impl Abort, alloc: Global, tenant: u8, value: i64) -> Change {
    change(
        tenant,
        ChangeKind::Inserted,
        None,
        Some(row_of(rt, alloc, value)),
    )
}

pub fn update(rt: &impl Abort, alloc: Global, tenant: u8, old: i64, new: i64) -> Change {
    let old = row_of(rt, alloc, old);
    change(
        tenant,
        ChangeKind::Updated,
        Some(old),
        Some(row_of(rt, alloc, new)),
    )
}

/// Appends the change to a log that has room for it.
pub fn append<L: ChangeLog>(rt: &impl Abort, log: &mut L, change: Change) {
    assert!(rt; log.spare() > 0);
    assert!(rt; log.now() < u64::MAX);
    mark();
    log.append(change);
    mark();
}
