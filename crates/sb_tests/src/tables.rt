//! A table with room: no call on its rows takes memory.
ghost use Rattle.std.specs.Prelude.{◌≡◌, is_some};
ghost use Rattle.sb_value.specs.Table.{row_at};

use crate::changes::{integer, row_of};
use crate::mark::mark;
use sb_tables::Table;
use sb_value::{ColumnDefinition, ColumnType, Name, Row};
use std::alloc::Global;
use std::process::Abort;
use std::test::Fail;

/// The one column `a`, of integers.
pub fn columns(rt: &impl Abort, alloc: Global) -> Vec<ColumnDefinition> {
    let mut columns = Vec::new(alloc);
    let column = ColumnDefinition {
        name: Name::new(b"a"),
        of: ColumnType::Int,
    };
    columns.push(column).expect(rt, "a column");
    columns
}

/// Inserts a row into a table that has room for it, as that number.
fn insert(rt: &impl Abort, table: &mut Table, row: Row, number: u64) {
    assert!(rt; table.spare() > 0);
    assert!(rt; table.next() < u64::MAX);
    assert!(rt; table.insert(row).is_ok_and(|got| got == number));
}

/// True if the table has a row of that number.
fn has_row(table: &Table, tuple: u64) -> bool
    ensures { result ≡ is_some (row_at table.now.table tuple) }
{
    for (number, _) in table.rows() {
        if number == tuple {
            return true;
        }
    }
    false
}

/// Deletes the second row, and puts another one in place of the third.
fn change(rt: &impl Abort, table: &mut Table, row: Row) {
    assert!(rt; has_row(table, 2));
    table.mark_deleted(2);
    assert!(rt; has_row(table, 3));
    let former = table.replace(3, row);
    assert!(rt; integer(former.values()) == Some(3));
    table.settle();
    assert!(rt; has_row(table, 1) && !has_row(table, 2) && has_row(table, 3));
    assert!(rt; table.len() == 2 && table.next() == 4);
}

#[test]
fn a_table_with_room_takes_no_memory(rt: HostRuntime) -> Result<(), Fail> {
    let alloc = rt.alloc();
    let mut table = Table::new(alloc, columns(&rt, alloc));
    table.reserve(3)?;
    let first = row_of(&rt, alloc, 1);
    let second = row_of(&rt, alloc, 2);
    let third = row_of(&rt, alloc, 3);
    let other = row_of(&rt, alloc, 4);
    mark();
    insert(&rt, &mut table, first, 1);
    insert(&rt, &mut table, second, 2);
    insert(&rt, &mut table, third, 3);
    change(&rt, &mut table, other);
    mark();
    Ok(())
}
