//! The tables of a tenant as lines.

use crate::draft::Draft;
use crate::rows::write_rows;
use crate::stand_ins::{Beginnings, StandIns};
use sb_tables::Tables;
use sb_value::{ColumnDefinition, ColumnType, Name};
use std::alloc::{AllocError, Global};

/// Writes the tables in order of creation, each with its rows.
pub(crate) fn write_tables(
    alloc: Global,
    draft: &mut Draft,
    tables: &Tables,
) -> Result<(), AllocError> {
    let mut stand_ins = StandIns::new(b"table", b" (a int)", free_beginning(tables));
    for place in 0..tables.len() {
        write_table(alloc, draft, &mut stand_ins, tables, place)?;
    }
    stand_ins.leave(draft)
}

/// Two letters that no table's name begins with.
fn free_beginning(tables: &Tables) -> [u8; 2] {
    let mut beginnings = Beginnings::new();
    for place in 0..tables.len() {
        if let Some((name, _)) = tables.at(place) {
            beginnings.note(name);
        }
    }
    beginnings.free()
}

fn write_table(
    alloc: Global,
    draft: &mut Draft,
    stand_ins: &mut StandIns<'_>,
    tables: &Tables,
    place: usize,
) -> Result<(), AllocError> {
    let Some((name, id)) = tables.at(place) else {
        return Ok(());
    };
    let Some(table) = tables.table_at(place) else {
        return Ok(());
    };
    stand_ins.make_way(draft, id.number())?;
    write_columns(draft, name, table.columns())?;
    write_rows(alloc, draft, name, table)
}

fn write_columns(
    draft: &mut Draft,
    name: &Name,
    columns: &[ColumnDefinition],
) -> Result<(), AllocError> {
    draft.put(b"create table ")?;
    draft.put(name.as_slice())?;
    let mut before: &[u8] = b" (";
    for column in columns {
        draft.put(before)?;
        draft.put(column.name.as_slice())?;
        draft.put(match column.of {
            ColumnType::Int => b" int",
            ColumnType::Text => b" text",
        })?;
        before = b", ";
    }
    draft.put(b")")?;
    draft.end()
}
