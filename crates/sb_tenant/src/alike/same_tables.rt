//! The tables of two tenants, compared.
ghost use Rattle.std.specs.Prelude.{◌≡◌, ◌+◌, ◌||◌, drop, map, IsTrue, None, Some, MatchOption, slice_get};
ghost use Rattle.sb_tenant.specs.Compared.{AreSettled, AreSettledFrom, ShowAlikeFrom};
ghost use Rattle.sb_tables.specs.Held.{entries};
ghost use Rattle.sb_tenant.specs.Alike.{shown};
ghost use Rattle.sb_value.specs.Table.{has_table, values};

use crate::alike::same::{Same, are_same};
use sb_tables::{Table, Tables};
use sb_value::{ColumnDefinition, Name, Row, TableId, same_row};

/// A table with its number and its name.
#[derive(Clone, Copy)]
struct NamedTable<'a> {
    id: TableId,
    name: &'a Name,
    table: &'a Table,
}

/// The table at a place.
fn held_at(tables: &Tables, place: usize) -> Option<NamedTable<'_>>
    ensures { MatchOption result (slice_get tables.now place ≡ None)
        (λ h. slice_get tables.now place ≡ Some (record { id = h.id; name = h.name.now; stored = h.table.now })) }
{
    match tables.at(place) {
        None => None,
        Some((name, id)) => match tables.table_at(place) {
            None => None,
            Some(table) => Some(NamedTable {
                id: *id,
                name,
                table,
            }),
        },
    }
}

/// True if no two tables have one number. Each numbers its tuples in order.
pub(crate) fn are_settled(tables: &Tables) -> bool
    ensures { IsTrue result → AreSettled (entries tables.now) }
{
    for place in 0..tables.len() {
        if !is_settled_at(tables, place) {
            return false;
        }
    }
    true
}

/// True if the table at that place has a number of its own among those behind it.
fn is_settled_at(tables: &Tables, place: usize) -> bool
    ensures { IsTrue result → AreSettledFrom tables.now (place + 1) → AreSettledFrom tables.now place }
{
    match held_at(tables, place) {
        Some(held) if place < tables.len() => {
            // for the proof: its rows are in order
            let _ = held.table.next();
            !has_number_from(tables, place + 1, held.id)
        }
        _ => false,
    }
}

/// True if a table from that place on has the number.
fn has_number_from(tables: &Tables, start: usize, id: TableId) -> bool
    ensures { result ≡ has_table (drop start (entries tables.now)) id }
{
    for place in start..tables.len() {
        if has_number_at(tables, place, id) {
            return true;
        }
    }
    false
}

/// True if the table at that place has the number.
fn has_number_at(tables: &Tables, place: usize, id: TableId) -> bool
    ensures { has_table (drop place (entries tables.now)) id
        ≡ (result || has_table (drop (place + 1) (entries tables.now)) id) }
{
    match held_at(tables, place) {
        Some(held) => held.id == id,
        None => false,
    }
}

/// True if the tables are shown alike, in the same order.
pub(crate) fn same_tables(one: &Tables, other: &Tables) -> bool
    ensures { IsTrue result → map shown (entries one.now) ≡ map shown (entries other.now) }
{
    if one.len() != other.len() {
        return false;
    }
    for place in 0..one.len() {
        if !same_table_at(one, other, place) {
            return false;
        }
    }
    true
}

/// True if the tables at that place are shown alike.
fn same_table_at(one: &Tables, other: &Tables, place: usize) -> bool
    ensures { IsTrue result → ShowAlikeFrom one.now other.now (place + 1) → ShowAlikeFrom one.now other.now place }
{
    match held_at(one, place) {
        None => false,
        Some(first) => match held_at(other, place) {
            None => false,
            Some(second) => same_held(&first, &second),
        },
    }
}

fn same_held(one: &NamedTable<'_>, other: &NamedTable<'_>) -> bool
    ensures id { IsTrue result → one.now.id ≡ other.now.id }
    ensures name { IsTrue result → one.now.name.now ≡ other.now.name.now }
    ensures columns { IsTrue result → one.now.table.now.table.columns ≡ other.now.table.now.table.columns }
    ensures rows { IsTrue result → values one.now.table.now.table ≡ values other.now.table.now.table }
{
    one.id == other.id
        && same_name(one.name, other.name)
        && are_same(one.table.columns(), other.table.columns())
        && same_rows(one.table, other.table)
}

/// True if two names are the same.
pub(crate) fn same_name(one: &Name, other: &Name) -> bool
    ensures { IsTrue result → one.now ≡ other.now }
{
    one.is_same(other)
}

impl Same for ColumnDefinition {
    fn is_same(&self, other: &ColumnDefinition) -> bool {
        same_name(&self.name, &other.name) && self.of == other.of
    }
}

/// True if the rows have the same values, in the same order.
fn same_rows(one: &Table, other: &Table) -> bool
    ensures { IsTrue result → values one.now.table ≡ values other.now.table }
{
    let mut rows = one.rows();
    let mut others = other.rows();
    'rows: while let Some((_, row)) = rows.next() {
        match others.next() {
            Some((_, second)) if same_values(row, second) => {}
            _ => return false,
        }
    }
    others.next().is_none()
}

fn same_values(one: &Row, other: &Row) -> bool
    ensures { IsTrue result → one.now ≡ other.now }
{
    same_row(one.values(), other.values())
}
