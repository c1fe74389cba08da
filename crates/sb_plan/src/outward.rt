//! The sources of the queries around a condition.

use crate::sources::Sources;
use sb_check::{Column, Source};
use sb_value::Value;

/// The sources of the queries around a condition, the innermost first.
#[derive(Drop)]
pub enum Outward<'o> {
    Outermost,
    Within(&'o [Source], &'o Outward<'o>),
}

/// The source that stands at a place in a query so many outward, if it is there.
fn source_at(outward: &Outward<'_>, depth: u8, place: u8) -> Option<Source> {
    match outward {
        Outward::Outermost => None,
        Outward::Within(list, others) => {
            if depth == 0 {
                list.get(place as usize).copied()
            } else {
                source_at(others, depth - 1, place)
            }
        }
    }
}

/// True if a column has a text in the first row of its source.
pub(crate) fn begins_with_text<S: Sources>(
    column: Column,
    sources: &S,
    outward: &Outward<'_>,
) -> bool {
    let Some(source) = source_at(outward, column.depth, column.source) else {
        return false;
    };
    match sources.rows(source).next() {
        Some(row) => matches!(row.get(column.place as usize), Some(Value::Text(_))),
        None => false,
    }
}
