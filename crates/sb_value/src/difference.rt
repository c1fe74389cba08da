//! The columns in which two rows differ.
ghost use Rattle.std.specs.Prelude.{◌≡◌, slice_get};
ghost use Rattle.std.specs.Option.{option_copied};
ghost use Rattle.sb_value.specs.Columns.{differ_at, differing};
ghost use Rattle.sb_value.specs.Values.{same_row};

use crate::columns::Columns;
use crate::id::COLUMN_LIMIT;
use crate::value::Value;

/// True if two rows are equal.
pub fn same_row(one: &[Value], other: &[Value]) -> bool
    ensures { result ≡ same_row one.now other.now }
{
    match one {
        [] => other.is_empty(),
        [first, rest @ ..] => match other {
            [] => false,
            [second, others @ ..] => first.is_same(second) && same_row(rest, others),
        },
    }
}

/// The value at a place, if the row is so long.
fn value_at(row: &[Value], place: usize) -> Option<&Value>
    ensures { option_copied result ≡ slice_get row.now place }
{
    match row.get(place) {
        Some(value) => Some(value),
        None => None,
    }
}

/// True if two rows differ at a place.
fn differ_at(old: &[Value], new: &[Value], place: usize) -> bool
    ensures { result ≡ differ_at old.now new.now place }
{
    match value_at(old, place) {
        None => value_at(new, place).is_some(),
        Some(first) => match value_at(new, place) {
            None => true,
            Some(second) => !first.is_same(second),
        },
    }
}

/// The columns in which two rows differ.
pub fn differing(old: &[Value], new: &[Value]) -> Columns
    ensures { result ≡ differing old.now new.now }
{
    let mut columns = Columns::empty();
    for place in 0..COLUMN_LIMIT {
        if differ_at(old, new, place) {
            columns = columns.with(place as u8);
        }
    }
    columns
}
