//! The rows of a table, one after another.
ghost use Rattle.std.specs.Prelude.{◌≡◌, []};
ghost use Rattle.std.specs.Iterator.{YieldsFirstBy, item_count};

use crate::slot::Slot;
use sb_value::Row;
use std::marker::Model;

/// The rows that are left of a table's, with their numbers, in rising number.
#[derive(Drop)]
pub struct Rows<'a> {
    pub(crate) slots: &'a [Slot],
}

impl<'a> Model for Rows<'a> {
    ghost use Rattle.std.specs.Prelude.{ℕ, List};
    ghost use Rattle.sb_value.specs.declared.value.Value.{Value as Item};

    ghost Value = { List (ℕ × List Item) };

    ghost use Rattle.sb_tables.specs.Slots.{live_rows};

    ghost view = { λ r. live_rows r.slots.now };
}

impl<'a> Rows<'a> {
    /// No rows.
    pub fn none() -> Rows<'a>
        ensures { result ≡ [] }
    {
        Rows { slots: &[] }
    }
}

impl<'a> Iterator for Rows<'a> {
    type Item = (u64, &'a Row);

    ghost next_gives = { YieldsFirstBy (λ item. (item.0, item.1.now)) (λ rows. rows) };

    ghost remaining = { item_count (λ rows. rows) };

    fn next(&mut self) -> Option<(u64, &'a Row)> {
        while let Some((slot, rest)) = self.slots.split_first() {
            self.slots = rest;
            if slot.live {
                return Some((slot.number, &slot.row));
            }
        }
        None
    }
}
