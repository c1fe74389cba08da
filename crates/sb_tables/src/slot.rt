//! The place of a row in memory.
ghost use Rattle.std.specs.Prelude.{◌≡◌, ℕ, Contains};
ghost use Rattle.sb_tables.specs.Rising.{Rises, IsFirstFrom, IsPlace};
ghost use Rattle.sb_tables.specs.Slots.{numbers};

use sb_value::Row;

/// A row with its number. A deleted row keeps its slot until the table is settled.
pub(crate) struct Slot {
    pub(crate) number: u64,
    pub(crate) row: Row,
    pub(crate) live: bool,
}

impl Drop for Slot {
    fn drop(self) {
        let Self {
            number: _,
            row: _,
            live: _,
        } = self;
    }
}

/// The place of the first slot whose number isn't below this one.
fn first_from(slots: &[Slot], number: u64) -> usize
    requires { (high : ℕ) × Rises 0 (numbers slots.now) high }
    ensures { IsFirstFrom number (numbers slots.now) result }
{
    let mut low = 0;
    let mut high = slots.len();
    while low < high {
        let middle = low + (high - low) / 2;
        if slots[middle].number < number {
            low = middle + 1;
        } else {
            high = middle;
        }
    }
    low
}

/// The place of the slot of a number that is there.
pub(crate) fn place_of(slots: &[Slot], number: u64) -> usize
    requires rises { (high : ℕ) × Rises 0 (numbers slots.now) high }
    requires there { Contains (numbers slots.now) number }
    ensures { IsPlace number (numbers slots.now) result }
{
    first_from(slots, number)
}
