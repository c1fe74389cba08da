//! Loops over the places of a block.
ghost use Rattle.std.specs.Prelude.{◌≡◌, Some, None, length, replicate};
ghost use Rattle.sb_arena.specs.Places.{AreFull};

use crate::cells::{Cells, Start};

/// Writes `None` into each place, all of which are empty.
pub(crate) fn fill<T>(cells: &mut Cells<Option<T>>, start: Start<Option<T>>, count: usize)
    requires { (start.ptr ≡ cells.old.at) × (cells.old.slots ≡ replicate count None) }
    ensures { (cells.new.at ≡ cells.old.at) × (cells.new.slots ≡ replicate count (Some None)) }
{
    let mut i = 0;
    while i < count {
        cells.write(start, i, None);
        i += 1;
    }
}

/// Drops the value of each place.
pub(crate) fn clear<T: Drop>(cells: &mut Cells<T>, start: Start<T>, count: usize)
    requires { (start.ptr ≡ cells.old.at) × (count ≡ length cells.old.slots) × AreFull cells.old.slots }
    ensures { (cells.new.at ≡ cells.old.at) × (cells.new.slots ≡ replicate count None) }
{
    let mut i = 0;
    while i < count {
        drop(cells.read(start, i));
        i += 1;
    }
}
