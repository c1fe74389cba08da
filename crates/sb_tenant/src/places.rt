//! Lists that grow by an element with each step.
ghost use Rattle.std.specs.Prelude.{◌≡◌, ◌+◌, ◌<◌, ◌≤◌, OnErr, OnOk, vec_len, vec_capacity};

use std::alloc::{AllocError, Global};

/// From so many places on a list stands in pages of its own, which the system moves without copying.
const PAGES_OF_ITS_OWN: usize = 8192;

/// Room for so many more elements. Few that have to move for it go to the heap of the calling thread: to grow in place
/// keeps the lock of the heap that they stand in, which another thread may use, until all are copied. Many grow in
/// place, for they stand in no heap. Error: out of memory.
pub fn reserve_here<T: Drop>(
    alloc: Global,
    list: &mut Vec<T>,
    additional: usize,
) -> Result<(), AllocError>
    ensures items { list.new.items ≡ list.old.items }
    ensures len { vec_len list.new ≡ vec_len list.old }
    ensures ok { OnOk result (vec_len list.new + additional ≤ vec_capacity list.new) }
    ensures capacity { vec_capacity list.old ≤ vec_capacity list.new }
    ensures full { OnErr result (vec_capacity list.old < vec_len list.old + additional) }
{
    let Some(least) = list.len().checked_add(additional) else {
        return Err(AllocError);
    };
    if least <= list.capacity() {
        return Ok(());
    }
    if list.capacity() >= PAGES_OF_ITS_OWN {
        return list.reserve(additional);
    }
    let twice = list.capacity().saturating_mul(2);
    let mut larger = Vec::with_capacity(alloc, least.max(twice))?;
    larger.append(list)?;
    *list = larger;
    Ok(())
}
