//! Where calls that take no memory begin, and where they end.

use std::thread;

/// A place that `bench/harness/refuse.c` sees: all memory is refused from the first such place to the second, from the
/// third to the fourth, and so on. By itself it does nothing.
pub fn mark() {
    thread::yield_now();
}
