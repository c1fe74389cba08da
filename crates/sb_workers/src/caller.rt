//! What the calling thread has.

use crate::rule::Owner;
use crate::work::Placed;

/// The calling thread's part: the end of the deque that it owns, and places for the results of all jobs.
#[derive(Drop)]
pub struct Caller<J: Drop, D: Drop> {
    pub(crate) owner: Owner<J>,
    pub(crate) done: Vec<Placed<D>>,
}
