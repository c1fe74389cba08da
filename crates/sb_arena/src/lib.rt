//! Places with numbers over raw memory, each free or with a value, specified as a list.
#![tactic(auto)]

mod arena;
mod block;
mod cells;
mod moves;

pub use arena::{Arena, BLOCK_PLACES};
