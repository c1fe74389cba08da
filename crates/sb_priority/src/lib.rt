//! The order of a tenant's rules, specified by the transitive closure of the pairs that stand.
#![tactic(auto)]

mod closure;
mod list;
mod pairs;
mod priorities;
mod rows;

pub use priorities::{Cycle, Priorities};
