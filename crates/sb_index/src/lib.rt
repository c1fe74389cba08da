//! The rules that an operation may trigger, by tenant, table, operation and column, specified by the set of these.
#![tactic(auto)]

mod index;
mod table;
mod tenant;

pub use index::RuleIndex;
