//! A tenant as a script: lines that make an alike tenant of a fresh one, played before they are given.
#![tactic(auto)]

mod copy;
mod draft;
mod dumps;
mod order;
mod play;
mod rows;
mod rules;
mod script;
mod stand_ins;
mod tables;

pub use copy::{draft_of, made_by};
pub use dumps::{DumpError, dump};
pub use script::Script;
