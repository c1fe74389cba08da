//! The log of changes: what every log promises, specified as a list of changes in rising time,
//! a log kept as a plain list, and one hashed over the places of an arena.
#![tactic(auto)]

mod back;
mod bucket;
mod find;
mod heads;
mod key;
mod lists;
mod log;
mod node;
mod places;
mod plain;
mod raw;
mod search;
mod spot;
mod walks;

pub use log::ChangeLog;
pub use plain::PlainLog;
pub use raw::RawLog;
pub use spot::Spot;
pub use walks::{ByOp, ByTuple};
