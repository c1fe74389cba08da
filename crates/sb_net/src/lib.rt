//! Net effects of the changes in a log, and what they trigger, specified by the changes of a session as a list.
#![tactic(auto)]

mod effect;
mod operations;
mod scope;
mod span;
mod transition;
mod triggers;

pub use effect::{NetOf, net};
pub use operations::{NetOperations, meets, net_operations};
pub use transition::transition_tables;
pub use triggers::{is_triggered, is_triggered_anew};
