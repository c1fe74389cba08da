//! One tenant's steps: a database of its own, specified by the replay of its trail.
#![tactic(auto)]

mod alike;
mod answer;
mod asker;
mod bound;
mod class;
mod define;
mod end_lines;
pub mod laws;
mod lines;
mod names;
mod phase;
mod places;
mod processing;
mod quota;
mod reply;
mod rule_commands;
mod ruleset_commands;
mod statements;
mod store;
mod table_commands;
mod tenant;
mod told;
mod volume;
mod work;

pub use alike::laws::{
    alike_answer_alike, alike_at_rest_are_alike, renewal_is_unseen, sessions_end_and_open_alone,
};
pub use alike::{are_alike, is_busy};
pub use bound::Bound;
pub use lines::KnownLines;
pub use places::reserve_here;
pub use reply::{Answer, Entry, Line, NamedTrace, Reply, RuleError, RuleName};
pub use sb_process::{RunningConsideration, RunningStep, StepWatch};
pub use tenant::{END, NotBegun, OPEN, Sent, TRAIL_LIMIT, Tenant};
pub use volume::Volume;
