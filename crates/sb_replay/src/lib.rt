//! An input replayed on a host: its commands are read by session, each session is called with its own, in rounds that
//! are shared out among workers, and what they were answered is written session by session.
#![tactic(auto)]

mod closing;
mod error;
mod finishing;
mod fresh;
pub mod laws;
mod part;
mod pool;
mod reading;
mod replaying;
mod round;
mod script;
mod sheet;

pub use error::{ReplayError, ScriptError};
pub use fresh::{Size, replay_fresh};
pub use pool::{Done, Job, Pool, PoolError};
pub use reading::read_script;
pub use replaying::replay;
