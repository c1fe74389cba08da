//! Connections of a listener. One thread takes them and reads their first lines; workers serve them, each those of its
//! cells, and wait for many at once.
#![tactic(auto)]

mod accept_thread;
mod background_task;
mod client_connection;
mod commit_hook;
mod counts;
mod door;
mod guard;
mod input;
mod last_lines;
mod mailbox;
mod pending_connection;
mod poller;
mod renewals;
mod renewing;
mod reply_metrics;
mod server;
mod server_metrics;
mod slow_line;
mod socket;
mod sweeps;
mod time_shares;
mod told;
mod turns;
mod worker;

pub use background_task::{BackgroundTask, NoBackgroundTask, ShutdownSignal};
pub use commit_hook::{CommitHook, CommitStatus, NoJournal};
pub use counts::{Cause, Count, LIMITS};
pub use renewals::{NoRenewals, Renewals};
pub use sb_connection::{
    Admission, Answered, ConnectionEvent, Open, SessionCaller, SessionName, Slow, Watch,
};
pub use server::{ServeError, ServerConfig, Terms, serve_all};
pub use server_metrics::ServerMetrics;
pub use slow_line::SlowLine;
