//! The frontend side of PostgreSQL's protocol: what a client's messages ask of a session, and what they are answered.
#![tactic(auto)]

mod argument;
mod bind;
mod cell;
mod columns;
mod connection;
mod connection_state;
mod considered;
mod conversation;
mod demand;
mod denial;
mod describe;
mod description;
mod extended;
mod form;
mod names;
mod output;
mod phase;
mod play;
mod prepare;
mod reply;
mod report;
mod rows;
mod script;
mod session;
mod start;
mod taken;
mod tell;
mod without;
mod workbench;

pub use connection::FrontendConnection;
pub use describe::{Describe, Heading};
pub use phase::Phase;
pub use reply::Reply;
pub use session::LineSession;
pub use start::{OpenError, SESSIONS, SessionSource};
