//! Table locks of the sessions of a tenant, specified by who holds which table in which mode.
#![tactic(auto)]

mod locks;

pub use locks::{Locked, Locks};
