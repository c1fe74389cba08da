//! A cell as a host's lock holds it, and a session's receipts, with what ties the two together.
#![tactic(auto)]

mod desk;
mod gate;
mod hosting;
mod naming;
mod receipts;
pub mod seats;
mod stub;

pub use desk::{AttachError, CallError, Desk, NotRenewed, Renewed};
pub use gate::{Gate, NoGate};
pub use hosting::{Calling, Hosting};
pub use naming::Naming;
pub use receipts::{Receipt, Receipts};
pub use stub::Stub;
