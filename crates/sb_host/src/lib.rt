//! Cells behind locks, sessions that call them from any thread, and the closing check.
#![tactic(auto)]

mod closed_parts;
mod comparing;
mod equal;
mod finish;
mod gathering;
mod host;
mod hosting;
pub mod laws;
mod lending;
mod lock_group;
mod locks;
mod opening;
mod reading;
mod renewal;
mod session;
mod tenant_renewal;
mod volume_stubs;

pub use comparing::step_number;
pub use finish::{FinishError, Report};
pub use host::Host;
pub use lending::Lending;
pub use opening::Opened;
pub use reading::{Reading, Tried};
pub use renewal::RenewError;
pub use sb_cell::RenewalError;
pub use sb_desk::{
    AttachError, CallError, Calling, Gate, Hosting, Naming, NoGate, Receipt, Receipts, Stub,
};
pub use sb_tenant::{RunningConsideration, RunningStep, StepWatch};
pub use sb_value::{SESSION_LIMIT, SessionId, TenantId};
pub use session::Session;
pub use tenant_renewal::{NotRenewed, Renewal, Renewing};
