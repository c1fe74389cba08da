//! What is called while a cell's lock is held, before a step.
use sb_value::SessionId;

/// A place to stop at, within the lock of a tenant's cell.
pub trait Gate {
    fn inside(&self, tenant: u32, session: SessionId);
}

/// Nothing is done there.
pub struct NoGate;

impl Gate for NoGate {
    fn inside(&self, _tenant: u32, _session: SessionId) {}
}
