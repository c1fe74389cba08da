//! A host as one that is known by what is asked of it.

use crate::host::Host;
use crate::session::Session;
use sb_desk::{AttachError, CallError, Calling, Gate, Hosting, Naming, Receipt, Stub};
use sb_tenant::Answer;
use std::alloc::Global;
use std::sync::Wait;

impl<'h, N: Naming> Calling for Session<'h, N> {
    ghost seen = { λ s. s };

    fn last(&self) -> Option<&Answer> {
        self.last()
    }

    fn list(&self) -> &[Receipt] {
        self.list()
    }

    fn ended(&self) -> bool {
        self.ended()
    }

    fn has_transaction(&self) -> bool {
        self.has_transaction()
    }

    fn step<R: Wait, G: Gate>(
        &mut self,
        rt: &R,
        alloc: Global,
        line: &[u8],
        gate: &G,
    ) -> Result<(), CallError> {
        self.step_with(rt, alloc, line, gate)
    }

    fn close<R: Wait>(self, rt: &R) -> Stub {
        self.close(rt)
    }
}

impl<'h, N: Naming> Hosting for &'h Host<N> {
    type Session = Session<'h, N>;

    ghost tenants = { λ h. h.now };

    ghost cells = { N.cells };

    fn tenants(&self) -> u32 {
        (**self).tenants()
    }

    fn cells(&self) -> u32 {
        (**self).cells()
    }

    fn attach<R: Wait>(
        &self,
        rt: &R,
        alloc: Global,
        tenant: u32,
        session: u32,
    ) -> Result<Session<'h, N>, AttachError> {
        (**self).attach(rt, alloc, tenant, session)
    }
}
