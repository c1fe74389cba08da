//! A session: it borrows its host, and each of its calls is one step.
ghost use Rattle.std.specs.Prelude.{◌≡◌, false, None, Some, IfErr, IfOk, MatchOption, OnOk};
ghost use Rattle.sb_desk.specs.Calls.{AnswersOnce, IsNumbered, is_ended};
ghost use Rattle.sb_desk.specs.Stubs.{LeavesReceipts, LeavesStub};

use crate::host::Host;
use sb_desk::{CallError, Gate, Naming, NoGate, Receipt, Receipts, Stub};
use sb_tenant::Answer;
use std::alloc::Global;
use std::marker::Model;
use std::sync::Wait;

/// One session, which borrows its host.
pub struct Session<'h, N: Naming> {
    pub(crate) host: &'h Host<N>,
    pub(crate) receipts: Receipts<N>,
}

impl<'h, N: Naming> Drop for Session<'h, N> {
    fn drop(self) {
        let Self {
            host: _,
            receipts: _,
        } = self;
    }
}

impl<'h, N: Naming> Model for Session<'h, N> {
    ghost use Rattle.sb_desk.specs.Calls.{Session, shown};

    ghost Value = { Session };

    ghost view = { λ s. shown s.receipts };
}

impl<'h, N: Naming> Session<'h, N> {
    ghost use Rattle.std.specs.Prelude.{⊤};
    ghost use Rattle.std.specs.Borrow.{sem, follows_so};
    ghost use mathlib.Core.Option.{none};
    ghost use Rattle.sb_host.specs.Lent.{CallsTo, session_of};

    /// The answer of the newest call that gave one.
    pub fn last(&self) -> Option<&Answer>
        ensures { MatchOption result (self.now.last ≡ None) (λ answer. self.now.last ≡ Some answer.now) }
    {
        self.receipts.last()
    }

    /// True if an `end` was answered `ok`.
    pub fn ended(&self) -> bool
        ensures { result ≡ self.now.ended }
    {
        self.receipts.ended()
    }

    /// True if it has a transaction behind its newest step.
    pub fn has_transaction(&self) -> bool
        ensures { result ≡ self.now.has_transaction }
    {
        self.receipts.has_transaction()
    }

    /// The receipts so far.
    pub fn list(&self) -> &[Receipt]
        ensures { result.now ≡ self.now.list }
    {
        self.receipts.list()
    }

    /// Makes the one step of a line. The place of its receipt is had before the lock is taken.
    pub(crate) fn step_with<R: Wait, G: Gate>(
        &mut self,
        rt: &R,
        alloc: Global,
        line: &[u8],
        gate: &G,
    ) -> Result<(), CallError>
        ensures ok { OnOk result (AnswersOnce self.old line.now self.new) }
        ensures err { IfErr result (λ e. (self.new ≡ self.old) × (self.old.ended ≡ is_ended e)) }
    {
        if !self.receipts.ended() && self.receipts.prepare(alloc, line).is_err() {
            return Err(CallError::NotBegun);
        }
        self.host.enter(rt, alloc, &mut self.receipts, gate)
    }

    /// Makes the step of a line and lends its answer, with a gate inside the lock. Error: Ended behind an `end`, or
    /// NotBegun where there is no memory.
    pub fn call_with<R: Wait, G: Gate>(
        &mut self,
        rt: &R,
        alloc: Global,
        line: &[u8],
        gate: &G,
    ) -> Result<&Answer, CallError>
        ensures ok { OnOk result (self.old.ended ≡ false) }
        ensures numbered { IfOk result (λ answer. IsNumbered answer.now) }
        ensures err { IfErr result (λ e. self.old.ended ≡ is_ended e) }
        ensures* after { let row = session_of N.row N.table N.tenants N.cells N.bound N.name N.parts in
            sem 𝓛 (follows_so row row self.entry.ghost_name none (λ _ _. ⊤) (λ n. CallsTo self.old line.now result n)) }
    {
        self.step_with(rt, alloc, line, gate)?;
        match self.receipts.last() {
            Some(answer) => Ok(answer),
            None => unreachable!(),
        }
    }

    /// Makes the step of a line and lends its answer. Error: Ended behind an `end`, or NotBegun where there is no
    /// memory.
    pub fn call<R: Wait>(
        &mut self,
        rt: &R,
        alloc: Global,
        line: &[u8],
    ) -> Result<&Answer, CallError>
        ensures ok { OnOk result (self.old.ended ≡ false) }
        ensures numbered { IfOk result (λ answer. IsNumbered answer.now) }
        ensures err { IfErr result (λ e. self.old.ended ≡ is_ended e) }
        ensures* after { let row = session_of N.row N.table N.tenants N.cells N.bound N.name N.parts in
            sem 𝓛 (follows_so row row self.entry.ghost_name none (λ _ _. ⊤) (λ n. CallsTo self.old line.now result n)) }
    {
        self.call_with(rt, alloc, line, &NoGate)
    }

    /// Makes the step `end`, unless the session has ended, and leaves its receipts. The host keeps their parts of the
    /// ledger.
    pub fn close<R: Wait>(self, rt: &R) -> Stub
        ensures { LeavesStub self.entry result }
    {
        let host = self.host;
        let receipts = self.leave(rt);
        let tenant = receipts.tenant();
        let session = receipts.session();
        let (receipts, share) = receipts.into_parts();
        host.closed_parts
            .put(rt, tenant, receipts.len() as u64, share);
        Stub {
            tenant,
            session,
            receipts,
        }
    }

    /// Makes the step `end`, unless the session has ended, and leaves its receipts with their parts of the ledger.
    fn leave<R: Wait>(self, rt: &R) -> Receipts<N>
        ensures { LeavesReceipts self.entry result }
    {
        let Session { host, mut receipts } = self;
        host.leave(rt, &mut receipts);
        receipts
    }
}
