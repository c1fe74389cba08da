//! What is asked of a host by who doesn't need its cells, and of a session that it opens.
ghost use Rattle.std.specs.Prelude.{◌≡◌, ◌<◌, ℕ, Err, IfErr, MatchOption, MatchResult, None, Ok, OnOk, Some};
ghost use Rattle.sb_desk.specs.Calls.{AnswersOnce, Attached, Session as ItsSession, is_ended};
ghost use Rattle.sb_desk.specs.Stubs.{LeavesStub};

use crate::desk::{AttachError, CallError};
use crate::gate::Gate;
use crate::receipts::Receipt;
use crate::stub::Stub;
use sb_tenant::Answer;
use std::alloc::Global;
use std::sync::Wait;

/// A session of a host.
pub trait Calling: Drop {
    // what a clause sees of it
    ghost seen: { Self → ItsSession };

    /// The answer of the newest call that gave one.
    fn last(&self) -> Option<&Answer>
        ensures { MatchOption result ((seen self.now).last ≡ None) (λ answer. (seen self.now).last ≡ Some answer.now) };

    /// The receipts so far.
    fn list(&self) -> &[Receipt]
        ensures { result.now ≡ (seen self.now).list };

    /// True if an `end` was answered `ok`.
    fn ended(&self) -> bool
        ensures { result ≡ (seen self.now).ended };

    /// True if the session has a transaction behind its newest step.
    fn has_transaction(&self) -> bool
        ensures { result ≡ (seen self.now).has_transaction };

    /// Makes the step of a line, with a gate inside the lock. Its answer is the last one then.
    fn step<R: Wait, G: Gate>(
        &mut self,
        rt: &R,
        alloc: Global,
        line: &[u8],
        gate: &G,
    ) -> Result<(), CallError>
        ensures ok { OnOk result (AnswersOnce (seen self.old) line.now (seen self.new)) }
        ensures err { IfErr result (λ e. (seen self.new ≡ seen self.old) × ((seen self.old).ended ≡ is_ended e)) };

    /// Makes the step `end`, unless the session has ended, and leaves its receipts.
    fn close<R: Wait>(self, rt: &R) -> Stub
        ensures { LeavesStub (seen self) result };
}

/// A host, by which its sessions are opened.
pub trait Hosting: Copy {
    type Session: Calling;

    // how many tenants it has
    ghost tenants: { Self → ℕ };

    // how many cells it has
    ghost cells: { ℕ };

    /// The number of tenants.
    fn tenants(&self) -> u32
        ensures { result ≡ tenants self.now };

    /// The number of cells. A tenant's cell is its number modulo this one.
    fn cells(&self) -> u32
        ensures is { result ≡ cells }
        ensures some { 0 < result };

    /// Opens a session of a tenant.
    fn attach<R: Wait>(
        &self,
        rt: &R,
        alloc: Global,
        tenant: u32,
        session: u32,
    ) -> Result<Self::Session, AttachError>
        ensures { MatchResult result
            (λ opened. Attached (tenants self.now) tenant session (Ok (Self.Session.seen opened)))
            (λ e. Attached (tenants self.now) tenant session (Err e)) };
}
