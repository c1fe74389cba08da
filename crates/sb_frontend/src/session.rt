//! A session that is called with lines.
ghost use Rattle.std.specs.Prelude.{ℕ, ◌≡◌, ◌++◌, ◌∷◌, [], Bool, List};
ghost use Rattle.sb_frontend.specs.Replies.{Exchange, Replied, exchange, replied};

use crate::reply::Reply;
use std::alloc::Global;
use std::sync::Wait;

/// A session of a tenant, which is called with lines, one after the other.
pub trait LineSession: Drop {
    // its tenant, and its number there
    ghost tenant: { Self → ℕ };

    ghost number: { Self → ℕ };

    // its calls so far
    ghost exchanges: { Self → List Exchange };

    // the reply to the newest one
    ghost newest: { Self → Replied };

    // behind that it has a transaction
    ghost has: { Self → Bool };

    /// Its number.
    fn number(&self) -> u32
        ensures { result ≡ number self.now };

    /// True if it has a transaction.
    fn has_transaction(&self) -> bool
        ensures { result ≡ has self.now };

    /// The reply to the newest call.
    fn reply(&self) -> Reply<'_>
        ensures { replied result ≡ newest self.now };

    /// Calls it with a line.
    fn call<R: Wait>(&mut self, rt: &R, alloc: Global, line: &[u8])
        ensures called { exchanges self.new ≡ exchanges self.old ++ exchange line.now (newest self.new) (has self.new) ∷ [] }
        ensures tenant { tenant self.new ≡ tenant self.old }
        ensures number { number self.new ≡ number self.old };
}
