//! What is done before replies are sent.
ghost use Rattle.std.specs.Prelude.{◌≡◌, ℕ, Bool, List};

use std::sync::Wait;

/// The result of a commit.
#[derive(Clone, Copy, Debug, PartialEq, Eq)]
pub enum CommitStatus {
    All,
    /// Out of memory. The replies wait, and the commit is tried again.
    NotYet,
    /// No commit is possible any more. The server ends without sending the replies.
    Failed,
}

/// Makes answers durable before the replies are sent.
pub trait CommitHook {
    // anything is kept
    ghost is_set: { Self → Bool };

    // all that these tenants were answered so far is kept
    ghost keeps: { Self → List ℕ → Type 0 };

    /// True if anything is committed. If not, each connection is served by itself.
    fn is_set(&self) -> bool
        ensures { result ≡ is_set self.now };

    /// Commits all that these tenants were answered so far.
    fn keep<T: Wait>(&self, rt: &T, tenants: &[u32]) -> CommitStatus
        ensures { result ≡ CommitStatus.All → keeps self.now tenants.now };
}

/// A server without a journal: there is nothing to commit.
#[derive(Clone, Copy, Debug)]
pub struct NoJournal;

impl CommitHook for NoJournal {
    ghost use Rattle.std.specs.Prelude.{false, ⊤};

    ghost is_set = { λ _. false };

    ghost keeps = { λ _ _. ⊤ };

    fn is_set(&self) -> bool {
        false
    }

    fn keep<T: Wait>(&self, _rt: &T, _tenants: &[u32]) -> CommitStatus {
        CommitStatus::All
    }
}
