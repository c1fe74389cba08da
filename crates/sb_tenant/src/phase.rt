//! How far the sessions are.
ghost use Rattle.std.specs.Prelude.{◌≡◌, ℕ, ◌==◌, if◌then◌else◌};
ghost use Rattle.sb_tenant.specs.Defining.{is_another_under_way};
ghost use Rattle.sb_tenant.specs.Represents.{phase_at};

use sb_value::{SESSION_LIMIT, SessionId};
use std::marker::Model;

/// Closed, open with no transaction, or in a transaction.
#[derive(Clone, Copy, Debug, PartialEq, Eq)]
pub(crate) enum Phase {
    Closed,
    Idle,
    Active,
}

/// The phase of each session.
pub(crate) struct Phases {
    list: [Phase; SESSION_LIMIT],
}

impl Drop for Phases {
    fn drop(self) {
        let Self { list: _ } = self;
    }
}

impl Model for Phases {
    ghost use Rattle.std.specs.Prelude.{List};
    ghost use Rattle.sb_tenant.specs.declared.phase.Phase.{Phase};

    ghost Value = { List Phase };

    ghost view = { λ p. p.list };
}

impl Phases {
    /// All sessions closed.
    pub(crate) fn new() -> Phases
        ensures { (s : ℕ) → phase_at result s ≡ Phase.Closed }
    {
        Phases {
            list: [Phase::Closed; SESSION_LIMIT],
        }
    }

    /// The phase of a session.
    pub(crate) fn get(&self, session: SessionId) -> Phase
        ensures { result ≡ phase_at self.now session }
    {
        self.list[session.index()]
    }

    /// Another phase of a session; the others stay.
    pub(crate) fn set(&mut self, session: SessionId, phase: Phase)
        ensures { (s : ℕ) → phase_at self.new s ≡ (if s == session then phase else phase_at self.old s) }
    {
        self.list[session.index()] = phase;
    }

    /// True if another session has a transaction.
    pub(crate) fn is_another_under_way(&self, session: SessionId) -> bool
        ensures { result ≡ is_another_under_way self.now session }
    {
        for other in 0..SESSION_LIMIT {
            if other != session.index() && self.list[other] == Phase::Active {
                return true;
            }
        }
        false
    }
}
