//! What a command asks of its session, and what the session refuses.
ghost use Rattle.std.specs.Prelude.{◌≡◌, if◌then◌else◌, None, Some};
ghost use Rattle.sb_syntax.specs.Views.{command as tree_of};
ghost use Rattle.sb_tenant.specs.ClassView.{class_seen};
ghost use Rattle.sb_tenant.specs.Defining.{is_another_under_way, phase_refusal};
ghost use Rattle.sb_tenant.specs.Walk as spec;

use crate::phase::{Phase, Phases};
use sb_syntax::Command;
use sb_value::{Refusal, SessionId};

/// `open`, `end` and `begin` have a class each; the others define what has a name, or work in a
/// transaction.
#[derive(Clone, Copy, Debug, PartialEq, Eq)]
pub(crate) enum Class {
    Opens,
    Ends,
    Begins,
    Defines,
    Works,
}

/// The class of a command.
pub(crate) fn class_of(command: &Command) -> Class
    ensures { class_seen result ≡ spec.class_of (tree_of command.now) }
{
    match command {
        Command::OpenSession => Class::Opens,
        Command::EndSession => Class::Ends,
        Command::Begin => Class::Begins,
        Command::Definition(_) => Class::Defines,
        Command::InTransaction(_) => Class::Works,
    }
}

impl Phases {
    /// The reason for which a session refuses a command of this class.
    pub(crate) fn refusal(&self, class: Class, session: SessionId) -> Option<Refusal>
        ensures { result ≡ phase_refusal (class_seen class) self.now session }
    {
        let phase = self.get(session);
        match class {
            Class::Opens => match phase {
                Phase::Closed => None,
                Phase::Idle => Some(Refusal::AlreadyOpen),
                Phase::Active => Some(Refusal::AlreadyOpen),
            },
            Class::Ends => match phase {
                Phase::Closed => Some(Refusal::NotOpen),
                Phase::Idle => None,
                Phase::Active => None,
            },
            Class::Begins => match phase {
                Phase::Closed => Some(Refusal::NotOpen),
                Phase::Idle => None,
                Phase::Active => Some(Refusal::InTransaction),
            },
            Class::Defines => match phase {
                Phase::Closed => Some(Refusal::NotOpen),
                Phase::Idle => self.busy(session),
                Phase::Active => Some(Refusal::InTransaction),
            },
            Class::Works => match phase {
                Phase::Closed => Some(Refusal::NotOpen),
                Phase::Idle => Some(Refusal::NoTransaction),
                Phase::Active => None,
            },
        }
    }

    /// Refuses where another session has a transaction.
    fn busy(&self, session: SessionId) -> Option<Refusal>
        ensures { result ≡ (if is_another_under_way self.now session then Some Refusal.Busy else None) }
    {
        if self.is_another_under_way(session) {
            Some(Refusal::Busy)
        } else {
            None
        }
    }
}
