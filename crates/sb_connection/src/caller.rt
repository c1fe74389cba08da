//! A session that is called with lines, over the volumes of its tenant's trail.
ghost use Rattle.std.specs.Prelude.{◌≡◌, ◌⊎◌, [], false, true, None, Some, IfErr, IfNone, IfSome, MatchOption, OnOk};
ghost use Rattle.sb_desk.specs.Calls.{is_ended};
ghost use Rattle.sb_connection.specs.Callers.{CallsOnce, IsNewcomer, IsOpened, LeavesLast, Resumes, Suspends, caller_in};

use http_server::Log;
use sb_desk::{CallError, Calling, NoGate, Receipt, Stub};
use sb_tenant::Answer;
use sb_value::SessionId;
use std::alloc::Global;
use std::marker::Model;
use std::sync::Wait;

/// A session that is called with lines, one after another, until it is closed. Where its tenant's trail is renewed, it
/// leaves the old volume and waits for the next one.
#[derive(Drop)]
pub struct SessionCaller<S: Calling> {
    /// None while it waits for a volume.
    session: Option<S>,
    /// The session that waits.
    absence: Absence,
    /// What it left in each volume that was ended, and whether a call had ended it there.
    stays: Log<Vec<Receipt>, bool>,
}

/// A session that isn't in a volume.
#[derive(Clone, Copy)]
pub struct Absence {
    pub(crate) tenant: u32,
    pub(crate) session: SessionId,
    pub(crate) ended: bool,
}

impl<S: Calling> Model for SessionCaller<S> {
    ghost use Rattle.std.specs.Prelude.{IfSome, map, option_map};
    ghost use Rattle.sb_connection.specs.Callers.{Caller, IsOpened, caller_by};

    ghost Value = { Caller };

    ghost view = { λ c. caller_by (map (λ l. (l.0.items, l.1)) c.stays.items) (option_map S.seen c.session) c.absence };

    ghost invariant = { λ c. IfSome c.session (λ s. IsOpened (S.seen s)) };
}

impl<S: Calling> SessionCaller<S> {
    /// Takes a session that was just opened.
    pub fn new(session: S) -> SessionCaller<S>
        requires { IsOpened (S.seen session) }
        ensures { result ≡ caller_in [] (S.seen session) }
    {
        SessionCaller {
            session: Some(session),
            absence: Absence {
                tenant: 0,
                session: SessionId::new(0),
                ended: false,
            },
            stays: Log::new(),
        }
    }

    /// The answer of the newest call that gave one in this volume.
    pub fn last(&self) -> Option<&Answer>
        ensures { MatchOption result (self.now.last ≡ None) (λ answer. self.now.last ≡ Some answer.now) }
    {
        match &self.session {
            Some(session) => session.last(),
            None => None,
        }
    }

    /// True if an `end` was answered `ok`.
    pub fn ended(&self) -> bool
        ensures { result ≡ self.now.life.ended }
    {
        match &self.session {
            Some(session) => session.ended(),
            None => self.absence.ended,
        }
    }

    /// True if it has a transaction behind its newest step.
    pub fn has_transaction(&self) -> bool
        ensures is { result ≡ self.now.life.has_transaction }
        ensures waits { self.now.waits ≡ true → result ≡ false }
    {
        match &self.session {
            Some(session) => session.has_transaction(),
            None => false,
        }
    }

    /// True while it waits for the next volume.
    pub fn waits(&self) -> bool
        ensures { result ≡ self.now.waits }
    {
        self.session.is_none()
    }

    /// Makes the step of a line, whose answer is the last one then. While the session waits no step is begun. Error:
    /// NotBegun where there is no memory, Ended behind an `end`.
    pub fn step<R: Wait>(&mut self, rt: &R, alloc: Global, line: &[u8]) -> Result<(), CallError>
        ensures ok { OnOk result (CallsOnce self.old line.now self.new) }
        ensures err { IfErr result (λ e. (self.new ≡ self.old) × (self.old.life.ended ≡ is_ended e)) }
    {
        if let Some(session) = &mut self.session {
            return session.step(rt, alloc, line, &NoGate);
        }
        if self.absence.ended {
            return Err(CallError::Ended);
        }
        Err(CallError::NotBegun)
    }

    /// Leaves the volume: makes the step `end`, unless the session has ended, and gives its receipts. None if it has a
    /// transaction, or waits already; then nothing is done.
    pub fn suspend<R: Wait>(&mut self, rt: &R) -> Option<Stub>
        ensures some { IfSome result (λ stub. Suspends self.old stub self.new) }
        ensures none { IfNone result ((self.new ≡ self.old) × ((self.old.waits ≡ true) ⊎ (self.old.life.has_transaction ≡ true))) }
    {
        if self.has_transaction() {
            return None;
        }
        let ended = self.ended();
        let session = self.session.take()?;
        let stub = session.close(rt);
        self.absence = Absence {
            tenant: stub.tenant,
            session: stub.session,
            ended,
        };
        self.stays = self.stays.and(&stub.receipts, &ended);
        Some(stub)
    }

    /// Goes on with this session of the next volume.
    pub fn resume(&mut self, session: S)
        requires waits { self.old.waits ≡ true }
        requires not_ended { self.old.life.ended ≡ false }
        requires opened { IsNewcomer self.old.life.tenant self.old.life.session (S.seen session) }
        ensures { Resumes self.old (S.seen session) self.new }
    {
        self.session = Some(session);
    }

    /// The session that waits, if it is to be opened again.
    pub(crate) fn absence(&self) -> Option<Absence>
        ensures { MatchOption result ((self.now.waits ≡ false) ⊎ (self.now.life.ended ≡ true))
            (λ a. (self.now.waits ≡ true) × (self.now.life.ended ≡ false) × (a.tenant ≡ self.now.life.tenant) × (a.session ≡ self.now.life.session)) }
    {
        if self.session.is_some() || self.absence.ended {
            return None;
        }
        Some(self.absence)
    }

    /// Makes the step `end`, unless the session has ended, and leaves its receipts. None if it waits for a volume.
    pub fn close<R: Wait>(self, rt: &R) -> Option<Stub>
        ensures { LeavesLast self result }
    {
        let SessionCaller {
            session,
            absence: _,
            stays: _,
        } = self;
        match session {
            Some(session) => Some(session.close(rt)),
            None => None,
        }
    }
}
