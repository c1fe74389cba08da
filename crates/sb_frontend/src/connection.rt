//! A connection as a value over bytes: bytes come in and bytes go out, and it makes no system call.
ghost use Rattle.std.specs.Prelude.{◌≡◌, ◌<◌, ◌≤◌, ◌↔◌, [], IfSome, IsFalse, IsTrue, MatchOption, None, OnErr, OnOk, length, true};
ghost use Rattle.sb_frontend.specs.Conversations.{has_in};
ghost use Rattle.sb_frontend.specs.Dialogues as spec;

use crate::connection_state::ConnectionState;
use crate::describe::Describe;
use crate::start::SessionSource;
use std::alloc::{AllocError, Global};
use std::marker::{Model, PhantomData};
use std::sync::Wait;

/// A connection as a value: give it received bytes while it `wants_read`, `advance` it, and send what is `pending` while
/// it `wants_write`, until it `is_done`. It can be ended at any time.
pub struct FrontendConnection<O: SessionSource> {
    state: ConnectionState<O::Session>,
    by: PhantomData<O>,
}

impl<O: SessionSource> Drop for FrontendConnection<O> {
    fn drop(self) {
        let Self { state: _, by: _ } = self;
    }
}

impl<O: SessionSource> Model for FrontendConnection<O> {
    ghost use Rattle.sb_frontend.specs.Dialogues.{Converses, Dialogue};

    ghost Value = { Dialogue };

    ghost view = { λ c. c.state };

    ghost invariant = { λ c. Converses O.source c.state };
}

impl<O: SessionSource> FrontendConnection<O> {
    /// A connection before its first byte. It allocates nothing.
    pub fn new(alloc: Global) -> FrontendConnection<O>
        ensures { result ≡ spec.nothing_yet }
    {
        FrontendConnection {
            state: ConnectionState::new(alloc),
            by: PhantomData,
        }
    }

    /// True if more may come, and little waits to be sent.
    pub fn wants_read(&self) -> bool
        ensures { result ≡ spec.may_receive self.now }
    {
        self.state.wants_read()
    }

    /// Takes the next bytes of the client. Error: out of memory; then nothing is taken.
    pub fn receive(&mut self, bytes: &[u8]) -> Result<(), AllocError>
        ensures ok { OnOk result (self.new ≡ spec.after_receiving self.old bytes.now) }
        ensures err { OnErr result (self.new ≡ self.old) }
    {
        self.state.receive(bytes)
    }

    /// The client sends no more.
    pub fn receive_end(&mut self)
        ensures { self.new ≡ spec.after_end self.old }
    {
        self.state.receive_end();
    }

    /// Answers messages that are complete, at most 64. True if more may be answered at once.
    pub fn advance<R: Wait, C: Describe>(&mut self, rt: &R, source: &O, describe: &C) -> bool
        ensures answers { spec.Answers O.source self.old self.new }
        ensures settles { IsFalse result → spec.IsSettled self.new }
        ensures goes { IsTrue result → length self.new.waiting < length self.old.waiting }
    {
        self.state.advance(rt, source, describe)
    }

    /// The bytes that are to be sent.
    pub fn pending(&self) -> &[u8]
        ensures { result.now ≡ self.now.out.bytes }
    {
        self.state.pending()
    }

    /// So many bytes were sent.
    pub fn note_sent(&mut self, count: usize)
        requires { count ≤ length self.old.out.bytes }
        ensures { self.new ≡ spec.after_sending self.old count }
    {
        self.state.note_sent(count);
    }

    /// True if there is something to send.
    pub fn wants_write(&self) -> bool
        ensures { IsTrue result ↔ (0 < length self.now.out.bytes) }
    {
        !self.state.pending().is_empty()
    }

    /// True if no message is answered any more, and all is sent.
    pub fn is_done(&self) -> bool
        ensures { IsTrue result ↔ ((spec.is_over self.now.at.phase ≡ true) × (self.now.out.bytes ≡ [])) }
    {
        self.state.is_over() && self.state.pending().is_empty()
    }

    /// True if there was no memory for a message.
    pub fn has_failed(&self) -> bool
        ensures { result ≡ self.now.out.failed }
    {
        self.state.has_failed()
    }

    /// True if its session has a transaction.
    pub fn has_transaction(&self) -> bool
        ensures { result ≡ has_in self.now.at.spot }
    {
        self.state.has_transaction()
    }

    /// Ends the connection. Its session, if it was opened.
    pub fn into_session(self) -> Option<O::Session>
        // All that it did from its first byte on.
        ensures conversation { spec.Converses O.source self }
        ensures session { MatchOption result (self.at.spot ≡ None)
            (λ s. IfSome self.at.spot (λ spot. (spot.exchanges ≡ O.Session.exchanges s) × (spot.has ≡ O.Session.has s))) }
    {
        let FrontendConnection { state, by: _ } = self;
        state.into_session()
    }
}
