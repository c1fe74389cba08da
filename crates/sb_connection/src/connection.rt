//! A connection as a value over bytes: bytes come in and bytes go out, and it makes no system call.
ghost use Rattle.std.specs.Prelude.{◌≡◌, ◌⊎◌, ◌<◌, ◌≤◌, ◌↔◌, length, IfNone, IfOk, IfSome, IsFalse, IsTrue, None, OnErr, OnOk, [], false, is_some, true};
ghost use Rattle.sb_connection.specs.Conversation.{hosting_by};
ghost use Rattle.sb_connection.specs.Admission.{LetsIn};
ghost use Rattle.sb_connection.specs.Exchanges.{IsClosed};
ghost use Rattle.sb_connection.specs.History.{BindsAtMost, Converses, IsSessionOf, IsSettled, MayReceive, SameStreams, Transacts, after_end, after_receiving, after_resuming, after_sending, after_suspending, nothing_yet, pending_limit};
ghost use Rattle.sb_connection.specs.Standing.{is_open};
ghost use Rattle.sb_connection.specs.Traffic.{after_write};

use crate::admission::Doorkeeper;
use crate::connection_end::ConnectionEnd;
use crate::first_line::SessionName;
use crate::protocol_state::ProtocolState;
use crate::serve::{close, tell_end};
use crate::state::State;
use crate::stream::Stream;
use crate::watch::Watch;
use sb_desk::{AttachError, Hosting, Stub};
use std::alloc::{AllocError, Global};
use std::io;
use std::marker::Model;
use std::sync::Wait;

/// The most lines that are answered before other connections have their turn.
const LINES_A_TURN: usize = 64;

/// A connection as a value: give it received bytes while it `wants_read`, `advance` it, and `send` while it
/// `wants_write`, until it `is_done`. It can be closed at any time.
pub struct Connection<H: Hosting, D: Doorkeeper> {
    protocol_state: ProtocolState<H, D>,
}

impl<H: Hosting, D: Doorkeeper> Drop for Connection<H, D> {
    fn drop(self) {
        let Self { protocol_state: _ } = self;
    }
}

impl<H: Hosting, D: Doorkeeper> Model for Connection<H, D> {
    ghost use Rattle.sb_connection.specs.History.{History};
    ghost use Rattle.sb_connection.specs.ProtocolState.{Holds};

    ghost Value = { History };

    ghost view = { λ c. c.protocol_state.history };

    ghost invariant = { λ c. Holds D.policy.admits c.protocol_state };
}

impl<H: Hosting, D: Doorkeeper> Connection<H, D> {
    /// A connection before its first byte. `first` is the number of the host's first tenant. It allocates nothing.
    pub fn new(alloc: Global, host: H, first: u32, keyed: bool) -> Connection<H, D>
        requires { keyed ≡ D.policy.keyed }
        ensures { result ≡ nothing_yet (hosting_by keyed first (H.tenants host)) }
    {
        Connection {
            protocol_state: ProtocolState::new(alloc, host, first, keyed),
        }
    }

    /// True if all lines so far are answered, more may come, and little waits to be sent.
    pub fn wants_read(&self) -> bool
        ensures may { IsTrue result → MayReceive self.now }
        ensures wants { MayReceive self.now → self.now.pending ≡ [] → IsTrue result }
        ensures few { IsTrue result → length self.now.pending < pending_limit }
    {
        self.protocol_state.wants_read()
    }

    /// Takes the next bytes of the client. Error: out of memory; then nothing is taken.
    pub fn receive(&mut self, bytes: &[u8]) -> Result<(), AllocError>
        requires { MayReceive self.old }
        ensures ok { OnOk result (self.new ≡ after_receiving self.old bytes.now) }
        ensures err { OnErr result (self.new ≡ self.old) }
    {
        self.protocol_state.receive(bytes)
    }

    /// The client sends no more.
    pub fn receive_end(&mut self)
        requires { MayReceive self.old }
        ensures { self.new ≡ after_end self.old }
    {
        self.protocol_state.end();
    }

    /// Answers complete lines, at most 64, and no more once the watch says that the turn is over. True if more may be
    /// answered at once.
    pub fn advance<T: Wait, V: Watch>(&mut self, rt: &T, watch: &V, doorkeeper: &D) -> bool
        ensures streams { SameStreams self.old self.new }
        ensures settles { IsFalse result → IsSettled self.new }
        ensures goes { IsTrue result → length self.new.waiting < length self.old.waiting }
        ensures lets { LetsIn D.policy.admits self.old self.new }
        ensures stays { self.old.attached ≡ true → self.new.attached ≡ true }
        // replies don't pile up
        ensures full { pending_limit ≤ length self.old.pending → self.new ≡ self.old }
    {
        for line in 0..LINES_A_TURN {
            if line > 0 && watch.is_turn_over() {
                return true;
            }
            if !self.protocol_state.step(rt, watch, doorkeeper) {
                return false;
            }
        }
        true
    }

    /// Makes one write. Returns how many bytes were sent, or why none. Error: the stream's.
    pub fn send<S: Stream>(&mut self, stream: &mut S) -> io::Result<usize>
        ensures count { IfOk result (λ count. count ≤ length self.old.pending) }
        ensures sent { IfOk result (λ count. self.new ≡ after_sending self.old count) }
        ensures unsent { OnErr result (self.new ≡ self.old) }
        ensures traffic { S.traffic stream.new ≡ after_write (S.traffic stream.old) self.old.pending result }
    {
        self.protocol_state.send(stream)
    }

    /// True if there is something to send.
    pub fn wants_write(&self) -> bool
        ensures { IsTrue result ↔ (0 < length self.now.pending) }
    {
        !self.protocol_state.pending().is_empty()
    }

    /// True if a reply that is to be sent binds: behind its line the session has no transaction.
    pub fn binds(&self) -> bool
        ensures is { IsTrue result ↔ (0 < self.now.binding) }
        ensures others { self.now.attached ≡ true → BindsAtMost self.now }
    {
        self.protocol_state.binding() > 0
    }

    /// True if no line is answered any more, and all replies are sent.
    pub fn is_done(&self) -> bool
        ensures { IsTrue result ↔ ((is_open self.now.state ≡ false) × (self.now.pending ≡ [])) }
    {
        !self.protocol_state.state().is_open() && self.protocol_state.pending().is_empty()
    }

    /// True if there was no memory for a reply.
    pub fn has_failed(&self) -> bool
        ensures { IsTrue result ↔ (self.now.state ≡ State.Failed) }
    {
        matches!(self.protocol_state.state(), State::Failed)
    }

    /// How many received bytes are not answered yet.
    pub fn waiting(&self) -> usize
        ensures { result ≡ length self.now.waiting }
    {
        self.protocol_state.waiting().len()
    }

    /// True if its session has a transaction.
    pub fn has_transaction(&self) -> bool
        ensures session { self.now.attached ≡ true → Transacts self.now result }
        ensures none { self.now.attached ≡ false → result ≡ false }
    {
        self.protocol_state.has_transaction()
    }

    /// The session that it opened, if it did.
    pub fn session(&self) -> Option<SessionName>
        ensures is { self.now.attached ≡ true → result ≡ self.now.named }
        ensures none { self.now.attached ≡ false → result ≡ None }
        ensures named { IfSome result (IsSessionOf self.now) }
    {
        match &self.protocol_state.session {
            Some(caller) if !caller.waits() => self.protocol_state.named,
            _ => None,
        }
    }

    /// True while its session waits for the next volume of its tenant's trail. No line is answered then, and nothing is
    /// read.
    pub fn waits(&self) -> bool
        ensures { result ≡ self.now.waits }
    {
        self.protocol_state.waits()
    }

    /// Makes the step `end` of the session, unless it has ended, and leaves its receipts in this volume of its tenant's
    /// trail. The session waits for the next one. None if there is no session, or it has a transaction, or waits already.
    pub fn suspend<T: Wait>(&mut self, rt: &T) -> Option<Stub>
        ensures some { IfSome result (λ stub. self.new ≡ after_suspending self.old stub.receipts.items) }
        ensures attached { IfSome result (λ stub. self.old.attached ≡ true) }
        ensures conversation { IfSome result (λ stub. Converses D.policy.admits self.new None) }
        ensures closed { IfSome result (λ stub. IsClosed stub.receipts.items) }
        ensures none { IfNone result (self.new ≡ self.old) }
        ensures why { IfNone result (self.old.attached ≡ true → Transacts self.old true) }
    {
        self.protocol_state.suspend(rt)
    }

    /// Makes the step `open` of a session that waits, in the next volume, unless the session has ended. Error: why it
    /// isn't opened; it waits on.
    pub fn resume<T: Wait>(&mut self, rt: &T) -> Result<(), AttachError>
        ensures ok { OnOk result (((self.new ≡ self.old) × ((self.old.waits ≡ false) ⊎ (is_open self.old.state ≡ false)))
            ⊎ ((self.old.waits ≡ true) × (self.new ≡ after_resuming self.old))) }
        ensures err { OnErr result (self.new ≡ self.old) }
    {
        self.protocol_state.resume(rt)
    }

    /// Closes the session, if one was opened, and reports it. Leaves the session's receipts in the volume in which it is,
    /// if it is in one.
    pub fn close<T: Wait, V: Watch>(self, rt: &T, watch: &V, ended: ConnectionEnd) -> Option<Stub>
        ensures conversation { Converses D.policy.admits self result }
        ensures keyed { self.hosted.keyed ≡ D.policy.keyed }
        ensures closed { IfSome result (λ stub. IsClosed stub.receipts.items) }
        ensures attached { self.attached ≡ is_some result }
    {
        let Connection { protocol_state } = self;
        let first = protocol_state.first;
        let stub = close(rt, protocol_state.into_session());
        tell_end(watch, first, &stub, ended);
        stub
    }
}
