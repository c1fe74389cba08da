//! The steps of a connection, each of which answers a message.
ghost use Rattle.std.specs.Prelude.{◌≡◌, ◌<◌, ◌≤◌, IfSome, IsFalse, IsTrue, MatchOption, None, OnErr, OnOk, false, length, true};
ghost use Rattle.sb_frontend.specs.Conversations.{has_in};
ghost use Rattle.sb_frontend.specs.Dialogues as spec;
ghost use Rattle.sb_frontend.specs.Steps as steps;

use crate::conversation::Conversation;
use crate::describe::Describe;
use crate::phase::Phase;
use crate::session::LineSession;
use crate::start::SessionSource;
use crate::taken::Taken;
use http_server::Log;
use sb_postgres::told::SqlState;
use sb_postgres::{Framed, FramedStartup, read_frame, read_startup_frame};
use std::alloc::{AllocError, Global};
use std::marker::Model;
use std::sync::Wait;

/// The most messages that are answered before other connections have their turn.
const MESSAGES_A_TURN: usize = 64;

/// No message is answered while so many bytes or more wait to be sent.
const MOST_PENDING: usize = 65_536;

/// The state of a connection: its conversation, and received bytes.
#[derive(Drop)]
pub(crate) struct ConnectionState<S: LineSession> {
    alloc: Global,
    conversation: Conversation<S>,
    input: Vec<u8>,
    /// So many bytes of the input are answered.
    taken: usize,
    at_end: bool,
    /// Each read: the input behind it, and how many bytes it had before.
    reads: Log<Vec<u8>, usize>,
    /// Each write: how many bytes were sent.
    writes: Log<usize, ()>,
}

impl<S: LineSession> Model for ConnectionState<S> {
    ghost use Rattle.std.specs.Prelude.{◌≤◌, drop, flat_map, sum_by, vec_len};
    ghost use Rattle.sb_frontend.specs.Dialogues.{Dialogue};

    ghost Value = { Dialogue };

    ghost view = { λ c. record {
      at = c.conversation.at;
      at_end = c.at_end;
      received = flat_map (λ r. drop r.1 r.0.items) c.reads.items;
      waiting = drop c.taken c.input.items;
      sent = sum_by (λ w. w.0) c.writes.items;
      out = c.conversation.out;
    } };

    ghost invariant = { λ c. c.taken ≤ vec_len c.input };
}

impl<S: LineSession> ConnectionState<S> {
    /// A connection before its first byte. It allocates nothing.
    pub(crate) fn new(alloc: Global) -> ConnectionState<S>
        ensures { result ≡ spec.nothing_yet }
    {
        ConnectionState {
            alloc,
            conversation: Conversation::new(alloc),
            input: Vec::new(alloc),
            taken: 0,
            at_end: false,
            reads: Log::new(),
            writes: Log::new(),
        }
    }

    pub(crate) fn is_over(&self) -> bool
        ensures { result ≡ spec.is_over self.now.at.phase }
    {
        matches!(self.conversation.phase(), Phase::Over)
    }

    fn has_room(&self) -> bool
        ensures { result ≡ spec.has_room self.now }
    {
        self.conversation.out.pending().len() < MOST_PENDING
    }

    /// True if more may come, and little waits to be sent.
    pub(crate) fn wants_read(&self) -> bool
        ensures { result ≡ spec.may_receive self.now }
    {
        !self.at_end && !self.is_over() && self.has_room()
    }

    /// Lets go of the bytes that are answered. Error: out of memory.
    fn compact(&mut self) -> Result<(), AllocError>
        ensures { self.new ≡ self.old }
    {
        if self.taken > 0 {
            self.input = Vec::from_slice(self.alloc, &self.input.as_slice()[self.taken..])?;
            self.taken = 0;
        }
        Ok(())
    }

    /// Takes the next bytes of the client. Error: out of memory; then nothing is taken.
    pub(crate) fn receive(&mut self, bytes: &[u8]) -> Result<(), AllocError>
        ensures ok { OnOk result (self.new ≡ spec.after_receiving self.old bytes.now) }
        ensures err { OnErr result (self.new ≡ self.old) }
    {
        self.compact()?;
        let before = self.input.len();
        self.input.extend_from_slice(bytes)?;
        self.reads = self.reads.and(&self.input, &before);
        Ok(())
    }

    /// The client sends no more.
    pub(crate) fn receive_end(&mut self)
        ensures { self.new ≡ spec.after_end self.old }
    {
        self.at_end = true;
    }

    /// Ends the connection whose bytes are no message.
    fn violate(&mut self)
        ensures { steps.Violates self.old self.new }
    {
        self.conversation
            .turn_away(SqlState::ProtocolViolation, b"invalid frontend message");
        self.taken = self.input.len();
    }

    /// Ends the connection whose client sends no more.
    fn cut(&mut self)
        ensures { self.new ≡ steps.after_cut self.old }
    {
        if self.at_end {
            self.conversation.end();
            self.taken = self.input.len();
        }
    }

    /// Answers the first packet, if it is there. True if there may be more.
    fn start<R: Wait, O: SessionSource<Session = S>>(&mut self, rt: &R, source: &O) -> bool
        requires { self.old.at.phase ≡ Phase.Starting }
        ensures { steps.Steps O.source self.old result self.new }
    {
        match read_startup_frame(&self.input.as_slice()[self.taken..]) {
            FramedStartup::Partial => {
                self.cut();
                false
            }
            FramedStartup::BadLength => {
                self.violate();
                false
            }
            FramedStartup::Whole { body, rest } => {
                let left = rest.len();
                match self.conversation.take_packet(rt, source, body) {
                    Taken::Answered => {
                        self.taken = self.input.len() - left;
                        true
                    }
                    Taken::Unreadable => {
                        self.violate();
                        false
                    }
                    Taken::NoMemory => false,
                }
            }
        }
    }

    /// Answers the next message, if it is there. True if there may be more.
    fn answer<R: Wait, O: SessionSource<Session = S>, C: Describe>(
        &mut self,
        rt: &R,
        source: &O,
        describe: &C,
    ) -> bool
        requires { spec.is_starting self.old.at.phase ≡ false }
        ensures { steps.Steps O.source self.old result self.new }
    {
        match read_frame(&self.input.as_slice()[self.taken..]) {
            Framed::Partial => {
                self.cut();
                false
            }
            Framed::BadLength => {
                self.violate();
                false
            }
            Framed::Whole { kind, body, rest } => {
                let left = rest.len();
                match self
                    .conversation
                    .take_message(rt, source, describe, kind, body)
                {
                    Taken::Answered => {
                        self.taken = self.input.len() - left;
                        true
                    }
                    Taken::Unreadable => {
                        self.violate();
                        false
                    }
                    Taken::NoMemory => false,
                }
            }
        }
    }

    /// Answers the next message, if it is complete and there is room for its answer. True if there may be more.
    fn step<R: Wait, O: SessionSource<Session = S>, C: Describe>(
        &mut self,
        rt: &R,
        source: &O,
        describe: &C,
    ) -> bool
        ensures { steps.Steps O.source self.old result self.new }
    {
        if self.is_over() || self.has_failed() || !self.has_room() {
            return false;
        }
        match self.conversation.phase() {
            Phase::Starting => self.start(rt, source),
            _ => self.answer(rt, source, describe),
        }
    }

    /// Answers messages that are complete, at most 64. True if more may be answered at once.
    pub(crate) fn advance<R: Wait, O: SessionSource<Session = S>, C: Describe>(
        &mut self,
        rt: &R,
        source: &O,
        describe: &C,
    ) -> bool
        ensures answers { spec.Answers O.source self.old self.new }
        ensures settles { IsFalse result → spec.IsSettled self.new }
        ensures goes { IsTrue result → length self.new.waiting < length self.old.waiting }
    {
        for _message in 0..MESSAGES_A_TURN {
            if !self.step(rt, source, describe) {
                return false;
            }
        }
        true
    }

    /// The bytes that are to be sent.
    pub(crate) fn pending(&self) -> &[u8]
        ensures { result.now ≡ self.now.out.bytes }
    {
        self.conversation.out.pending()
    }

    /// So many bytes were sent.
    pub(crate) fn note_sent(&mut self, count: usize)
        requires { count ≤ length self.old.out.bytes }
        ensures { self.new ≡ spec.after_sending self.old count }
    {
        self.conversation.out.note_sent(count);
        self.writes = self.writes.and(&count, &());
    }

    /// True if there was no memory for a message.
    pub(crate) fn has_failed(&self) -> bool
        ensures { result ≡ self.now.out.failed }
    {
        self.conversation.out.has_failed()
    }

    /// True if its session has a transaction.
    pub(crate) fn has_transaction(&self) -> bool
        ensures { result ≡ has_in self.now.at.spot }
    {
        self.conversation.has_transaction()
    }

    /// Ends the connection. Its session, if it was opened.
    pub(crate) fn into_session(self) -> Option<S>
        ensures { MatchOption result (self.at.spot ≡ None) (λ s. IfSome self.at.spot (λ spot. (spot.exchanges ≡ S.exchanges s) × (spot.has ≡ S.has s))) }
    {
        let ConnectionState { conversation, .. } = self;
        conversation.into_session()
    }
}
