//! The steps of a connection, each of which answers a line.
ghost use Rattle.std.specs.Prelude.{◌≡◌, ◌<◌, ◌≤◌, [], ◌∷◌, false, true, None, length, ◌⊎◌, IfOk, IsFalse, IsTrue, MatchBool, OnErr, OnOk, IfNone, IfSome};
ghost use Rattle.std.specs.Option.{option_map_or};
ghost use Rattle.sb_wire.specs.Lines.{last_piece, line};
ghost use Rattle.sb_connection.specs.Conversation.{hosting_by};
ghost use Rattle.sb_connection.specs.History.{MayReceive, after_end, after_receiving, after_sending, nothing_yet, pending_limit};
ghost use Rattle.sb_connection.specs.ProtocolState.{Answers, Finishes, IsNamedBy, ResumesIn, Steps, SuspendsIn, binding_after, ended, naming, talk};
ghost use Rattle.sb_connection.specs.Responses.{over};
ghost use Rattle.sb_connection.specs.Standing.{is_open};
ghost use Rattle.sb_connection.specs.Traffic.{after_write};

use crate::admission::Doorkeeper;
use crate::caller::SessionCaller;
use crate::conversation::Talk;
use crate::entrance::Entrance;
use crate::first_line::{SessionName, named_in};
use crate::state::State;
use crate::stream::Stream;
use crate::trail_room::{newest_step, tell_refusal, tell_reply, tell_room, was_unbegun};
use crate::watch::{ConnectionEvent, Watch};
use http_server::Log;
use sb_desk::{AttachError, Hosting, Stub};
use sb_wire::{Lines, Piece, Responder, WireRefusal};
use std::alloc::{AllocError, Global};
use std::io;
use std::marker::{Model, PhantomData};
use std::sync::Wait;

/// No line is answered while so many bytes or more wait to be sent.
const MOST_PENDING: usize = 65_536;

/// The state of a connection: its session, received bytes and bytes to send.
#[derive(Drop)]
pub(crate) struct ProtocolState<H: Hosting, D: Doorkeeper> {
    pub(crate) alloc: Global,
    pub(crate) entrance: Entrance<H>,
    pub(crate) by: PhantomData<D>,
    /// The number of the host's first tenant.
    pub(crate) first: u32,
    /// The first line brings a key.
    pub(crate) keyed: bool,
    pub(crate) state: State,
    /// The client sends no more.
    pub(crate) at_end: bool,
    pub(crate) session: Option<SessionCaller<H::Session>>,
    /// No session was opened, and none will be.
    pub(crate) away: bool,
    /// What the first line names.
    pub(crate) named: Option<SessionName>,
    /// It was reported that a line was not begun.
    pub(crate) tells_unbegun: bool,
    /// The line that is not complete yet.
    pub(crate) lines: Lines,
    pub(crate) input: Vec<u8>,
    pub(crate) taken: usize,
    pub(crate) output: Vec<u8>,
    pub(crate) sent: usize,
    /// So many bytes of the output end with the last reply that binds.
    pub(crate) bound: usize,
    /// The bytes of each read.
    pub(crate) reads: Log<Vec<u8>, ()>,
    /// Each write: the output, how much of it was sent before, and how much was sent.
    pub(crate) writes: Log<Vec<u8>, (usize, usize)>,
}

/// The session before a line.
#[derive(Clone, Copy)]
struct Before {
    /// The newest answer that is a step.
    step: Option<u32>,
    has_session: bool,
    has_transaction: bool,
}

impl<H: Hosting, D: Doorkeeper> Model for ProtocolState<H, D> {
    ghost use Rattle.std.specs.Prelude.{◌≡◌, ◌≤◌, ◌-◌, ◌&&◌, false, not, [], flat_map, is_some, map, take, drop, vec_len};
    ghost use Rattle.std.specs.Option.{option_map_or};
    ghost use Rattle.sb_connection.specs.Conversation.{hosting_by};
    ghost use Rattle.sb_connection.specs.ProtocolState.{Talking};

    ghost Value = { Talking };

    ghost view = { λ m. record {
      history = record {
        hosted = hosting_by m.keyed m.first (H.tenants m.entrance);
        state = m.state;
        attached = is_some m.session && not (option_map_or (λ c. c.waits) m.session false);
        waits = option_map_or (λ c. c.waits) m.session false;
        left = map (λ stay. stay.0) (option_map_or (λ c. c.stays) m.session []);
        named = m.named;
        at_end = m.at_end;
        received = flat_map (λ r. r.0.items) m.reads.items;
        waiting = drop m.taken m.input.items;
        handed = flat_map (λ w. take w.1.1 (drop w.1.0 w.0.items)) m.writes.items;
        pending = drop m.sent m.output.items;
        binding = m.bound - m.sent;
      };
      opened = m.lines;
      caller = m.session;
      away = m.away;
    } };

    ghost invariant = { λ m. (m.taken ≤ vec_len m.input) × (m.sent ≤ vec_len m.output) × (m.keyed ≡ D.policy.keyed)
        × (m.bound ≤ vec_len m.output) };
}

impl<H: Hosting, D: Doorkeeper> ProtocolState<H, D> {
    pub(crate) fn new(alloc: Global, host: H, first: u32, keyed: bool) -> ProtocolState<H, D>
        requires { keyed ≡ D.policy.keyed }
        ensures { result ≡ record { history = nothing_yet (hosting_by keyed first (H.tenants host)); opened = line []; caller = None; away = false } }
    {
        ProtocolState {
            alloc,
            entrance: Entrance::new(host),
            by: PhantomData,
            first,
            keyed,
            state: State::Open,
            at_end: false,
            session: None,
            away: false,
            named: None,
            tells_unbegun: false,
            lines: Lines::new(),
            input: Vec::new(alloc),
            taken: 0,
            output: Vec::new(alloc),
            sent: 0,
            bound: 0,
            reads: Log::new(),
            writes: Log::new(),
        }
    }

    pub(crate) fn state(&self) -> State
        ensures { result ≡ self.now.history.state }
    {
        self.state
    }

    /// The client sends no more.
    pub(crate) fn end(&mut self)
        ensures { self.new ≡ record self.old { history = after_end self.old.history } }
    {
        self.at_end = true;
    }

    pub(crate) fn into_session(self) -> Option<SessionCaller<H::Session>>
        ensures session { result ≡ self.caller }
        ensures keyed { self.history.hosted.keyed ≡ D.policy.keyed }
    {
        let ProtocolState { session, .. } = self;
        session
    }

    /// Answers the next line, if it is complete and there is room for its reply. True if there may be another one.
    pub(crate) fn step<T: Wait, V: Watch>(&mut self, rt: &T, watch: &V, doorkeeper: &D) -> bool
        requires { is_open self.old.history.state ≡ true → over (talk self.old) ≡ false }
        ensures steps { Steps D.policy.admits self.old result self.new }
        ensures full { pending_limit ≤ length self.old.history.pending → self.new ≡ self.old }
    {
        if !self.may_answer() {
            return false;
        }
        let rest = &self.input.as_slice()[self.taken..];
        match self.lines.feed(rest) {
            Some(behind) => {
                let left = behind.len();
                self.taken = self.input.len() - left;
                self.answer(rt, watch, doorkeeper);
                self.lines.clear();
                true
            }
            None => {
                // the memory is given back while nothing waits
                self.input = Vec::new(self.alloc);
                self.taken = 0;
                if self.at_end {
                    self.answer_last(rt, watch, doorkeeper);
                }
                false
            }
        }
    }

    /// Answers the complete line, and reports a trail that fills up.
    fn answer<T: Wait, V: Watch>(&mut self, rt: &T, watch: &V, doorkeeper: &D)
        requires { over (talk self.old) ≡ false }
        ensures answers { Answers D.policy.admits self.old self.new }
        ensures named { IsNamedBy self.old (self.old.opened ∷ []) self.new }
    {
        let before = Before {
            step: newest_step(&self.session),
            has_session: self.session.is_some(),
            has_transaction: self.has_transaction(),
        };
        self.note_name();
        self.respond(rt, watch, doorkeeper);
        self.tell_answer(rt, watch, before);
    }

    /// Reports the reply to the line.
    fn tell_answer<T: Wait, V: Watch>(&mut self, rt: &T, watch: &V, before: Before)
        ensures { self.new ≡ self.old }
    {
        match newest_step(&self.session) {
            Some(step) if before.step != Some(step) => self.tell_step(rt, watch, step, before),
            step if before.has_session => self.tell_none(rt, watch, step, before),
            _ => {}
        }
    }

    /// Before a session is open, notes what the line names.
    fn note_name(&mut self)
        ensures { self.new ≡ naming self.old }
    {
        if self.session.is_none() {
            self.named = named_in(self.lines.line(), self.keyed);
        }
    }

    /// Reports a line that was answered by this step.
    fn tell_step<T: Wait, V: Watch>(&self, rt: &T, watch: &V, step: u32, before: Before) {
        let Some(named) = self.named else {
            return;
        };
        tell_room(watch, named.tenant, step);
        tell_reply(
            rt,
            watch,
            &self.session,
            named,
            self.lines.line(),
            !before.has_session,
            before.has_transaction,
        );
    }

    /// Reports a line that was no step. That a line was not begun is reported once.
    fn tell_none<T: Wait, V: Watch>(
        &mut self,
        rt: &T,
        watch: &V,
        newest: Option<u32>,
        before: Before,
    )
        ensures { self.new ≡ self.old }
    {
        let Some(named) = self.named else {
            return;
        };
        let Piece::Line(_) = self.lines.line() else {
            tell_refusal(
                rt,
                watch,
                named,
                Piece::TooLong,
                WireRefusal::TooLong,
                before.has_transaction,
            );
            return;
        };
        if !was_unbegun(&self.session, newest) {
            tell_reply(
                rt,
                watch,
                &self.session,
                named,
                self.lines.line(),
                false,
                before.has_transaction,
            );
            return;
        }
        tell_refusal(
            rt,
            watch,
            named,
            self.lines.line(),
            WireRefusal::NotBegun,
            before.has_transaction,
        );
        if !self.tells_unbegun {
            self.tells_unbegun = true;
            watch.on_event(ConnectionEvent::NotBegun(named));
        }
    }

    /// True if its session has a transaction.
    pub(crate) fn has_transaction(&self) -> bool
        ensures is { result ≡ option_map_or (λ c. c.life.has_transaction) self.now.caller false }
        ensures none { self.now.history.attached ≡ false → result ≡ false }
    {
        match &self.session {
            Some(session) => session.has_transaction(),
            None => false,
        }
    }

    fn respond<T: Wait, V: Watch>(&mut self, rt: &T, watch: &V, doorkeeper: &D)
        requires { over (talk self.old) ≡ false }
        ensures answers { Answers D.policy.admits self.old self.new }
        ensures named { self.new.history.named ≡ self.old.history.named }
    {
        let talk = Talk {
            rt,
            entrance: &self.entrance,
            watch,
            first: self.first,
            keyed: self.keyed,
            doorkeeper,
        };
        let answered = talk.respond(
            self.alloc,
            self.lines.line(),
            &mut self.output,
            &mut self.session,
            &mut self.away,
        );
        let is_over = talk.is_over(&self.session, &self.away);
        self.state = state_after(answered, is_over);
        self.bound = bound_after(self.has_transaction(), self.bound, self.output.len());
    }

    /// Answers the incomplete line at the end, if it has a byte.
    fn answer_last<T: Wait, V: Watch>(&mut self, rt: &T, watch: &V, doorkeeper: &D)
        requires { over (talk self.old) ≡ false }
        ensures finishes { Finishes D.policy.admits self.old self.new }
        ensures named { IsNamedBy self.old (last_piece self.old.opened) self.new }
    {
        let Some(_) = self.lines.finish() else {
            self.state = State::Answered;
            return;
        };
        self.answer(rt, watch, doorkeeper);
        self.end_lines();
    }

    /// No line is answered any more.
    fn end_lines(&mut self)
        ensures { self.new ≡ ended self.old }
    {
        match self.state {
            State::Failed => {}
            _ => self.state = State::Answered,
        }
    }

    /// True if a line is answered where one comes.
    fn may_answer(&self) -> bool
        ensures open { IsTrue result → is_open self.now.history.state ≡ true }
        ensures not { IsFalse result → (is_open self.now.history.state ≡ false) ⊎ ((self.now.history.pending ≡ [] → ⊥) ⊎ (self.now.history.waits ≡ true)) }
        ensures few { IsTrue result → length self.now.history.pending < pending_limit }
        ensures there { IsTrue result → self.now.history.waits ≡ false }
    {
        if !self.state.is_open() || self.waits() {
            return false;
        }
        self.has_room()
    }

    /// True while its session waits for the next volume of its tenant's trail.
    pub(crate) fn waits(&self) -> bool
        ensures { result ≡ self.now.history.waits }
    {
        match &self.session {
            Some(caller) => caller.waits(),
            None => false,
        }
    }

    /// Leaves the volume. None if there is no session, or it has a transaction, or waits already.
    pub(crate) fn suspend<T: Wait>(&mut self, rt: &T) -> Option<Stub>
        ensures some { IfSome result (λ stub. SuspendsIn self.old stub self.new) }
        ensures none { IfNone result (self.new ≡ self.old) }
        ensures why { IfNone result (self.old.history.attached ≡ true → option_map_or (λ c. c.life.has_transaction) self.old.caller false ≡ true) }
    {
        let Some(caller) = &mut self.session else {
            return None;
        };
        caller.suspend(rt)
    }

    /// Opens the session that waits in the next volume, unless it has ended. Error: why it isn't opened.
    pub(crate) fn resume<T: Wait>(&mut self, rt: &T) -> Result<(), AttachError>
        ensures ok { OnOk result (ResumesIn self.old self.new) }
        ensures err { OnErr result (self.new ≡ self.old) }
    {
        let Some(caller) = &mut self.session else {
            return Ok(());
        };
        let Some(absence) = caller.absence() else {
            return Ok(());
        };
        let session = self.entrance.reopen(rt, self.alloc, absence)?;
        caller.resume(session);
        Ok(())
    }

    /// True if a reply may be added to what waits to be sent.
    fn has_room(&self) -> bool
        ensures empty { self.now.history.pending ≡ [] → IsTrue result }
        ensures few { IsTrue result → length self.now.history.pending < pending_limit }
    {
        if self.sent == self.output.len() {
            return true;
        }
        self.output.len() < MOST_PENDING
    }

    /// True if more may be received.
    fn may_receive(&self) -> bool
        ensures { MatchBool result (MayReceive self.now.history) (MayReceive self.now.history → ⊥) }
    {
        if !self.state.is_open() || self.at_end || self.waits() {
            return false;
        }
        self.taken == self.input.len()
    }

    pub(crate) fn wants_read(&self) -> bool
        ensures may { IsTrue result → MayReceive self.now.history }
        ensures wants { MayReceive self.now.history → self.now.history.pending ≡ [] → IsTrue result }
        ensures few { IsTrue result → length self.now.history.pending < pending_limit }
    {
        if !self.may_receive() {
            return false;
        }
        self.has_room()
    }

    /// Takes the next bytes of the client.
    pub(crate) fn receive(&mut self, bytes: &[u8]) -> Result<(), AllocError>
        requires { self.old.history.waiting ≡ [] }
        ensures ok { OnOk result (self.new ≡ record self.old { history = after_receiving self.old.history bytes.now }) }
        ensures err { OnErr result (self.new ≡ self.old) }
    {
        let mut input = Vec::new(self.alloc);
        input.extend_from_slice(bytes)?;
        self.reads = self.reads.and(&input, &());
        self.input = input;
        self.taken = 0;
        Ok(())
    }

    /// The next bytes to send.
    pub(crate) fn pending(&self) -> &[u8]
        ensures { result.now ≡ self.now.history.pending }
    {
        &self.output.as_slice()[self.sent..]
    }

    /// How many of them bind.
    pub(crate) fn binding(&self) -> usize
        ensures { result ≡ self.now.history.binding }
    {
        self.bound.saturating_sub(self.sent)
    }

    /// What came and isn't looked at yet.
    pub(crate) fn waiting(&self) -> &[u8]
        ensures { result.now ≡ self.now.history.waiting }
    {
        &self.input.as_slice()[self.taken..]
    }

    /// Sends once, as much as the stream takes.
    pub(crate) fn send<S: Stream>(&mut self, stream: &mut S) -> io::Result<usize>
        ensures count { IfOk result (λ count. count ≤ length self.old.history.pending) }
        ensures sent { IfOk result (λ count. self.new ≡ record self.old { history = after_sending self.old.history count }) }
        ensures unsent { OnErr result (self.new ≡ self.old) }
        ensures traffic { S.traffic stream.new ≡ after_write (S.traffic stream.old) self.old.history.pending result }
    {
        let answer = stream.write(&self.output, self.sent);
        if let Ok(count) = answer {
            self.note_sent(count);
        }
        answer
    }

    /// Notes that so many bytes were sent. The buffer is freed when all are.
    fn note_sent(&mut self, count: usize)
        requires { count ≤ length self.old.history.pending }
        ensures { self.new ≡ record self.old { history = after_sending self.old.history count } }
    {
        self.writes = self.writes.and(&self.output, &(self.sent, count));
        self.sent += count;
        if self.sent == self.output.len() {
            self.output = Vec::new(self.alloc);
            self.sent = 0;
            self.bound = 0;
        }
    }
}

/// How many bytes of an output of this length bind behind a reply.
fn bound_after(has_transaction: bool, bound: usize, length: usize) -> usize
    ensures { result ≡ binding_after has_transaction bound length }
{
    if has_transaction { bound } else { length }
}

/// The state behind a reply, which may have lacked memory.
fn state_after(answered: Result<(), AllocError>, is_over: bool) -> State
    ensures failed { OnErr answered (result ≡ State.Failed) }
    ensures done { OnOk answered (MatchBool is_over (result ≡ State.Over) (result ≡ State.Open)) }
{
    match answered {
        Err(_) => State::Failed,
        Ok(()) if is_over => State::Over,
        Ok(()) => State::Open,
    }
}
