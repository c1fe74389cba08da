//! A conversation in messages: it names a tenant, brings a key where one is asked for, and then makes queries.
ghost use Rattle.std.specs.Prelude.{◌≡◌, ◌∷◌, [], IfSome, MatchOption, None, Some, false, map};
ghost use Rattle.sb_postgres.specs.Answers.{ParameterStatus};
ghost use Rattle.sb_postgres.specs.Messages.{said};
ghost use Rattle.sb_postgres.specs.Startup.{pair_seen, started};
ghost use Rattle.sb_frontend.specs.Conversations as spec;
ghost use Rattle.sb_frontend.specs.Demands.{demanded};
ghost use Rattle.sb_frontend.specs.Outputs as output;
ghost use Rattle.sb_frontend.specs.Starts.{options_of, tenant_of};
ghost use Rattle.sb_frontend.specs.Takings.{TakesMessage, TakesPacket};
ghost use Rattle.sb_frontend.specs.Talking as talking;

use crate::demand::{Demand, demand_of};
use crate::describe::Describe;
use crate::form::Form;
use crate::output::Output;
use crate::phase::Phase;
use crate::play::Speaker;
use crate::session::LineSession;
use crate::start::{SessionSource, open_least, options_of, state_of, tenant_of, text_of};
use crate::taken::Taken;
use crate::tell::Teller;
use crate::workbench::Workbench;
use sb_postgres::told::{REPORTED, Setting, SqlState};
use sb_postgres::{
    ClientMessage, Parameter, ReadError, ServerMessage, StartupPacket, TransactionStatus,
    read_message, read_startup,
};
use std::alloc::Global;
use std::marker::Model;
use std::sync::Wait;

/// A session, once it is open, and the messages that are to be sent.
#[derive(Drop)]
pub(crate) struct Conversation<S: LineSession> {
    pub(crate) alloc: Global,
    pub(crate) out: Output,
    pub(crate) phase: Phase,
    pub(crate) speaker: Option<Speaker<S>>,
    pub(crate) work: Workbench,
}

impl<S: LineSession> Model for Conversation<S> {
    ghost use Rattle.sb_frontend.specs.Talking.{Talking};

    ghost Value = { Talking };

    ghost view = { λ c. record { at = record { phase = c.phase; spot = c.speaker; work = c.work }; out = c.out } };
}

fn status_of(has: bool) -> TransactionStatus
    ensures { result ≡ spec.status_of has }
{
    if has {
        TransactionStatus::Open
    } else {
        TransactionStatus::Idle
    }
}

/// Tells settings.
#[tactic(auto, unfolding(crate::specs::Outputs::written))]
fn say_settings(out: &mut Output, settings: &[Setting])
    ensures { output.Says (map (λ s. ParameterStatus s.0.now s.1.now) settings.now) out.old out.new }
{
    for (name, value) in settings {
        out.say(&ServerMessage::ParameterStatus { name, value });
    }
}

/// Tells the newest minor version that is spoken, if a newer one or options are asked for.
fn negotiate(alloc: Global, out: &mut Output, minor: u32, parameters: &[Parameter<'_>])
    ensures { output.Says (spec.negotiated minor (options_of (map pair_seen parameters.now))) out.old out.new }
{
    match options_of(alloc, parameters) {
        Ok(options) => say_version(out, minor, &options),
        Err(_) => out.fail(),
    }
}

fn say_version(out: &mut Output, minor: u32, options: &[&[u8]])
    ensures { output.Says (spec.negotiated minor (map (λ o. o.now) options.now)) out.old out.new }
{
    if minor == 0 && options.is_empty() {
        return;
    }
    out.say(&ServerMessage::NegotiateProtocolVersion { minor: 0, options });
}

impl<S: LineSession> Conversation<S> {
    pub(crate) fn new(alloc: Global) -> Conversation<S>
        ensures { result ≡ talking.nothing_yet }
    {
        Conversation {
            alloc,
            out: Output::new(alloc),
            phase: Phase::Starting,
            speaker: None,
            work: Workbench::new(alloc),
        }
    }

    /// The phase in which it stands.
    pub(crate) fn phase(&self) -> Phase
        ensures { result ≡ self.now.at.phase }
    {
        self.phase
    }

    /// True if its session has a transaction.
    pub(crate) fn has_transaction(&self) -> bool
        ensures { result ≡ spec.has_in self.now.at.spot }
    {
        match &self.speaker {
            Some(speaker) => speaker.has_transaction(),
            None => false,
        }
    }

    /// Tells that the next query may come, and whether there is a transaction.
    pub(crate) fn say_ready(&mut self)
        ensures said { output.Says (spec.ready self.old.at.spot ∷ []) self.old.out self.new.out }
        ensures at { self.new.at ≡ self.old.at }
    {
        let status = status_of(self.has_transaction());
        self.out.say(&ServerMessage::ReadyForQuery(status));
    }

    /// Tells an error and ends the conversation.
    pub(crate) fn turn_away(&mut self, state: SqlState, message: &[u8])
        ensures { talking.Tells (spec.TurnsAway state message.now) self.old self.new }
    {
        self.out.say_error(state, message);
        self.phase = Phase::Over;
    }

    /// Tells what a client wants to know of a session that was opened.
    fn welcome(&mut self, number: u32)
        ensures said { output.Says (spec.welcome number self.old.at.spot) self.old.out self.new.out }
        ensures at { self.new.at ≡ self.old.at }
    {
        self.out.say(&ServerMessage::AuthenticationOk);
        say_settings(&mut self.out, &REPORTED);
        self.out.say(&ServerMessage::BackendKeyData {
            process: number,
            key: 0,
        });
        self.say_ready();
    }

    /// Goes on with a session that was just opened.
    fn seat(&mut self, session: S)
        requires fresh { (S.exchanges session ≡ []) × (S.has session ≡ false) }
        ensures said { output.Says (spec.welcome (S.number session) (Some (spec.fresh (S.tenant session) (S.number session)))) self.old.out self.new.out }
        ensures at { self.new.at ≡ spec.seated (S.tenant session) (S.number session) }
    {
        let number = session.number();
        self.speaker = Some(Speaker::new(session));
        self.phase = Phase::Ready;
        self.work = Workbench::new(self.alloc);
        self.welcome(number);
    }

    /// Opens the least free session of a tenant, or tells why it can't.
    fn open<R: Wait, O: SessionSource<Session = S>>(&mut self, rt: &R, source: &O, tenant: u32)
        ensures { talking.Tells (spec.Opens O.source tenant) self.old self.new }
    {
        match open_least(rt, self.alloc, source, tenant) {
            Ok(session) => self.seat(session),
            Err(error) => self.turn_away(state_of(error), text_of(error).as_bytes()),
        }
    }

    /// Opens a session of the tenant that is named.
    fn open_named<R: Wait, O: SessionSource<Session = S>>(
        &mut self,
        rt: &R,
        source: &O,
        tenant: Option<u32>,
    )
        ensures { talking.Tells (spec.OpensNamed O.source tenant) self.old self.new }
    {
        match tenant {
            Some(tenant) => self.open(rt, source, tenant),
            None => self.turn_away(SqlState::InvalidCatalogName, b"the database does not exist"),
        }
    }

    /// Asks for the key of a tenant.
    fn ask_key(&mut self, tenant: Option<u32>)
        ensures { talking.Tells (spec.AsksKey tenant) self.old self.new }
    {
        self.phase = Phase::AskingKey(tenant);
        self.out
            .say(&ServerMessage::AuthenticationCleartextPassword);
    }

    /// Opens a session of the tenant that is named, or asks for a key.
    fn begin<R: Wait, O: SessionSource<Session = S>>(
        &mut self,
        rt: &R,
        source: &O,
        tenant: Option<u32>,
    )
        ensures { talking.Tells (spec.Starts O.source tenant) self.old self.new }
    {
        if source.asks_for_key() {
            self.ask_key(tenant);
        } else {
            self.open_named(rt, source, tenant);
        }
    }

    /// Tells that the key is none of the tenant's.
    fn refuse_key(&mut self)
        ensures { talking.Tells spec.RefusesKey self.old self.new }
    {
        self.turn_away(SqlState::InvalidPassword, b"password authentication failed");
    }

    /// Opens a session for whom the key lets in.
    fn enter<R: Wait, O: SessionSource<Session = S>>(
        &mut self,
        rt: &R,
        source: &O,
        tenant: Option<u32>,
        key: &[u8],
    )
        ensures { talking.Tells (spec.Enters O.source tenant key.now) self.old self.new }
    {
        let Some(tenant) = tenant else {
            self.refuse_key();
            return;
        };
        if source.lets_in(rt, tenant, key) {
            self.open(rt, source, tenant);
        } else {
            self.refuse_key();
        }
    }

    /// Answers a connection's first packet, or one that asks for encryption before it.
    pub(crate) fn answer_packet<R: Wait, O: SessionSource<Session = S>>(
        &mut self,
        rt: &R,
        source: &O,
        packet: &StartupPacket<'_>,
    )
        ensures { talking.SendsSome (spec.AnswersPacket O.source (started packet.now)) self.old self.new }
    {
        match packet {
            StartupPacket::SslRequest => self.out.say_byte(b'N'),
            StartupPacket::GssEncRequest => self.out.say_byte(b'N'),
            StartupPacket::CancelRequest { .. } => self.phase = Phase::Over,
            StartupPacket::Startup { minor, parameters } => {
                negotiate(self.alloc, &mut self.out, *minor, parameters);
                self.begin(rt, source, tenant_of(parameters));
            }
        }
    }

    /// Plays the statements of a text, and tells that the next query may come.
    fn query<R: Wait, C: Describe>(&mut self, rt: &R, describe: &C, text: &[u8])
        ensures { talking.Tells (spec.PlaysHere text.now) self.old self.new }
    {
        let Some(speaker) = &mut self.speaker else {
            return;
        };
        let teller = Teller {
            rt,
            alloc: self.alloc,
            describe,
            form: Form { described: true },
        };
        speaker.play_query(&teller, &mut self.out, text);
        self.say_ready();
    }

    /// Meets what a message asks.
    fn meet<R: Wait, O: SessionSource<Session = S>, C: Describe>(
        &mut self,
        rt: &R,
        source: &O,
        describe: &C,
        demand: Demand<'_>,
    )
        ensures { talking.Tells (spec.Meets O.source (demanded demand.entry)) self.old self.new }
    {
        match demand {
            Demand::End => self.phase = Phase::Over,
            Demand::Enter { tenant, key } => self.enter(rt, source, tenant, key),
            Demand::Play { text } => self.query(rt, describe, text),
            Demand::Synchronize => self.synchronize(rt),
            Demand::Nothing => {}
            Demand::Extend { message } => self.extend(rt, describe, message),
            Demand::Misplaced => self.turn_away(
                SqlState::ProtocolViolation,
                b"this message is not expected here",
            ),
        }
    }

    /// Answers a message.
    pub(crate) fn answer<R: Wait, O: SessionSource<Session = S>, C: Describe>(
        &mut self,
        rt: &R,
        source: &O,
        describe: &C,
        message: &ClientMessage<'_>,
    )
        ensures { talking.Tells (spec.AnswersMessage O.source (said message.now)) self.old self.new }
    {
        let demand = demand_of(self.phase, message);
        self.meet(rt, source, describe, demand);
    }

    /// Answers the packet with this body.
    pub(crate) fn take_packet<R: Wait, O: SessionSource<Session = S>>(
        &mut self,
        rt: &R,
        source: &O,
        body: &[u8],
    ) -> Taken
        ensures { TakesPacket O.source body.now self.old result self.new }
    {
        match read_startup(self.alloc, body) {
            Ok(packet) => {
                self.answer_packet(rt, source, &packet);
                Taken::Answered
            }
            Err(ReadError::Memory) => {
                self.out.fail();
                Taken::NoMemory
            }
            Err(ReadError::Fault(_)) => Taken::Unreadable,
        }
    }

    /// Answers the message with this first byte and this body.
    pub(crate) fn take_message<R: Wait, O: SessionSource<Session = S>, C: Describe>(
        &mut self,
        rt: &R,
        source: &O,
        describe: &C,
        kind: u8,
        body: &[u8],
    ) -> Taken
        ensures { TakesMessage O.source kind body.now self.old result self.new }
    {
        match read_message(self.alloc, kind, body) {
            Ok(message) => {
                self.answer(rt, source, describe, &message);
                Taken::Answered
            }
            Err(ReadError::Memory) => {
                self.out.fail();
                Taken::NoMemory
            }
            Err(ReadError::Fault(_)) => Taken::Unreadable,
        }
    }

    /// The client sends no more.
    pub(crate) fn end(&mut self)
        ensures { self.new ≡ record self.old { at = spec.in_phase Phase.Over self.old.at } }
    {
        self.phase = Phase::Over;
    }

    /// Its session, if it was opened.
    pub(crate) fn into_session(self) -> Option<S>
        ensures { MatchOption result (self.at.spot ≡ None) (λ s. IfSome self.at.spot (λ spot. (spot.exchanges ≡ S.exchanges s) × (spot.has ≡ S.has s))) }
    {
        let Conversation { speaker, .. } = self;
        match speaker {
            Some(speaker) => Some(speaker.into_session()),
            None => None,
        }
    }
}
