//! What is told of connections while they are served.
ghost use Rattle.std.specs.Prelude.{◌≡◌};
ghost use Rattle.sb_wire.specs.Seen.{piece_seen};
ghost use Rattle.sb_connection.specs.Events.{is_warning, told_line};

use crate::first_line::SessionName;
use sb_desk::AttachError;
use sb_tenant::{OPEN, Reply};
use sb_wire::{Piece, StreamError, WireRefusal};
use std::fmt;
use std::fmt::{Display, Formatter};
use std::io::{self, ErrorKind};
use std::sync::Wait;

/// What happens to connections.
#[derive(Clone, Copy)]
pub enum ConnectionEvent {
    /// A client has a connection.
    Came,
    /// The session that a first line names was opened.
    Attached(SessionName),
    /// It wasn't.
    TurnedAway {
        named: SessionName,
        why: AttachError,
    },
    /// A first line names no session.
    Unnamed(WireRefusal),
    /// Its key is none of the tenant's.
    Barred(SessionName),
    /// The trail of a tenant has room for so few steps more, or for none. Each is told once.
    Fills {
        tenant: u32,
        left: u32,
    },
    /// A line of a session wasn't begun for want of memory. It is told once a connection.
    NotBegun(SessionName),
    /// A connection ended by a fault. Its session, if it had one, is closed next.
    Failed {
        named: Option<SessionName>,
        why: StreamError,
        reason: Option<ErrorKind>,
    },
    /// A connection is closed that has sent no line for too long.
    Idle(Option<SessionName>),
    /// So is one whose session has a transaction.
    IdleTransaction(SessionName),
    /// So is one whose session an operator ends.
    Ended(SessionName),
    /// A connection is closed whose first line didn't come in time.
    Late,
    /// A session made so many steps, and its tenant's trail has room for so many more.
    Closed {
        named: SessionName,
        steps: usize,
        left: u32,
    },
    /// A connection without a session ended.
    Left,
    /// A connection wasn't accepted, for this reason and by this number of the system.
    NotAccepted {
        why: ErrorKind,
        code: Option<i32>,
    },
    /// There is no memory for a connection.
    NoPlace,
}

impl ConnectionEvent {
    /// True if something went wrong.
    pub fn is_warning(&self) -> bool
        ensures { result ≡ is_warning self.now }
    {
        !matches!(
            self,
            ConnectionEvent::Came
                | ConnectionEvent::Attached(_)
                | ConnectionEvent::Closed { .. }
                | ConnectionEvent::Left
        )
    }
}

impl Display for SessionName {
    fn fmt<W: fmt::Write>(&self, f: &mut Formatter<W>) -> fmt::Result {
        write!(f, "tenant {}, session {}", self.tenant, self.session)
    }
}

/// Writes of a connection that ended by a fault.
fn write_failed<W: fmt::Write>(
    f: &mut Formatter<W>,
    named: &Option<SessionName>,
    why: StreamError,
    reason: &Option<ErrorKind>,
) -> fmt::Result {
    f.write_str("failed: ")?;
    if let Some(named) = named {
        write!(f, "{named}: ")?;
    }
    match reason {
        Some(reason) => write!(f, "{why}: {reason}"),
        None => write!(f, "{why}"),
    }
}

impl Display for ConnectionEvent {
    fn fmt<W: fmt::Write>(&self, f: &mut Formatter<W>) -> fmt::Result {
        match self {
            ConnectionEvent::Came => f.write_str("connected"),
            ConnectionEvent::Attached(named) => write!(f, "attached: {named}"),
            ConnectionEvent::TurnedAway { named, why } => write!(
                f,
                "turned away: {named}: {why:?}"
            ),
            ConnectionEvent::Unnamed(why) => write!(f, "turned away: {why:?}"),
            ConnectionEvent::Barred(named) => write!(f, "turned away: {named}: BadKey"),
            ConnectionEvent::Failed { named, why, reason } => write_failed(f, named, *why, reason),
            ConnectionEvent::NotBegun(named) => {
                write!(f, "no memory for {named}: lines aren't begun")
            }
            ConnectionEvent::Idle(Some(named)) => write!(f, "idle: {named}"),
            ConnectionEvent::Idle(None) => f.write_str("idle"),
            ConnectionEvent::IdleTransaction(named) => write!(f, "idle in a transaction: {named}"),
            ConnectionEvent::Ended(named) => write!(f, "ended by an operator: {named}"),
            ConnectionEvent::Late => f.write_str("no first line in time"),
            ConnectionEvent::Fills { tenant, left: 0 } => write!(
                f,
                "the trail of tenant {tenant} is full"
            ),
            ConnectionEvent::Fills { tenant, left } => {
                write!(f, "the trail of tenant {tenant} has room for {left} steps")
            }
            ConnectionEvent::Closed { named, steps, left } => {
                write!(f, "closed: {named}: {steps} steps, {left} left")
            }
            ConnectionEvent::Left => f.write_str("disconnected"),
            ConnectionEvent::NotAccepted {
                why: _,
                code: Some(code),
            } => {
                let why = io::Error::from_raw_os_error(*code);
                write!(f, "a connection can't be accepted: {why}")
            }
            ConnectionEvent::NotAccepted { why, code: None } => {
                write!(f, "a connection can't be accepted: {why}")
            }
            ConnectionEvent::NoPlace => f.write_str("no memory for a connection"),
        }
    }
}

/// A line of a session, and what it was answered.
#[derive(Clone, Copy)]
pub struct Answered<'a> {
    pub named: SessionName,
    line: &'a [u8],
    pub said: Said<'a>,
    /// The session had a transaction before it.
    pub transacted: bool,
    /// The session has a transaction behind it.
    pub transacts: bool,
}

impl<'a> Answered<'a> {
    ghost use Rattle.sb_connection.specs.ToldAnswers.{line_of};

    /// What a line was answered, which may be the first one of a connection.
    pub(crate) fn new(
        named: SessionName,
        piece: Piece<'a>,
        is_first: bool,
        said: Said<'a>,
        transacted: bool,
        transacts: bool,
    ) -> Answered<'a>
        ensures { line_of result ≡ told_line is_first (piece_seen piece.entry) }
    {
        let line = match piece {
            _ if is_first => OPEN,
            Piece::Line(line) => line,
            Piece::TooLong => &[],
        };
        Answered {
            named,
            line,
            said,
            transacted,
            transacts,
        }
    }

    /// The line, or `open` for the first one of a connection.
    pub fn line(&self) -> &'a [u8]
        ensures { result.now ≡ line_of self.now }
    {
        self.line
    }
}

/// What a line was answered.
#[derive(Clone, Copy)]
pub enum Said<'a> {
    Reply(&'a Reply),
    /// It was no step.
    Refusal(WireRefusal),
}

/// A slow line.
#[derive(Clone, Copy)]
pub struct Slow<'a> {
    pub named: SessionName,
    pub line: &'a [u8],
    pub millis: u64,
}

/// Observes connections.
pub trait Watch {
    fn on_event(&self, event: ConnectionEvent);

    /// What happens to the connection of the client at this port.
    fn on_client_event(&self, port: u16, event: ConnectionEvent);

    /// What a line was answered.
    fn on_reply<T: Wait>(&self, rt: &T, answered: Answered<'_>);

    /// A line of the client at this port was slow.
    fn on_slow_line(&self, port: u16, slow: Slow<'_>);

    /// True if a connection has had the time of its turn, so that others may have theirs.
    fn is_turn_over(&self) -> bool;
}

/// Observes nothing.
pub struct NoWatch;

impl Watch for NoWatch {
    fn on_event(&self, _event: ConnectionEvent) {}

    fn on_client_event(&self, _port: u16, _event: ConnectionEvent) {}

    fn on_reply<T: Wait>(&self, _rt: &T, _answered: Answered<'_>) {}

    fn on_slow_line(&self, _port: u16, _slow: Slow<'_>) {}

    fn is_turn_over(&self) -> bool {
        false
    }
}
