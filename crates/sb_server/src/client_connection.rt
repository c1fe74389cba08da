//! A connection and its stream.
ghost use Rattle.std.specs.Prelude.{◌≡◌, ◌<◌, ◌≤◌, ◌⊎◌, ◌↔◌, [], false, true, length, IfNone, IfOk, IfSome, IsSome, IsSomeAnd, IsTrue, MatchResult, None, Ok, Some, is_some};
ghost use Rattle.sb_connection.specs.Conversation.{hosting_by};
ghost use Rattle.std.specs.Duration.{as_nanos};
ghost use Rattle.sb_connection.specs.History.{MayReceive, SameStreams, Transacts, after_resuming, after_sending};
ghost use Rattle.sb_connection.specs.Traffic.{Traffic, after_read, after_write};
ghost use Rattle.sb_server.specs.Carried.{Carries};
ghost use Rattle.sb_server.specs.Closed.{Leaves};
ghost use Rattle.sb_server.specs.Renewals.{LeavesVolume};
ghost use Rattle.sb_server.specs.ClientConnections.{AwaitsRenewal, EndsBy, EndsSilent, HasSession, IsBlocked, ReadsOnce, SendsSome, TellsEnd, ends};

use crate::pending_connection::{HandshakeSettings, PendingConnection};
use crate::reply_metrics::{MetricsContext, ReplyMetrics};
use crate::socket::Socket;
use crate::told::Told;
use mio::{Interest, Registry, Token};
use sb_connection::{Connection, ConnectionEnd, Doorkeeper, SessionName, Stream, Watch};
use sb_desk::{Hosting, Stub};
use sb_wire::StreamError;
use std::alloc::{AllocError, Global};
use std::io::{self, ErrorKind};
use std::rt::Clock;
use std::sync::Wait;
use std::time::{Duration, Instant};

/// A connection of a client, with its socket and its protocol state.
pub(crate) struct ClientConnection<H: Hosting, S: Stream + Drop, D: Doorkeeper> {
    pub(crate) stream: S,
    /// The client's port.
    pub(crate) port: u16,
    /// The tenant that the first line names, if it opens a session.
    pub(crate) tenant: Option<u32>,
    pub(crate) connection: Connection<H, D>,
    /// When its last whole line came, or was answered.
    pub(crate) heard: Option<Instant>,
    /// The result of the newest read.
    came: Came,
    /// The newest turn received or answered a whole line.
    is_active: bool,
    /// The connection is in the queue of its worker.
    pub(crate) is_due: bool,
    /// The client has shut down its sending side.
    pub(crate) hung_up: bool,
    /// The last bytes that were read are lost for want of memory.
    pub(crate) is_cut: bool,
    /// An operator has asked to end the session.
    pub(crate) is_ended: bool,
    /// It isn't read until its tenant is renewed.
    pub(crate) is_paused: bool,
    ghost carries: { Carries (S.traffic stream) connection is_cut },
    ghost keyed: { connection.hosted.keyed ≡ D.policy.keyed },
}

impl<H: Hosting, S: Stream + Drop, D: Doorkeeper> Drop for ClientConnection<H, S, D> {
    fn drop(self) {
        let Self {
            stream: _,
            port: _,
            tenant: _,
            connection: _,
            heard: _,
            came: _,
            is_active: _,
            is_due: _,
            hung_up: _,
            is_cut: _,
            is_ended: _,
            is_paused: _,
        } = self;
    }
}

/// What a connection does after its turn.
#[derive(Clone, Copy)]
pub(crate) enum Next {
    /// It waits for its client.
    Waits,
    /// It has more to do at once.
    GoesOn,
    Ends(ConnectionEnd),
}

/// The result of a read.
#[derive(Clone, Copy)]
pub(crate) enum Came {
    /// No read was made, or it has to be made again.
    Unread,
    Nothing,
    /// Bytes. `has_line`: a newline was among them. `all`: the socket had no more.
    Bytes { has_line: bool, all: bool },
}

/// The most reads in one turn of a client that has shut down its sending side, so that its session is closed soon.
const LAST_READS: usize = 4;

impl<H: Hosting, S: Stream + Drop, D: Doorkeeper> ClientConnection<H, S, D> {
    /// The first part of a turn: reads and answers what has come, unless it is paused, and sends nothing. Returns the
    /// fault, if there is one.
    pub(crate) fn take_in<T: Wait, V: Watch, C: Clock>(
        &mut self,
        rt: &T,
        metrics_context: &MetricsContext<'_, V, C>,
        doorkeeper: &D,
        buffer: &mut Vec<u8>,
    ) -> Option<ConnectionEnd>
        ensures fault { IfSome result (EndsBy (S.traffic self.new.stream) self.new.connection self.new.is_cut) }
        ensures stays { self.old.connection.attached ≡ true → self.new.connection.attached ≡ true }
        ensures unsent { self.new.connection.handed ≡ self.old.connection.handed }
        ensures paused { self.old.is_paused ≡ true → self.new.connection ≡ self.old.connection }
        ensures others { (self.new.tenant ≡ self.old.tenant) × (self.new.is_ended ≡ self.old.is_ended) }
    {
        self.is_active = false;
        if self.is_paused {
            self.came = Came::Unread;
            return None;
        }
        if self.is_ended {
            return None;
        }
        for _read in 0..LAST_READS {
            if let Some(fault) = self.read_stream(buffer) {
                return Some(fault);
            }
            self.answer(rt, metrics_context, doorkeeper);
            if !self.has_more() {
                return None;
            }
        }
        None
    }

    /// The second part of a turn: sends the replies. Returns what the connection does next.
    pub(crate) fn give_out(&mut self) -> Next
        ensures tells { TellsEnd (S.traffic self.new.stream) self.new.connection self.new.is_cut self.new.is_paused result }
        ensures ended { self.old.is_ended ≡ true → ends result ≡ true }
        ensures stays { self.new.connection.attached ≡ self.old.connection.attached }
        ensures others { self.new.tenant ≡ self.old.tenant }
    {
        match self.send() {
            Some(fault) => Next::Ends(fault),
            None => self.next(),
        }
    }

    /// True if the client has shut down its sending side and unread bytes may be left.
    fn has_more(&self) -> bool {
        self.hung_up && matches!(self.came, Came::Bytes { .. }) && self.connection.wants_read()
    }

    /// True if a reply that is to be sent binds.
    pub(crate) fn binds(&self) -> bool
        ensures { IsTrue result ↔ (0 < self.now.connection.binding) }
    {
        self.connection.binds()
    }

    /// The tenant whose answers are kept before the replies are sent, if one of these binds.
    pub(crate) fn answered(&self) -> Option<u32>
        ensures some { 0 < self.now.connection.binding → result ≡ self.now.tenant }
        ensures none { self.now.connection.binding ≡ 0 → result ≡ None }
    {
        if self.binds() { self.tenant } else { None }
    }

    /// Answers what came.
    fn answer<T: Wait, V: Watch, C: Clock>(
        &mut self,
        rt: &T,
        metrics_context: &MetricsContext<'_, V, C>,
        doorkeeper: &D,
    )
        ensures streams { SameStreams self.old.connection self.new.connection }
        ensures stays { self.old.connection.attached ≡ true → self.new.connection.attached ≡ true }
        ensures stream { (self.new.stream ≡ self.old.stream) × (self.new.is_cut ≡ self.old.is_cut) }
        ensures others { (self.new.tenant ≡ self.old.tenant) × (self.new.is_ended ≡ self.old.is_ended) }
    {
        let before = self.connection.waiting();
        let reply_metrics = ReplyMetrics::new(metrics_context, self.port);
        self.connection.advance(rt, &reply_metrics, doorkeeper);
        self.is_active |= match self.came {
            Came::Bytes { has_line, .. } => has_line,
            _ => self.connection.waiting() < before,
        };
    }

    /// What the connection does after its turn.
    fn next(&self) -> Next
        ensures tells { TellsEnd (S.traffic self.now.stream) self.now.connection self.now.is_cut self.now.is_paused result }
        ensures ended { self.now.is_ended ≡ true → ends result ≡ true }
    {
        if self.connection.has_failed() {
            return Next::Ends(out_of_memory());
        }
        if self.connection.is_done() {
            return Next::Ends(ConnectionEnd::Well);
        }
        if self.is_ended {
            return Next::Ends(ConnectionEnd::ByOperator);
        }
        if self.connection.wants_write() {
            return Next::Waits;
        }
        if self.awaits_renewal() {
            return Next::Waits;
        }
        match self.came {
            Came::Nothing | Came::Bytes { all: true, .. } if self.connection.wants_read() => {
                Next::Waits
            }
            _ => Next::GoesOn,
        }
    }

    /// Reads once, if the connection wants to read. Returns the fault, if there is one.
    fn read_stream(&mut self, buffer: &mut Vec<u8>) -> Option<ConnectionEnd>
        ensures fault { IfSome result (EndsBy (S.traffic self.new.stream) self.new.connection self.new.is_cut) }
        ensures reads { MayReceive self.old.connection → self.old.connection.pending ≡ [] → self.old.is_cut ≡ false
            → ReadsOnce (S.traffic self.old.stream) (S.traffic self.new.stream) }
        ensures stays { self.new.connection.attached ≡ self.old.connection.attached }
        ensures unsent { self.new.connection.handed ≡ self.old.connection.handed }
        ensures others { (self.new.tenant ≡ self.old.tenant) × (self.new.is_ended ≡ self.old.is_ended) }
    {
        if self.is_cut {
            return Some(out_of_memory());
        }
        self.came = Came::Unread;
        if !self.connection.wants_read() {
            return None;
        }
        match self.stream.read(buffer) {
            Ok(count) => match take_bytes(&mut self.connection, buffer, count, self.hung_up) {
                Ok(came) => {
                    self.came = came;
                    None
                }
                Err(_) => {
                    self.is_cut = true;
                    Some(out_of_memory())
                }
            },
            Err(error) => match error.kind() {
                ErrorKind::WouldBlock => {
                    self.came = Came::Nothing;
                    None
                }
                ErrorKind::Interrupted => None,
                why => Some(fault(StreamError::ReadFault, why)),
            },
        }
    }

    /// Sends waiting replies until the socket takes no more. Returns the fault, if there is one.
    fn send(&mut self) -> Option<ConnectionEnd>
        ensures sends { SendsSome self.old.connection self.new.connection }
        ensures all { IfNone result ((self.new.connection.pending ≡ []) ⊎ IsBlocked (S.traffic self.new.stream)) }
        ensures fault { IfSome result (EndsBy (S.traffic self.new.stream) self.new.connection self.new.is_cut) }
        ensures others { (self.new.is_cut ≡ self.old.is_cut) × (self.new.is_ended ≡ self.old.is_ended) × (self.new.tenant ≡ self.old.tenant) }
    {
        while self.connection.wants_write() {
            match self.send_once() {
                Ok(0) => return Some(fault(StreamError::WriteFault, ErrorKind::WriteZero)),
                Ok(_) => {}
                Err(error) => {
                    return match error.kind() {
                        ErrorKind::WouldBlock => None,
                        why => Some(fault(StreamError::WriteFault, why)),
                    };
                }
            }
        }
        None
    }

    /// Makes one write.
    fn send_once(&mut self) -> io::Result<usize>
        ensures count { IfOk result (λ count. count ≤ length self.old.connection.pending) }
        ensures sent { MatchResult result
            (λ count. self.new.connection ≡ after_sending self.old.connection count)
            (λ _. self.new.connection ≡ self.old.connection) }
        ensures traffic { S.traffic self.new.stream
            ≡ after_write (S.traffic self.old.stream) self.old.connection.pending result }
        ensures others { (self.new.is_cut ≡ self.old.is_cut) × (self.new.is_ended ≡ self.old.is_ended) × (self.new.tenant ≡ self.old.tenant) }
    {
        self.connection.send(&mut self.stream)
    }

    /// Notes the time of the newest turn.
    pub(crate) fn note_turn(&mut self, now: Option<Instant>)
        ensures { (self.new.connection ≡ self.old.connection) × (self.new.tenant ≡ self.old.tenant) }
    {
        if self.is_active {
            self.heard = now;
        }
    }

    /// How the connection ends if it has been silent for too long.
    pub(crate) fn silence(&self, now: Instant, limits: &Limits) -> Option<ConnectionEnd>
        ensures ending { IfSome result (EndsSilent limits.now self.now.heard now) }
        ensures transaction { result ≡ Some ConnectionEnd.IdleTransaction → Transacts self.now.connection true }
        ensures due { self.now.is_due ≡ true → result ≡ None }
        ensures renewal { AwaitsRenewal self.now.is_paused self.now.connection → result ≡ None }
        ensures limits { limits.now.idle ≡ None → limits.now.idle_transaction ≡ None → result ≡ None }
    {
        if self.is_due {
            return None;
        }
        if self.awaits_renewal() {
            return None;
        }
        let silent = now.duration_since(self.heard?);
        if is_over(silent, limits.idle_transaction) && self.has_transaction() {
            return Some(ConnectionEnd::IdleTransaction);
        }
        if is_over(silent, limits.idle) {
            return Some(ConnectionEnd::Idle);
        }
        None
    }

    /// True if the first line names this tenant.
    pub(crate) fn is_of(&self, tenant: u32) -> bool
        ensures { IsTrue result ↔ (self.now.tenant ≡ Some tenant) }
    {
        match self.tenant {
            Some(own) => own == tenant,
            None => false,
        }
    }

    /// True if its tenant is to be renewed before it goes on.
    pub(crate) fn awaits_renewal(&self) -> bool
        ensures { IsTrue result ↔ AwaitsRenewal self.now.is_paused self.now.connection }
    {
        self.is_paused || self.connection.waits()
    }

    /// True if this tenant is to be renewed before it goes on.
    pub(crate) fn awaits_renewal_of(&self, tenant: u32) -> bool
        ensures { IsTrue result → (self.now.tenant ≡ Some tenant) × AwaitsRenewal self.now.is_paused self.now.connection }
    {
        self.is_of(tenant) && self.awaits_renewal()
    }

    /// The session leaves the volume of its tenant's trail, if it has no transaction. Its receipts are left, and it waits
    /// for the next volume.
    pub(crate) fn suspend<T: Wait>(&mut self, rt: &T) -> Option<Stub>
        ensures left { IfSome result (LeavesVolume D.policy) }
        ensures detached { IsSome result → (self.old.connection.attached ≡ true) × (self.new.connection.attached ≡ false) }
        ensures none { IfNone result (self.new.connection ≡ self.old.connection) }
        ensures why { IfNone result (self.old.connection.attached ≡ true → Transacts self.old.connection true) }
        ensures others { (self.new.tenant ≡ self.old.tenant) × (self.new.is_ended ≡ self.old.is_ended) }
    {
        self.connection.suspend(rt)
    }

    /// Goes on behind a renewal. A session that waits is opened in the new volume; where it can't be, it waits on.
    pub(crate) fn resume<T: Wait>(&mut self, rt: &T)
        ensures resumed { (self.new.connection ≡ self.old.connection) ⊎ (self.new.connection ≡ after_resuming self.old.connection) }
        ensures stays { self.old.connection.attached ≡ true → self.new.connection.attached ≡ true }
        ensures others { (self.new.tenant ≡ self.old.tenant) × (self.new.is_ended ≡ self.old.is_ended) × (self.new.is_paused ≡ false) }
    {
        self.is_paused = false;
        let _waits_on = self.connection.resume(rt);
    }

    /// True if it has this session.
    pub(crate) fn has_session(&self, named: SessionName) -> bool
        ensures { IsTrue result ↔ HasSession self.now.connection named }
    {
        match self.connection.session() {
            Some(own) => own.tenant == named.tenant && own.session == named.session,
            None => false,
        }
    }

    /// True if its session has a transaction.
    pub(crate) fn has_transaction(&self) -> bool
        ensures attached { IsTrue result → self.now.connection.attached ≡ true }
        ensures session { self.now.connection.attached ≡ true → Transacts self.now.connection result }
    {
        self.connection.has_transaction()
    }

    /// Closes the connection and its session. The receipts of the session are left.
    pub(crate) fn leave<T: Wait, V: Watch>(
        self,
        rt: &T,
        watch: &V,
        ending: ConnectionEnd,
    ) -> Option<Stub>
        ensures leaves { Leaves D.policy (S.traffic self.stream) self.connection self.is_cut result }
        ensures session { self.connection.attached ≡ is_some result }
    {
        let Self {
            stream: _closed_last,
            port,
            tenant: _,
            connection,
            heard: _,
            came: _,
            is_active: _,
            is_due: _,
            hung_up: _,
            is_cut: _,
            is_ended: _,
            is_paused: _,
        } = self;
        connection.close(rt, &Told { watch, port }, ending)
    }
}

impl<H: Hosting, D: Doorkeeper> ClientConnection<H, Socket, D> {
    /// The connection of a client whose first line is known. Without memory for its bytes it ends in its first turn.
    pub(crate) fn begin(
        alloc: Global,
        host: H,
        by: HandshakeSettings,
        pending_connection: PendingConnection,
        tenant: Option<u32>,
        heard: Option<Instant>,
    ) -> ClientConnection<H, Socket, D>
        requires { by.keyed ≡ D.policy.keyed }
        ensures host { result.connection.hosted ≡ hosting_by by.keyed by.first (H.tenants host) }
        ensures of { (result.tenant ≡ tenant) × (result.port ≡ pending_connection.port) × (result.is_ended ≡ false) }
    {
        let port = pending_connection.port;
        let is_cut = pending_connection.is_cut;
        let (socket, bytes) = pending_connection.into_parts();
        let mut connection = Connection::new(alloc, host, by.first, by.keyed);
        let is_lost = connection.receive(bytes.as_slice()).is_err();
        ClientConnection {
            stream: socket,
            port,
            tenant,
            connection,
            heard,
            came: Came::Unread,
            is_active: false,
            is_due: false,
            hung_up: false,
            is_cut: is_cut || is_lost,
            is_ended: false,
            is_paused: false,
        }
    }

    /// Registers the socket for events under this token.
    pub(crate) fn register(&mut self, registry: &Registry, token: Token) -> io::Result<()> {
        self.stream
            .register(registry, token, Interest::READABLE | Interest::WRITABLE)
    }
}

/// How long a connection may send nothing.
#[derive(Clone, Copy)]
pub(crate) struct Limits {
    pub(crate) idle: Option<Duration>,
    /// While its session has a transaction.
    pub(crate) idle_transaction: Option<Duration>,
}

impl Limits {
    /// True if any limit is set.
    pub(crate) fn are_set(&self) -> bool
        ensures { IsTrue result ↔ (IsSome self.now.idle ⊎ IsSome self.now.idle_transaction) }
    {
        self.idle.is_some() || self.idle_transaction.is_some()
    }
}

/// True if a limit is reached.
fn is_over(silent: Duration, limit: Option<Duration>) -> bool
    ensures { IsTrue result ↔ IsSomeAnd limit (λ limit. as_nanos limit ≤ as_nanos silent) }
{
    match limit {
        Some(limit) => silent.as_nanos() >= limit.as_nanos(),
        None => false,
    }
}

/// Gives the bytes of a read to the connection. The bytes may be lost for want of memory.
fn take_bytes<H: Hosting, D: Doorkeeper>(
    connection: &mut Connection<H, D>,
    buffer: &[u8],
    count: usize,
    hung_up: bool,
) -> Result<Came, AllocError>
    requires bound { count ≤ length buffer.now }
    requires may { MayReceive connection.old }
    ensures carries { (t : Traffic) → Carries t connection.old false → MatchResult result
        (λ _. Carries (after_read t buffer.now (Ok count)) connection.new false)
        (λ _. Carries (after_read t buffer.now (Ok count)) connection.new true) }
    ensures stays { connection.new.attached ≡ connection.old.attached }
    ensures unsent { connection.new.handed ≡ connection.old.handed }
    ensures hosted { connection.new.hosted ≡ connection.old.hosted }
{
    if count > 0 {
        let bytes = &buffer[..count];
        connection.receive(bytes)?;
        return Ok(Came::Bytes {
            has_line: bytes.contains(&b'\n'),
            all: count < buffer.len() && !hung_up,
        });
    }
    // a read into no room says nothing
    if buffer.is_empty() {
        return Ok(Came::Unread);
    }
    connection.receive_end();
    Ok(Came::Bytes {
        has_line: false,
        all: true,
    })
}

fn out_of_memory() -> ConnectionEnd
    ensures { result ≡ ConnectionEnd.Fault StreamError.NoMemory None }
{
    ConnectionEnd::Fault {
        why: StreamError::NoMemory,
        reason: None,
    }
}

fn fault(why: StreamError, reason: ErrorKind) -> ConnectionEnd
    ensures { result ≡ ConnectionEnd.Fault why (Some reason) }
{
    ConnectionEnd::Fault {
        why,
        reason: Some(reason),
    }
}
