//! The thread at the door: it takes connections, reads their first lines and hands them on.
ghost use Rattle.std.specs.Prelude.{◌≡◌, [], false, None};
ghost use Rattle.slab.specs.Slab.{slab_len};
ghost use Rattle.sb_server.specs.Closed.{GainsClosed};

use crate::commit_hook::CommitHook;
use crate::door::{Client, Door, not_accepted};
use crate::mailbox::Handoff;
use crate::pending_connection::{HandshakeRead, PendingConnection};
use crate::renewals::Renewals;
use crate::server::Serving;
use crate::sweeps::{SWEEP, Sweeps};
use crate::worker::Worker;
use mio::event::Event as Ready;
use mio::{Events, Token};
use sb_connection::{ConnectionEvent, Destination, Doorkeeper, Watch};
use sb_desk::{Hosting, Stub};
use sb_wire::StreamError;
use slab::Slab;
use std::io::ErrorKind;
use std::rt::Clock;
use std::sync::Wait;
use std::time::{Duration, Instant};

const LISTENER: Token = Token(usize::MAX - 1);

const INPUT: Token = Token(usize::MAX - 2);

/// The token of the pending connection with key 0. Tokens of client connections are below it.
const MOST_PENDING: usize = 1 << 48;

/// The most connections that are accepted before pending ones are read.
const TAKEN_A_TURN: usize = 64;

/// How long a client may take to send its first line, in seconds.
pub(crate) const FIRST_LINE: u32 = 10;

/// Accepts connections and reads their first lines. A worker of its own closes those that open no session.
#[derive(Drop)]
pub(crate) struct AcceptThread<'s, H: Hosting, V, D: Doorkeeper, K: CommitHook, E, C> {
    lobby: Worker<'s, H, V, D, K, E, C>,
    door: Door<'s>,
    pending_connections: Slab<Box<PendingConnection>>,
    /// When late pending connections were looked for.
    sweeps: Sweeps,
    /// The workers were told that no more connections come.
    has_told: bool,
}

impl<'s, H: Hosting, V: Watch, D: Doorkeeper, K: CommitHook, E: Renewals, C: Clock> AcceptThread<
    's,
    H,
    V,
    D,
    K,
    E,
    C,
> {
    pub(crate) fn new(
        lobby: Worker<'s, H, V, D, K, E, C>,
        door: Door<'s>,
    ) -> AcceptThread<'s, H, V, D, K, E, C>
        ensures { result.lobby.stubs.items ≡ lobby.entry.stubs.items }
    {
        let pending_connections = Slab::new(lobby.serving.alloc);
        AcceptThread {
            lobby,
            door,
            pending_connections,
            sweeps: Sweeps::none_yet(),
            has_told: false,
        }
    }

    /// The receipts of all sessions.
    pub(crate) fn into_stubs(self) -> Vec<Stub>
        ensures { result.items ≡ self.entry.lobby.stubs.items }
    {
        let AcceptThread { lobby, .. } = self;
        lobby.into_stubs()
    }

    /// Waits until all threads run, accepts connections, and closes the ones that are left at the end.
    pub(crate) fn run<T: Wait>(&mut self, rt: &T, events: &mut Events, watches_input: bool)
        ensures { GainsClosed D.policy self.old.lobby.stubs.items self.new.lobby.stubs.items }
    {
        if !self.lobby.meet(events) {
            return;
        }
        self.serve(rt, events, watches_input);
        self.lobby.close_all(rt);
    }

    /// Accepts connections until the count is reached and none is pending, or the server stops. Then it closes the
    /// port.
    fn serve<T: Wait>(&mut self, rt: &T, events: &mut Events, watches_input: bool)
        ensures { GainsClosed D.policy self.old.lobby.stubs.items self.new.lobby.stubs.items }
    {
        self.begin(watches_input);
        self.turns(rt, events);
        self.door.close();
    }

    /// Registers the listener for events, and the standard input if its end stops the server.
    fn begin(&mut self, watches_input: bool)
        ensures { self.new.lobby ≡ self.old.lobby }
    {
        let listener = self.door.descriptor();
        self.door.widen();
        self.lobby.report(listener, LISTENER);
        if watches_input && !self.lobby.report_input(INPUT) {
            self.lobby.serving.stop();
        }
    }

    fn turns<T: Wait>(&mut self, rt: &T, events: &mut Events)
        ensures { GainsClosed D.policy self.old.lobby.stubs.items self.new.lobby.stubs.items }
    {
        for _turn in 0..u64::MAX {
            self.tell_last();
            if self.lobby.serving.is_stopping() || (self.has_told && self.lobby.is_empty()) {
                return;
            }
            let patience = self.patience();
            if !self.lobby.wait(events, patience) {
                return;
            }
            for event in events.iter() {
                self.note(rt, event);
            }
            self.take_some(rt);
            self.lobby.serve_due(rt);
            self.lobby.sweep(rt);
            self.sweep(rt);
        }
    }

    /// Tells the workers once that no more connections come.
    fn tell_last(&mut self)
        ensures { self.new.lobby ≡ self.old.lobby }
    {
        if !self.has_told && !self.door.is_open() && self.pending_connections.is_empty() {
            self.has_told = true;
            self.lobby.serving.close_door();
        }
    }

    /// How long the thread may wait for events.
    fn patience(&self) -> Option<Duration>
        ensures { result ≡ None → (slab_len self.now.pending_connections ≡ 0) × (self.now.lobby.due.items ≡ []) × (self.now.lobby.all_due ≡ false) }
    {
        let mut patience = shorter(self.lobby.patience(), self.door.patience());
        if !self.pending_connections.is_empty() {
            patience = shorter(patience, Some(Duration::from_millis(SWEEP)));
        }
        patience
    }

    /// The time, if anything depends on it.
    fn now(&self) -> Option<Instant> {
        Instant::now(self.lobby.serving.clock).ok()
    }

    /// Handles one event.
    fn note<T: Wait>(&mut self, rt: &T, event: &Ready)
        ensures { self.new.lobby.stubs.items ≡ self.old.lobby.stubs.items }
    {
        let token = event.token();
        if token == LISTENER {
            self.door.note();
        } else if token == INPUT {
            if self.lobby.has_input_ended(INPUT) {
                self.lobby.serving.stop();
            }
        } else if token.0 < MOST_PENDING || token.0 > MOST_PENDING + MOST_PENDING {
            self.lobby.note(event);
        } else if let Some(pending_connection) = self
            .pending_connections
            .try_remove(token.0 - MOST_PENDING)
        {
            self.serve_pending(rt, pending_connection);
        }
    }

    /// Accepts some of the connections that wait at the listener. Where there is no descriptor for one, the pending
    /// connection that has been silent for longest is closed.
    fn take_some<T: Wait>(&mut self, rt: &T)
        ensures { self.new.lobby.stubs.items ≡ self.old.lobby.stubs.items }
    {
        let now = self.now();
        for _taken in 0..TAKEN_A_TURN {
            match self.door.take(self.lobby.serving.watch, now) {
                Some(client) => self.welcome(rt, client),
                None if self.door.is_short() && self.let_go() => {}
                None => return,
            }
        }
    }

    /// Closes the oldest pending connection. False if there is none.
    fn let_go(&mut self) -> bool
        ensures { self.new.lobby ≡ self.old.lobby }
    {
        let Some(key) = self.oldest() else {
            return false;
        };
        let Some(pending_connection) = self.pending_connections.try_remove(key) else {
            return false;
        };
        self.tell(pending_connection.port, ConnectionEvent::Late);
        true
    }

    /// The key of the pending connection that came first, about.
    fn oldest(&self) -> Option<usize> {
        let mut oldest = None;
        let mut age = 0;
        for key in 0..self.pending_connections.capacity() {
            if let Some(pending_connection) = self.pending_connections.get(key) {
                if oldest.is_none() || pending_connection.age > age {
                    oldest = Some(key);
                    age = pending_connection.age;
                }
            }
        }
        oldest
    }

    /// Reads the first line of an accepted connection. Without memory for it, the connection is closed.
    fn welcome<T: Wait>(&mut self, rt: &T, client: Client)
        ensures { self.new.lobby.stubs.items ≡ self.old.lobby.stubs.items }
    {
        let port = client.port;
        match PendingConnection::of(self.lobby.serving.alloc, client) {
            Ok(pending_connection) => {
                self.tell(port, ConnectionEvent::Came);
                self.serve_pending(rt, pending_connection);
            }
            Err(_) => self.tell(port, ConnectionEvent::NoPlace),
        }
    }

    fn tell(&self, port: u16, event: ConnectionEvent) {
        self.lobby.serving.watch.on_client_event(port, event);
    }

    /// Reads what a pending connection has sent, and hands it over when its first line is complete.
    fn serve_pending<T: Wait>(&mut self, rt: &T, mut pending_connection: Box<PendingConnection>)
        ensures { self.new.lobby.stubs.items ≡ self.old.lobby.stubs.items }
    {
        let port = pending_connection.port;
        match self.lobby.read_first_line(&mut pending_connection) {
            HandshakeRead::Destination(Destination::Unknown) => self.keep(pending_connection),
            HandshakeRead::Destination(Destination::To(tenant)) => self.hand_over(
                rt,
                tenant,
                pending_connection,
            ),
            HandshakeRead::Destination(Destination::Away) => {
                pending_connection.unwatch(self.lobby.poll.registry());
                self.lobby.admit(Box::into_inner(pending_connection), None);
            }
            HandshakeRead::Left => self.tell(port, ConnectionEvent::Left),
            HandshakeRead::Fault(reason) => {
                self.tell(port, read_failed(reason));
                self.tell(port, ConnectionEvent::Left);
            }
            HandshakeRead::NoMemory => self.tell(port, ConnectionEvent::NoPlace),
        }
    }

    /// Keeps a connection pending until it sends more. A connection that was pending before keeps its key. One whose line
    /// came in many pieces isn't watched any more: it is read once a second.
    fn keep(&mut self, mut pending_connection: Box<PendingConnection>)
        ensures { self.new.lobby ≡ self.old.lobby }
    {
        if self.pending_connections.reserve(1).is_err() {
            self.tell(pending_connection.port, ConnectionEvent::NoPlace);
            return;
        }
        let token = Token(MOST_PENDING.saturating_add(self.pending_connections.vacant_key()));
        if pending_connection.is_dripping() {
            pending_connection.unwatch(self.lobby.poll.registry());
        } else if !pending_connection.is_watched {
            if let Err(error) = pending_connection.watch(self.lobby.poll.registry(), token) {
                self.tell(pending_connection.port, not_accepted(&error));
                return;
            }
        }
        self.pending_connections.insert_reserved(pending_connection);
    }

    /// Hands a connection to the worker of its tenant's cell.
    fn hand_over<T: Wait>(
        &mut self,
        rt: &T,
        tenant: u32,
        mut pending_connection: Box<PendingConnection>,
    )
        ensures { self.new.lobby ≡ self.old.lobby }
    {
        pending_connection.unwatch(self.lobby.poll.registry());
        let port = pending_connection.port;
        if !self.lobby.serving.hand_over(
            rt,
            Handoff {
                tenant,
                pending_connection,
            },
        ) {
            self.tell(port, ConnectionEvent::NoPlace);
        }
    }

    /// Closes pending connections whose first line is late.
    fn sweep<T: Wait>(&mut self, rt: &T)
        ensures { self.new.lobby.stubs.items ≡ self.old.lobby.stubs.items }
    {
        if self.pending_connections.is_empty() {
            return;
        }
        let now = self.now();
        if self.sweeps.next(now).is_none() {
            return;
        }
        for key in 0..self.pending_connections.capacity() {
            self.judge(rt, key);
        }
    }

    /// Closes a pending connection if it is late. What it has sent is read first.
    fn judge<T: Wait>(&mut self, rt: &T, key: usize)
        ensures { self.new.lobby.stubs.items ≡ self.old.lobby.stubs.items }
    {
        let Some(mut pending_connection) = self.pending_connections.try_remove(key) else {
            return;
        };
        pending_connection.grow_older();
        self.serve_pending(rt, pending_connection);
        if self.is_late(key) {
            if let Some(pending_connection) = self.pending_connections.try_remove(key) {
                self.tell(pending_connection.port, ConnectionEvent::Late);
            }
        }
    }

    /// True if a pending connection is late.
    fn is_late(&self, key: usize) -> bool {
        match self.pending_connections.get(key) {
            Some(pending_connection) => pending_connection.age > FIRST_LINE,
            None => false,
        }
    }
}

/// The shorter of two times. None means no limit.
fn shorter(one: Option<Duration>, other: Option<Duration>) -> Option<Duration>
    ensures { result ≡ None → (one ≡ None) × (other ≡ None) }
{
    match (one, other) {
        (Some(one), Some(other)) => Some(one.min(other)),
        (None, other) => other,
        (one, None) => one,
    }
}

fn read_failed(reason: ErrorKind) -> ConnectionEvent {
    ConnectionEvent::Failed {
        named: None,
        why: StreamError::ReadFault,
        reason: Some(reason),
    }
}
