//! One worker: it waits for events of its connections, and serves those that have some.
ghost use Rattle.std.specs.Prelude.{◌≡◌, ◌≢◌, ◌⊎◌, ◌+◌, ◌≤◌, ◌++◌, ◌==◌, [], ℕ, false, true, cond, is_some, length, IfOk, IfSome, None, OnOk, OnSome, Some, Option, option_to_list, vec_len, vec_capacity};
ghost use Rattle.sb_desk.specs.declared.stub.Stub.{Stub as ItsStub};
ghost use Rattle.slab.specs.Slab.{Updates, get, slab_len};
ghost use Rattle.sb_server.specs.Closed.{GainsClosed, Leaves};
ghost use Rattle.sb_server.specs.Places.{place_of};
ghost use Rattle.sb_server.specs.Renewals.{KeepsOrRenews};
ghost use Rattle.sb_server.specs.Sessions.{KeepsSessions, has_one, session_count};
ghost use Rattle.sb_server.specs.Sockets.{traffic};
ghost use Rattle.sb_server.specs.ClientConnections.{HasSession};

use crate::client_connection::{ClientConnection, Limits};
use crate::commit_hook::CommitHook;
use crate::counts::{Cause, Count};
use crate::door::not_accepted;
use crate::input::{has_ended, watch_input};
use crate::mailbox::Handoff;
use crate::pending_connection::{HandshakeRead, PendingConnection};
use crate::poller::{Poller, WAKER};
use crate::renewals::Renewals;
use crate::server::Serving;
use crate::socket::Socket;
use crate::sweeps::{SWEEP, Sweeps};
use crate::time_shares::TimeShares;
use mio::event::Event as Ready;
use mio::unix::SourceFd;
use mio::{Events, Interest, Poll, Token};
use sb_connection::{ConnectionEnd, ConnectionEvent, Doorkeeper, SessionName, Watch};
use sb_desk::{Hosting, Stub};
use slab::Slab;
use std::alloc::{AllocError, AllocFailed};
use std::rt::Clock;
use std::sync::Wait;
use std::time::{Duration, Instant};

/// How often, and for how many milliseconds each time, a worker waits for the other threads to start.
const LOOKS: usize = 100;

const LOOK: u64 = 100;

/// The pause before a commit that lacked memory is tried again, in milliseconds.
const PAUSE: u64 = 100;

/// A worker with its connections, by their tokens.
#[derive(Drop)]
pub(crate) struct Worker<'s, H: Hosting, V, D: Doorkeeper, K: CommitHook, E, C> {
    pub(crate) serving: &'s Serving<'s, H, V, D, K, E, C>,
    /// The place of its counters.
    pub(crate) place: usize,
    limits: Limits,
    pub(crate) poll: Poll,
    pub(crate) buffer: Vec<u8>,
    pub(crate) client_connections: Slab<Box<ClientConnection<H, Socket, D>>>,
    /// The connections that are served next, by key.
    pub(crate) due: Vec<usize>,
    /// The queue lacked memory for a key, so all connections are served next.
    pub(crate) all_due: bool,
    /// The time that each tenant has had.
    pub(crate) time_shares: TimeShares,
    /// The newest round was too short for all connections that were due.
    pub(crate) is_behind: bool,
    /// The tenants with answers that are not committed yet. Their connections are not read meanwhile.
    pub(crate) answered: Vec<u32>,
    pub(crate) stubs: Vec<Stub>,
    /// The waker was used.
    is_called: bool,
    /// When events came, if lines are timed.
    pub(crate) woke: Option<Instant>,
    /// When silent connections were looked for.
    sweeps: Sweeps,
    /// The tenants that are renewed next, if they can be.
    pub(crate) renewing: Vec<u32>,
    /// Connections may await a renewal. They are looked at in sweeps.
    pub(crate) has_paused: bool,
    /// Each connection has a place for its receipts.
    ghost room: { vec_len stubs + slab_len client_connections ≤ vec_capacity stubs },
    /// Without a commit hook nothing waits for a commit.
    ghost unkept: { K.is_set serving.now.commit_hook.now ≡ false → answered.items ≡ [] },
}

impl<'s, H: Hosting, V: Watch, D: Doorkeeper, K: CommitHook, E: Renewals, C: Clock> Worker<
    's,
    H,
    V,
    D,
    K,
    E,
    C,
> {
    /// A worker without connections.
    pub(crate) fn new(
        serving: &'s Serving<'s, H, V, D, K, E, C>,
        place: usize,
        limits: Limits,
        seat: Poller,
    ) -> Self
        ensures { result.stubs.items ≡ [] }
    {
        let Poller { poll, buffer } = seat;
        Worker {
            serving,
            place,
            limits,
            poll,
            buffer,
            client_connections: Slab::new(serving.alloc),
            due: Vec::new(serving.alloc),
            all_due: false,
            time_shares: TimeShares::new(),
            is_behind: false,
            answered: Vec::new(serving.alloc),
            stubs: Vec::new(serving.alloc),
            is_called: true,
            woke: None,
            sweeps: Sweeps::none_yet(),
            renewing: Vec::new(serving.alloc),
            has_paused: false,
        }
    }

    /// The receipts of all sessions.
    pub(crate) fn into_stubs(self) -> Vec<Stub>
        ensures { result.items ≡ self.entry.stubs.items }
    {
        let Worker { stubs, .. } = self;
        stubs
    }

    /// Waits until all threads run. False if they don't.
    pub(crate) fn meet(&mut self, events: &mut Events) -> bool
        ensures { (self.new.stubs.items ≡ self.old.stubs.items) × (self.new.client_connections ≡ self.old.client_connections) }
    {
        self.serving.arrive();
        for _look in 0..LOOKS {
            if self.serving.are_all_here() {
                return true;
            }
            let patience = Some(Duration::from_millis(LOOK));
            if self.serving.is_stopping() || !self.wait(events, patience) {
                return false;
            }
        }
        self.serving.lack_thread();
        false
    }

    /// Waits until all threads run, serves the connections of its cells, and closes the ones that are left at the end.
    pub(crate) fn run<T: Wait>(&mut self, rt: &T, events: &mut Events)
        ensures { KeepsOrRenews D.policy E.may_renew E.takes self.old.client_connections self.new.client_connections (λ v. v.value.connection.attached) self.old.stubs.items self.new.stubs.items }
    {
        if !self.meet(events) {
            return;
        }
        self.serve(rt, events);
        self.close_all(rt);
    }

    /// Serves the connections of its cells until none is left and none comes, or the server stops.
    fn serve<T: Wait>(&mut self, rt: &T, events: &mut Events)
        ensures { KeepsOrRenews D.policy E.may_renew E.takes self.old.client_connections self.new.client_connections (λ v. v.value.connection.attached) self.old.stubs.items self.new.stubs.items }
    {
        for _turn in 0..u64::MAX {
            // what was handed over before the door closed is there, told or not
            let is_last = self.serving.is_door_closed();
            self.is_called |= is_last;
            self.take_over(rt);
            if self.serving.is_stopping() || (is_last && self.client_connections.is_empty()) {
                return;
            }
            if !self.wait(events, self.patience()) {
                return;
            }
            for event in events.iter() {
                self.note(event);
            }
            self.serve_due(rt);
            self.sweep(rt);
            self.renew_noted(rt);
        }
    }

    /// Waits for events. False if the system refuses to wait.
    pub(crate) fn wait(&mut self, events: &mut Events, patience: Option<Duration>) -> bool
        ensures { (self.new.stubs ≡ self.old.stubs) × (self.new.client_connections ≡ self.old.client_connections) }
    {
        self.note_busy();
        if self.poll.poll(events, patience).is_err() {
            self.serving.fail_poll();
            return false;
        }
        self.woke = self.serving.time();
        true
    }

    /// Counts the time since it was told of events.
    fn note_busy(&self) {
        let serving = self.serving;
        if !serving.server_metrics.is_set() {
            return;
        }
        let Some(woke) = self.woke else {
            return;
        };
        let Some(now) = serving.time() else {
            return;
        };
        if let Ok(nanos) = u64::try_from(now.duration_since(woke).as_nanos()) {
            serving.server_metrics.add(self.place, Count::Busy, nanos);
        }
    }

    /// Registers a descriptor for events under this token.
    pub(crate) fn report(&self, descriptor: i32, token: Token) {
        let registry = self.poll.registry();
        let _told_by_a_turn = registry.register(
            &mut SourceFd(&descriptor),
            token,
            Interest::READABLE,
        );
    }

    /// Registers the standard input for events under this token. False if it can't be waited for.
    pub(crate) fn report_input(&self, token: Token) -> bool {
        !watch_input(self.poll.registry(), token)
    }

    /// True if the program's input, which is ready, has ended.
    pub(crate) fn has_input_ended(&self, token: Token) -> bool {
        has_ended(self.poll.registry(), token)
    }

    /// Reads what a pending connection has sent.
    pub(crate) fn read_first_line(
        &mut self,
        pending_connection: &mut PendingConnection,
    ) -> HandshakeRead
        ensures { self.new.stubs ≡ self.old.stubs }
    {
        let serving = self.serving;
        pending_connection.read_first_line(&mut self.buffer, serving.handshake())
    }

    /// True if the worker has no connection.
    pub(crate) fn is_empty(&self) -> bool
        ensures { result ≡ (slab_len self.now.client_connections == 0) }
    {
        self.client_connections.is_empty()
    }

    /// How long the worker may wait for events.
    pub(crate) fn patience(&self) -> Option<Duration>
        ensures { result ≡ None → (self.now.due.items ≡ []) × (self.now.all_due ≡ false) × (self.now.answered.items ≡ []) }
    {
        if !self.answered.is_empty() {
            return Some(Duration::from_millis(PAUSE));
        }
        if self.all_due || !self.due.is_empty() {
            return Some(Duration::ZERO);
        }
        if !self.renewing.is_empty() {
            return Some(Duration::ZERO);
        }
        if self.is_swept() && !self.client_connections.is_empty() {
            return Some(Duration::from_millis(SWEEP));
        }
        None
    }

    /// True if connections are looked at once a second.
    fn is_swept(&self) -> bool {
        self.limits.are_set() || self.has_paused
    }

    /// The time, if connections are looked at once a second.
    pub(crate) fn now(&self) -> Option<Instant> {
        if !self.is_swept() {
            return None;
        }
        Instant::now(self.serving.clock).ok()
    }

    /// Handles one event.
    pub(crate) fn note(&mut self, event: &Ready)
        ensures stubs { self.new.stubs ≡ self.old.stubs }
        ensures sessions { session_count self.old.client_connections (λ v. v.value.connection.attached) ≤ session_count self.new.client_connections (λ v. v.value.connection.attached) }
    {
        let token = event.token();
        if token == WAKER {
            self.is_called = true;
        } else {
            self.note_client(token.0, event.is_read_closed());
        }
    }

    /// A client's socket can be read or written.
    fn note_client(&mut self, key: usize, hung_up: bool)
        ensures stubs { self.new.stubs ≡ self.old.stubs }
        ensures sessions { session_count self.old.client_connections (λ v. v.value.connection.attached) ≤ session_count self.new.client_connections (λ v. v.value.connection.attached) }
    {
        let Some(mut client_connection) = self.take_out(key) else {
            return;
        };
        client_connection.hung_up |= hung_up;
        self.put_due(client_connection);
    }

    /// Takes a connection out. It is put back or settled next.
    pub(crate) fn take_out(&mut self, key: usize) -> Option<Box<ClientConnection<H, Socket, D>>>
        ensures client_connection { result ≡ get self.old.client_connections key }
        ensures updates { Updates self.old.client_connections self.new.client_connections key None }
        ensures sessions { session_count self.old.client_connections (λ v. v.value.connection.attached) ≡ session_count self.new.client_connections (λ v. v.value.connection.attached) + cond (has_one result (λ v. v.value.connection.attached)) 1 0 }
        ensures next { OnSome result (self.new.client_connections.vacant_key ≡ key) }
        ensures place { OnSome result (slab_len self.new.client_connections + 1 ≤ self.new.client_connections.capacity) }
        ensures room { OnSome result (vec_len self.new.stubs + (slab_len self.new.client_connections + 1) ≤ vec_capacity self.new.stubs) }
        ensures stubs { self.new.stubs ≡ self.old.stubs }
        ensures answered { self.new.answered ≡ self.old.answered }
    {
        self.client_connections.try_remove(key)
    }

    /// Puts a connection into the vacant place, and tells which that is.
    pub(crate) fn put_back(
        &mut self,
        client_connection: Box<ClientConnection<H, Socket, D>>,
    ) -> usize
        requires stub { vec_len self.old.stubs + (slab_len self.old.client_connections + 1) ≤ vec_capacity self.old.stubs }
        requires place { slab_len self.old.client_connections + 1 ≤ self.old.client_connections.capacity }
        ensures key { result ≡ self.old.client_connections.vacant_key }
        ensures updates { Updates self.old.client_connections self.new.client_connections self.old.client_connections.vacant_key (Some client_connection) }
        ensures sessions { session_count self.new.client_connections (λ v. v.value.connection.attached) ≡ session_count self.old.client_connections (λ v. v.value.connection.attached) + cond client_connection.value.connection.attached 1 0 }
        ensures stubs { self.new.stubs ≡ self.old.stubs }
        ensures due { (self.new.due ≡ self.old.due) × (self.new.all_due ≡ self.old.all_due) }
        ensures answered { self.new.answered ≡ self.old.answered }
    {
        self.client_connections.insert_reserved(client_connection)
    }

    /// Puts a connection back, and serves it next.
    pub(crate) fn put_due(&mut self, mut client_connection: Box<ClientConnection<H, Socket, D>>)
        requires stub { vec_len self.old.stubs + (slab_len self.old.client_connections + 1) ≤ vec_capacity self.old.stubs }
        requires place { slab_len self.old.client_connections + 1 ≤ self.old.client_connections.capacity }
        ensures sessions { session_count self.new.client_connections (λ v. v.value.connection.attached) ≡ session_count self.old.client_connections (λ v. v.value.connection.attached) + cond client_connection.value.connection.attached 1 0 }
        ensures client_connection { IfSome (get self.new.client_connections self.old.client_connections.vacant_key) (λ v.
            (v.value.connection ≡ client_connection.value.connection) × (v.value.is_ended ≡ client_connection.value.is_ended)) }
        ensures there { is_some (get self.new.client_connections self.old.client_connections.vacant_key) ≡ true }
        ensures elsewhere { (key : ℕ) → key ≢ self.old.client_connections.vacant_key
            → get self.new.client_connections key ≡ get self.old.client_connections key }
        ensures others { (self.new.stubs ≡ self.old.stubs) × (self.new.answered ≡ self.old.answered) }
    {
        let was_due = client_connection.is_due;
        client_connection.is_due = true;
        let key = self.put_back(client_connection);
        if !was_due && self.due.push(key).is_err() {
            self.all_due = true;
        }
    }

    /// Takes over the connections that were handed to this worker.
    fn take_over<T: Wait>(&mut self, rt: &T)
        ensures stubs { self.new.stubs.items ≡ self.old.stubs.items }
        ensures sessions { session_count self.old.client_connections (λ v. v.value.connection.attached) ≤ session_count self.new.client_connections (λ v. v.value.connection.attached) }
    {
        if !self.is_called {
            return;
        }
        self.is_called = false;
        for handoff in self.serving.handoffs(rt, self.place) {
            if self.serving.place_of(handoff.tenant) == self.place {
                self.settle_in(handoff);
            } else {
                self.refuse(handoff.pending_connection.port, ConnectionEvent::NoPlace);
            }
        }
        self.obey(rt);
        self.note_wanted(rt);
    }

    /// Notes the tenants that operators have asked to renew.
    fn note_wanted<T: Wait>(&mut self, rt: &T)
        ensures { (self.new.stubs ≡ self.old.stubs) × (self.new.client_connections ≡ self.old.client_connections) }
    {
        for tenant in self
            .serving
            .server_metrics
            .take_renewals(rt, self.serving.alloc, self.place)
        {
            self.serving.renewals.ask(tenant);
            let _or_at_the_next_turn = self.note_renewal(tenant);
        }
    }

    /// Ends the sessions that operators have asked to end.
    fn obey<T: Wait>(&mut self, rt: &T)
        ensures stubs { self.new.stubs.items ≡ self.old.stubs.items }
        ensures sessions { session_count self.old.client_connections (λ v. v.value.connection.attached) ≤ session_count self.new.client_connections (λ v. v.value.connection.attached) }
    {
        for named in self
            .serving
            .server_metrics
            .take_ends(rt, self.serving.alloc, self.place)
        {
            self.end_session(named);
        }
    }

    /// Marks the connection of a session to end in its next turn.
    fn end_session(&mut self, named: SessionName)
        ensures stubs { self.new.stubs.items ≡ self.old.stubs.items }
        ensures sessions { session_count self.old.client_connections (λ v. v.value.connection.attached) ≤ session_count self.new.client_connections (λ v. v.value.connection.attached) }
    {
        for key in 0..self.client_connections.capacity() {
            self.end_if(key, named);
        }
    }

    /// Marks a connection to end in its next turn, if it has this session.
    fn end_if(&mut self, key: usize, named: SessionName)
        ensures ended { IfSome (get self.new.client_connections key) (λ v. v.value.is_ended ≡ true
            → (HasSession v.value.connection named) ⊎ IfSome (get self.old.client_connections key) (λ v. v.value.is_ended ≡ true)) }
        ensures has { IfSome (get self.new.client_connections key) (λ v. HasSession v.value.connection named → v.value.is_ended ≡ true) }
        ensures stubs { self.new.stubs ≡ self.old.stubs }
        ensures sessions { session_count self.old.client_connections (λ v. v.value.connection.attached) ≤ session_count self.new.client_connections (λ v. v.value.connection.attached) }
    {
        let Some(mut client_connection) = self.take_out(key) else {
            return;
        };
        if client_connection.has_session(named) {
            client_connection.is_ended = true;
            self.put_due(client_connection);
        } else {
            self.put_back(client_connection);
        }
    }

    /// Takes over a connection of one of this worker's cells.
    fn settle_in(&mut self, handoff: Handoff)
        requires { self.old.place ≡ place_of H.cells (vec_len self.old.serving.now.mailboxes) handoff.tenant }
        ensures stubs { self.new.stubs.items ≡ self.old.stubs.items }
        ensures sessions { session_count self.old.client_connections (λ v. v.value.connection.attached) ≤ session_count self.new.client_connections (λ v. v.value.connection.attached) }
    {
        let Handoff {
            tenant,
            pending_connection,
        } = handoff;
        self.admit(Box::into_inner(pending_connection), Some(tenant));
    }

    /// Logs that a client is not served.
    fn refuse(&self, port: u16, why: ConnectionEvent) {
        self.serving.watch.on_client_event(port, why);
    }

    /// Takes over a connection. Its first line names this tenant, if it opens a session. Without memory the connection
    /// is closed.
    pub(crate) fn admit(&mut self, pending_connection: PendingConnection, tenant: Option<u32>)
        requires { IfSome tenant (λ tenant. self.old.place ≡ place_of H.cells (vec_len self.old.serving.now.mailboxes) tenant) }
        ensures stubs { self.new.stubs.items ≡ self.old.stubs.items }
        ensures sessions { session_count self.old.client_connections (λ v. v.value.connection.attached) ≤ session_count self.new.client_connections (λ v. v.value.connection.attached) }
    {
        let port = pending_connection.port;
        if self.make_room().is_err() {
            self.refuse(port, ConnectionEvent::NoPlace);
            return;
        }
        match self.client_connection_of(pending_connection, tenant) {
            Ok(client_connection) => self.begin(client_connection),
            Err(_) => self.refuse(port, ConnectionEvent::NoPlace),
        }
    }

    /// Makes a client connection of a pending one. Without memory the pending connection is given back.
    fn client_connection_of(
        &self,
        pending_connection: PendingConnection,
        tenant: Option<u32>,
    ) -> Result<Box<ClientConnection<H, Socket, D>>, AllocFailed<ClientConnection<H, Socket, D>>>
        ensures { IfOk result (λ client_connection. (client_connection.value.tenant ≡ tenant) × (client_connection.value.port ≡ pending_connection.port)) }
    {
        let serving = self.serving;
        let heard = self.now();
        let client_connection = ClientConnection::begin(
            serving.alloc,
            serving.host,
            serving.handshake(),
            pending_connection,
            tenant,
            heard,
        );
        Box::new(serving.alloc, client_connection)
    }

    /// Reserves memory for one more connection and its receipts.
    fn make_room(&mut self) -> Result<(), AllocError>
        ensures stub { OnOk result (vec_len self.new.stubs + (slab_len self.new.client_connections + 1) ≤ vec_capacity self.new.stubs) }
        ensures place { OnOk result (slab_len self.new.client_connections + 1 ≤ self.new.client_connections.capacity) }
        ensures sessions { session_count self.new.client_connections (λ v. v.value.connection.attached) ≡ session_count self.old.client_connections (λ v. v.value.connection.attached) }
        ensures stubs { self.new.stubs.items ≡ self.old.stubs.items }
    {
        self.stubs.reserve(self.client_connections.len() + 1)?;
        self.make_place()
    }

    /// Reserves memory for one more connection.
    fn make_place(&mut self) -> Result<(), AllocError>
        ensures place { OnOk result (slab_len self.new.client_connections + 1 ≤ self.new.client_connections.capacity) }
        ensures client_connections { slab_len self.new.client_connections ≡ slab_len self.old.client_connections }
        ensures sessions { session_count self.new.client_connections (λ v. v.value.connection.attached) ≡ session_count self.old.client_connections (λ v. v.value.connection.attached) }
        ensures stubs { self.new.stubs ≡ self.old.stubs }
    {
        self.client_connections.reserve(1)
    }

    /// Registers a connection for events, and serves it next.
    fn begin(&mut self, mut client_connection: Box<ClientConnection<H, Socket, D>>)
        requires stub { vec_len self.old.stubs + (slab_len self.old.client_connections + 1) ≤ vec_capacity self.old.stubs }
        requires client_connection { slab_len self.old.client_connections + 1 ≤ self.old.client_connections.capacity }
        ensures stubs { self.new.stubs ≡ self.old.stubs }
        ensures sessions { session_count self.old.client_connections (λ v. v.value.connection.attached) ≤ session_count self.new.client_connections (λ v. v.value.connection.attached) }
    {
        let token = Token(self.client_connections.vacant_key());
        match client_connection.register(self.poll.registry(), token) {
            Ok(()) => {
                self.serving
                    .server_metrics
                    .add(self.place, Count::Connections, 1);
                self.put_due(client_connection);
            }
            Err(error) => self.refuse(client_connection.port, not_accepted(&error)),
        }
    }

    /// Closes the connections that have been silent for too long, and notes the tenants whose connections await a renewal.
    pub(crate) fn sweep<T: Wait>(&mut self, rt: &T)
        ensures gains { GainsClosed D.policy self.old.stubs.items self.new.stubs.items }
        ensures sessions { KeepsSessions self.old.client_connections self.new.client_connections (λ v. v.value.connection.attached) self.old.stubs.items self.new.stubs.items }
    {
        let now = self.now();
        let Some(now) = self.sweeps.next(now) else {
            return;
        };
        self.has_paused = false;
        for key in 0..self.client_connections.capacity() {
            self.judge(rt, key, now);
            self.note_awaiting(key);
        }
    }

    /// Closes a connection if it has been silent for too long. What it has sent is read first.
    fn judge<T: Wait>(&mut self, rt: &T, key: usize, now: Instant)
        ensures gains { GainsClosed D.policy self.old.stubs.items self.new.stubs.items }
        ensures sessions { KeepsSessions self.old.client_connections self.new.client_connections (λ v. v.value.connection.attached) self.old.stubs.items self.new.stubs.items }
    {
        if self.silence(key, now).is_none() {
            return;
        }
        self.serve_apart(rt, key);
        if let Some(ending) = self.silence(key, now) {
            self.end(rt, key, ending);
        }
    }

    /// How a connection ends if it has been silent for too long.
    fn silence(&self, key: usize, now: Instant) -> Option<ConnectionEnd> {
        match self.client_connections.get(key) {
            Some(client_connection) => client_connection.silence(now, &self.limits),
            None => None,
        }
    }

    /// Closes all connections that are left.
    pub(crate) fn close_all<T: Wait>(&mut self, rt: &T)
        ensures none_left { (key : ℕ) → get self.new.client_connections key ≡ None }
        ensures gains { GainsClosed D.policy self.old.stubs.items self.new.stubs.items }
        ensures sessions { KeepsSessions self.old.client_connections self.new.client_connections (λ v. v.value.connection.attached) self.old.stubs.items self.new.stubs.items }
    {
        for key in 0..self.client_connections.capacity() {
            self.end(rt, key, ConnectionEnd::Well);
        }
    }

    /// Closes a connection, if there is one.
    fn end<T: Wait>(&mut self, rt: &T, key: usize, ending: ConnectionEnd)
        ensures ends { Updates self.old.client_connections self.new.client_connections key None }
        ensures gains { GainsClosed D.policy self.old.stubs.items self.new.stubs.items }
        ensures sessions { KeepsSessions self.old.client_connections self.new.client_connections (λ v. v.value.connection.attached) self.old.stubs.items self.new.stubs.items }
    {
        if let Some(client_connection) = self.take_out(key) {
            self.settle(rt, Box::into_inner(client_connection), ending);
        }
    }

    /// Counts the end of a connection, and that of its transaction, if it has one.
    fn note_end(&self, has_transaction: bool) {
        let server_metrics = self.serving.server_metrics;
        server_metrics.add(self.place, Count::Closed, 1);
        if has_transaction {
            server_metrics.add(self.place, Count::Rollback(Cause::End), 1);
        }
    }

    /// Closes a connection, and keeps the receipts of its session.
    pub(crate) fn settle<T: Wait>(
        &mut self,
        rt: &T,
        client_connection: ClientConnection<H, Socket, D>,
        ending: ConnectionEnd,
    )
        requires { vec_len self.old.stubs + (slab_len self.old.client_connections + 1) ≤ vec_capacity self.old.stubs }
        ensures left { (stub : Option ItsStub) × Leaves D.policy (traffic client_connection.stream) client_connection.connection client_connection.is_cut stub
            × (self.new.stubs.items ≡ self.old.stubs.items ++ option_to_list stub) }
        ensures others { (self.new.client_connections ≡ self.old.client_connections) × (self.new.answered ≡ self.old.answered) }
        ensures session { length self.new.stubs.items ≡ length self.old.stubs.items + cond client_connection.connection.attached 1 0 }
        ensures gains { GainsClosed D.policy self.old.stubs.items self.new.stubs.items }
    {
        self.note_end(client_connection.has_transaction());
        if let Some(stub) = client_connection.leave(rt, self.serving.watch, ending) {
            self.stubs.push_reserved(stub);
        }
    }
}
