//! All connections of a listener, served by workers.
ghost use Rattle.std.specs.Prelude.{◌≡◌, ◌<◌, ◌≤◌, ◌+◌, ◌++◌, [], ℕ, List, IfOk, IsTrue, Ok, OnOk, Vec, vec_len};
ghost use Rattle.std.specs.Global.{Global as ItsGlobal};
ghost use Rattle.std.specs.List.{flat_map};
ghost use Rattle.sb_desk.specs.declared.stub.Stub.{Stub as ItsStub};
ghost use Rattle.sb_connection.specs.Policies.{policy};
ghost use Rattle.sb_server.specs.Mailboxes.{ArePlaced};
ghost use Rattle.sb_server.specs.Places.{place_of};
ghost use Rattle.sb_server.specs.Renewals.{AreLeft, LeavesOrRenews};

use crate::accept_thread::{AcceptThread, FIRST_LINE};
use crate::background_task::{BackgroundTask, ShutdownSignal, run_beside};
use crate::client_connection::Limits;
use crate::commit_hook::{CommitHook, CommitStatus};
use crate::door::Door;
use crate::guard::{Guard, PolicyName};
use crate::mailbox::{Handoff, Mailbox};
use crate::pending_connection::HandshakeSettings;
use crate::poller::Poller;
use crate::renewals::Renewals;
use crate::server_metrics::ServerMetrics;
use crate::worker::Worker;
use mio::{Events, Waker};
use sb_connection::{Admission, Doorkeeper, Watch};
use sb_desk::{Hosting, Stub};
use sb_workers::Work;
use std::alloc::{AllocError, Global};
use std::marker::Brand;
use std::net::{Net, TcpListener};
use std::rt::Clock;
use std::sync::Wait;
use std::sync::atomic::{AtomicBool, Ordering};
use std::thread::Threads;
use std::time::{Duration, Instant};

/// How long a server serves, and whom.
#[derive(Clone, Copy, Debug)]
pub struct Terms {
    /// The cells are shared out among so many threads; one more stands at the door.
    pub workers: usize,
    /// The number of the host's first tenant, as clients name it.
    pub first_tenant: u32,
    /// How many connections are taken, or 0, which is without end.
    pub connections: u64,
    /// It stops where the program's input ends.
    pub until_input_ends: bool,
    /// A connection is closed that has sent no line for so long.
    pub idle: Option<Duration>,
    /// A connection is closed that has sent no line for so long in a transaction.
    pub idle_transaction: Option<Duration>,
    /// A line that takes so long is told.
    pub slow: Option<Duration>,
}

/// Where connections are taken, who is told of them, whom they admit, what is kept and counted, which tenants are
/// renewed, and by which terms they are served.
#[derive(Drop)]
pub struct ServerConfig<'s, V, A, K, E> {
    pub listener: &'s TcpListener,
    pub watch: &'s V,
    pub admission: &'s A,
    pub commit_hook: &'s K,
    pub renewals: &'s E,
    /// Where its workers count, and are told whose sessions end.
    pub server_metrics: &'s ServerMetrics,
    pub terms: Terms,
}

/// Why a server ended before it was to.
#[derive(Clone, Copy, Debug, PartialEq, Eq)]
pub enum ServeError {
    NoMemory,
    /// The system has no place where a thread may wait for connections.
    NoPlace,
    /// A thread couldn't be started.
    NoThread,
    /// The system doesn't tell any more what happens to connections.
    PollFailed,
    /// What was answered couldn't be kept. Its replies weren't sent.
    NotKept,
}

impl From<AllocError> for ServeError {
    fn from(_error: AllocError) -> ServeError {
        ServeError::NoMemory
    }
}

/// What all threads of a server share.
#[derive(Drop)]
pub(crate) struct Serving<'s, H: Hosting, V, D, K, E, C> {
    pub(crate) alloc: Global,
    pub(crate) host: H,
    pub(crate) watch: &'s V,
    pub(crate) doorkeeper: &'s D,
    pub(crate) commit_hook: &'s K,
    pub(crate) renewals: &'s E,
    pub(crate) server_metrics: &'s ServerMetrics,
    pub(crate) clock: &'s C,
    pub(crate) first_tenant: u32,
    listener: &'s TcpListener,
    terms: Terms,
    /// The mailbox of each worker, by its place.
    pub(crate) mailboxes: Vec<Mailbox>,
    /// The waker of the accept thread.
    door: Waker,
    /// Which threads run.
    over: &'s ShutdownSignal,
    is_door_closed: AtomicBool,
    stopping: AtomicBool,
    lacks_thread: AtomicBool,
    has_failed: AtomicBool,
    has_lost: AtomicBool,
    ghost some: { 0 < vec_len mailboxes },
    /// The workers and the accept thread.
    ghost counted: { over.now.jobs ≡ vec_len mailboxes + 1 },
    ghost placed: { ArePlaced mailboxes.items },
}

impl<'s, H: Hosting, V, D, K, E, C> Serving<'s, H, V, D, K, E, C> {
    /// The place of the worker that has a tenant's cell.
    pub(crate) fn place_of(&self, tenant: u32) -> usize
        ensures { result ≡ place_of H.cells (vec_len self.now.mailboxes) tenant }
    {
        (tenant % self.host.cells()) as usize % self.mailboxes.len()
    }

    /// The mailbox of the worker that has a tenant's cell.
    fn mailbox_of(&self, tenant: u32) -> &Mailbox
        ensures { result.now.place ≡ place_of H.cells (vec_len self.now.mailboxes) tenant }
    {
        &self.mailboxes[self.place_of(tenant)]
    }

    /// Hands a connection to the worker of its tenant's cell. False without memory.
    pub(crate) fn hand_over<T: Wait>(&self, rt: &T, handoff: Handoff) -> bool {
        self.mailbox_of(handoff.tenant).put(rt, handoff)
    }

    /// Removes the connections that were handed to the worker at this place.
    pub(crate) fn handoffs<T: Wait>(&self, rt: &T, place: usize) -> Vec<Handoff> {
        match self.mailboxes.get(place) {
            Some(mailbox) => mailbox.take(rt, self.alloc),
            None => Vec::new(self.alloc),
        }
    }

    /// Tells that one more thread runs. The service ends if it comes too late.
    pub(crate) fn arrive(&self) {
        if self.over.is_too_late() {
            self.lack_thread();
        } else if self.are_all_here() {
            self.wake_all();
        }
    }

    /// True if all threads run: the workers and the accept thread.
    pub(crate) fn are_all_here(&self) -> bool {
        self.over.are_all_here()
    }

    pub(crate) fn is_door_closed(&self) -> bool {
        self.is_door_closed.load(Ordering::SeqCst)
    }

    /// Notes that no more connections are handed over.
    pub(crate) fn close_door(&self) {
        self.raise(&self.is_door_closed);
    }

    pub(crate) fn is_stopping(&self) -> bool {
        self.stopping.load(Ordering::SeqCst)
    }

    /// Ends the service.
    pub(crate) fn stop(&self) {
        self.raise(&self.stopping);
    }

    /// Ends the service: a thread could not be started.
    pub(crate) fn lack_thread(&self) {
        self.stop_by(&self.lacks_thread);
    }

    /// Ends the service: a thread can't wait for events.
    pub(crate) fn fail_poll(&self) {
        self.stop_by(&self.has_failed);
    }

    /// Ends the service: answers could not be committed.
    pub(crate) fn lose(&self) {
        self.stop_by(&self.has_lost);
    }

    /// True if answers could not be committed.
    pub(crate) fn has_lost(&self) -> bool {
        self.has_lost.load(Ordering::SeqCst)
    }

    /// Sets a flag, and ends the service.
    fn stop_by(&self, flag: &AtomicBool) {
        flag.store(true, Ordering::SeqCst);
        self.stop();
    }

    /// Sets a flag, and wakes all threads.
    fn raise(&self, flag: &AtomicBool) {
        flag.store(true, Ordering::SeqCst);
        self.wake_all();
    }

    fn wake_all(&self) {
        let _told = self.door.wake();
        for mailbox in &self.mailboxes {
            mailbox.wake();
        }
    }

    /// Why the service ended early, if it did.
    fn failure(&self) -> Option<ServeError> {
        if self.lacks_thread.load(Ordering::SeqCst) {
            return Some(ServeError::NoThread);
        }
        if self.has_failed.load(Ordering::SeqCst) {
            return Some(ServeError::PollFailed);
        }
        if self.has_lost() {
            return Some(ServeError::NotKept);
        }
        None
    }
}

/// The work of a thread.
#[derive(Clone, Copy)]
enum Role {
    /// Accepts connections.
    Door,
    /// Serves the cells of this place.
    Worker(usize),
}

/// The poller of a thread, its events, and its work.
#[derive(Drop)]
pub(crate) struct WorkerSetup {
    role: Role,
    seat: Poller,
    events: Events,
}

impl<'s, H: Hosting, V: Watch, D: Doorkeeper, K: CommitHook, E: Renewals, C: Clock> Work<
    WorkerSetup,
    Vec<Stub>,
> for Serving<'s, H, V, D, K, E, C> {
    ghost use Rattle.sb_server.specs.Renewals.{LeavesOrRenews};

    ghost does = { λ _ stubs. LeavesOrRenews D.policy E.may_renew E.takes stubs.items };

    fn work<R: Wait>(&self, rt: &R, setup: WorkerSetup) -> Vec<Stub> {
        let WorkerSetup {
            role,
            seat,
            mut events,
        } = setup;
        match role {
            Role::Door => self.run_accept_thread(rt, seat, &mut events),
            Role::Worker(place) => self.serve_cells(rt, place, seat, &mut events),
        }
    }
}

impl<'s, H: Hosting, V: Watch, D: Doorkeeper, K: CommitHook, E: Renewals, C: Clock> Serving<
    's,
    H,
    V,
    D,
    K,
    E,
    C,
> {
    /// The settings by which first lines are read.
    pub(crate) fn handshake(&self) -> HandshakeSettings
        ensures tenants { (result.first ≡ self.now.first_tenant) × (result.tenants ≡ H.tenants self.now.host) }
        ensures keyed { result.keyed ≡ D.policy.keyed }
    {
        HandshakeSettings {
            first: self.first_tenant,
            tenants: self.host.tenants(),
            keyed: self.doorkeeper.asks_for_key(),
        }
    }

    /// Commits what these tenants were answered. True if it is durable. If no commit is possible any more, the service
    /// ends.
    pub(crate) fn keep<T: Wait>(&self, rt: &T, tenants: &[u32]) -> bool
        ensures { IsTrue result → K.keeps self.now.commit_hook.now tenants.now }
    {
        match self.commit_hook.keep(rt, tenants) {
            CommitStatus::All => !self.has_lost(),
            CommitStatus::NotYet => false,
            CommitStatus::Failed => {
                self.lose();
                false
            }
        }
    }

    /// A line that takes at least so long is logged as slow.
    pub(crate) fn slow(&self) -> Option<Duration>
        ensures { result ≡ self.now.terms.slow }
    {
        self.terms.slow
    }

    /// The time, if lines are timed.
    pub(crate) fn time(&self) -> Option<Instant> {
        if self.terms.slow.is_none() && !self.server_metrics.is_set() {
            return None;
        }
        Instant::now(self.clock).ok()
    }

    /// Accepts connections, and closes those that open no session.
    fn run_accept_thread<R: Wait>(&self, rt: &R, seat: Poller, events: &mut Events) -> Vec<Stub>
        ensures { LeavesOrRenews D.policy E.may_renew E.takes result.items }
    {
        let place = self.mailboxes.len();
        let lobby = Worker::new(self, place, self.lobby_limits(), seat);
        let door = Door::new(self.listener, self.terms.connections);
        let mut accept_thread = AcceptThread::new(lobby, door);
        accept_thread.run(rt, events, self.terms.until_input_ends);
        accept_thread.into_stubs()
    }

    /// Serves the connections of this worker's cells.
    fn serve_cells<R: Wait>(
        &self,
        rt: &R,
        place: usize,
        seat: Poller,
        events: &mut Events,
    ) -> Vec<Stub>
        ensures { LeavesOrRenews D.policy E.may_renew E.takes result.items }
    {
        let mut worker = Worker::new(self, place, self.limits(), seat);
        worker.run(rt, events);
        worker.into_stubs()
    }

    /// How long a connection may send nothing.
    fn limits(&self) -> Limits
        ensures { (result.idle ≡ self.now.terms.idle) × (result.idle_transaction ≡ self.now.terms.idle_transaction) }
    {
        Limits {
            idle: self.terms.idle,
            idle_transaction: self.terms.idle_transaction,
        }
    }

    /// How long a connection without a session may send nothing.
    fn lobby_limits(&self) -> Limits {
        Limits {
            idle: Some(Duration::from_secs(u64::from(FIRST_LINE))),
            idle_transaction: None,
        }
    }
}

/// Serves all connections: each worker and the accept thread run in threads of their own, the background task in this
/// one. Leaves the receipts of all sessions that no renewal took. Error: why it ended before it was to (ServeError).
pub fn serve_all<H, V, A, K, E, G, R>(
    rt: &R,
    alloc: Global,
    config: &ServerConfig<'_, V, A, K, E>,
    host: H,
    background_task: &G,
) -> Result<Vec<Stub>, ServeError>
where
    H: Hosting + Sync,
    V: Watch + Sync,
    A: Admission + Sync,
    K: CommitHook + Sync,
    E: Renewals + Sync,
    G: BackgroundTask,
    R: Threads + Wait + Net + Clock + Sync,
    H::Session: Send,
    requires workers { (0 < config.now.terms.workers) × (config.now.terms.workers ≤ 16) }
    ensures left { IfOk result (AreLeft (policy (A.wants config.now.admission.now) (A.admits config.now.admission.now)) E.may_renew) }
    ensures renewed { IfOk result (λ stubs. LeavesOrRenews
        (policy (A.wants config.now.admission.now) (A.admits config.now.admission.now)) E.may_renew E.takes stubs.items) }
{
    serve_as::<Brand, H, V, A, K, E, G, R>(rt, alloc, config, host, background_task)
}

/// Serves all connections under a name of the policy.
fn serve_as<N, H, V, A, K, E, G, R>(
    rt: &R,
    alloc: Global,
    config: &ServerConfig<'_, V, A, K, E>,
    host: H,
    background_task: &G,
) -> Result<Vec<Stub>, ServeError>
where
    N: PolicyName + Sync,
    H: Hosting + Sync,
    V: Watch + Sync,
    A: Admission + Sync,
    K: CommitHook + Sync,
    E: Renewals + Sync,
    G: BackgroundTask,
    R: Threads + Wait + Net + Clock + Sync,
    H::Session: Send,
    requires workers { (0 < config.now.terms.workers) × (config.now.terms.workers ≤ 16) }
    requires wants { A.wants config.now.admission.now ≡ N.policy.keyed }
    requires admits { (tenant : ℕ) (key : List ℕ) → A.admits config.now.admission.now tenant key → N.policy.admits tenant key }
    ensures { IfOk result (λ stubs. LeavesOrRenews N.policy E.may_renew E.takes stubs.items) }
{
    let guard = Guard::<A, N>::new(config.admission);
    let terms = config.terms;
    if config.listener.set_nonblocking(true).is_err() {
        return Err(ServeError::NoPlace);
    }
    let mut mailboxes = Vec::new(alloc);
    let (setups, waker) = all_setups(
        rt,
        alloc,
        config.server_metrics,
        terms.workers,
        &mut mailboxes,
    )?;
    let over = ShutdownSignal::new(setups.len());
    let serving = Serving {
        alloc,
        host,
        watch: config.watch,
        doorkeeper: &guard,
        commit_hook: config.commit_hook,
        renewals: config.renewals,
        server_metrics: config.server_metrics,
        clock: rt,
        first_tenant: terms.first_tenant,
        listener: config.listener,
        terms,
        mailboxes,
        door: waker,
        over: &over,
        is_door_closed: AtomicBool::new(false),
        stopping: AtomicBool::new(false),
        lacks_thread: AtomicBool::new(false),
        has_failed: AtomicBool::new(false),
        has_lost: AtomicBool::new(false),
    };
    let parts = run_beside(rt, alloc, setups, &serving, background_task, &over);
    all_stubs(alloc, serving.failure(), parts)
}

/// Sets up each worker and the accept thread, with the mailboxes of the workers and the waker of the accept thread.
fn all_setups<R: Net + Wait>(
    rt: &R,
    alloc: Global,
    server_metrics: &ServerMetrics,
    workers: usize,
    mailboxes: &mut Vec<Mailbox>,
) -> Result<(Vec<WorkerSetup>, Waker), ServeError>
    requires { mailboxes.old.items ≡ [] }
    ensures setups { IfOk result (λ all. vec_len all.0 ≡ workers + 1) }
    ensures count { OnOk result (vec_len mailboxes.new ≡ workers) }
    ensures placed { OnOk result (ArePlaced mailboxes.new.items) }
{
    let (seat, events, waker) = Poller::take(rt, alloc)?;
    let mut setups = setups(rt, alloc, server_metrics, workers, mailboxes)?;
    let door = WorkerSetup {
        role: Role::Door,
        seat,
        events,
    };
    if setups.push(door).is_err() {
        return Err(ServeError::NoMemory);
    }
    Ok((setups, waker))
}

/// Sets up each worker and its mailbox.
fn setups<R: Net + Wait>(
    rt: &R,
    alloc: Global,
    server_metrics: &ServerMetrics,
    workers: usize,
    mailboxes: &mut Vec<Mailbox>,
) -> Result<Vec<WorkerSetup>, ServeError>
    requires { mailboxes.old.items ≡ [] }
    ensures setups { IfOk result (λ all. vec_len all ≡ workers) }
    ensures count { OnOk result (vec_len mailboxes.new ≡ workers) }
    ensures placed { OnOk result (ArePlaced mailboxes.new.items) }
{
    let mut setups = Vec::new(alloc);
    for number in 0..workers {
        let (seat, events, waker) = Poller::take(rt, alloc)?;
        if server_metrics.hang_bell(rt, number, &seat.poll).is_err() {
            return Err(ServeError::NoPlace);
        }
        if mailboxes.push(Mailbox::new(alloc, number, waker)).is_err()
            || setups.push(worker_setup(number, seat, events)).is_err()
        {
            return Err(ServeError::NoMemory);
        }
    }
    Ok(setups)
}

/// The setup of the worker at this place.
fn worker_setup(place: usize, seat: Poller, events: Events) -> WorkerSetup {
    WorkerSetup {
        role: Role::Worker(place),
        seat,
        events,
    }
}

/// The receipts of all sessions, if each thread has left its own and the service did not end early.
fn all_stubs(
    alloc: Global,
    failure: Option<ServeError>,
    parts: Result<Vec<Vec<Stub>>, AllocError>,
) -> Result<Vec<Stub>, ServeError>
    ensures { IfOk result (λ stubs. (lists : Vec (Vec ItsStub ItsGlobal) ItsGlobal)
        × (parts ≡ Ok lists) × (stubs.items ≡ flat_map (λ part. part.items) lists.items)) }
{
    match failure {
        Some(error) => Err(error),
        None => Ok(gather(alloc, parts?)?),
    }
}

/// All receipts in one list.
fn gather(alloc: Global, parts: Vec<Vec<Stub>>) -> Result<Vec<Stub>, AllocError>
    ensures { IfOk result (λ stubs. stubs.items ≡ flat_map (λ part. part.items) parts.items) }
{
    let mut stubs = Vec::new(alloc);
    for mut part in parts {
        stubs.append(&mut part)?;
    }
    Ok(stubs)
}
