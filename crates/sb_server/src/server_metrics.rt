//! What is known of a server while it serves: counts of its workers, the slowest lines, and when each session was answered.
//! And what it is told: whose sessions are to end, and which tenants are to be renewed.
ghost use Rattle.std.specs.Prelude.{◌≡◌, ◌+◌, ◌<◌, ◌≤◌, ◌↔◌, IfOk, IfSome, IsFalse, IsTrue, length};
ghost use Rattle.sb_server.specs.ServerMetrics.{AreSlowestFirst, IsSessionFrom, desk_count, place_count};

use crate::counts::{Count, WorkerCounters};
use crate::last_lines::LastLines;
use crate::poller::WAKER;
use crate::slow_line::SlowLine;
use mio::{Poll, Waker};
use sb_connection::SessionName;
use std::alloc::{AllocError, Global};
use std::sync::atomic::{AtomicU64, Ordering};
use std::sync::{Mutex, Wait};
use std::time::Instant;
use std::{io, mem};

/// How many of the slowest lines are kept.
const MOST_LINES: usize = 10;

/// The most requests of a kind that wait for one worker.
const MOST_ORDERS: usize = 64;

/// Requests to a worker.
#[derive(Drop)]
struct Orders {
    /// The waker of the worker, once it runs.
    waker: Option<Waker>,
    /// Sessions to end.
    ends: Vec<SessionName>,
    /// Tenants to renew.
    renewals: Vec<u32>,
}

/// Counters and slow lines of a server, and requests to its workers. Each worker has a place; the accept thread has the
/// last one.
pub struct ServerMetrics {
    tallies: Vec<WorkerCounters>,
    desks: Vec<Mutex<Orders>>,
    /// The slowest lines so far.
    slowest: Mutex<Vec<SlowLine>>,
    /// A line that took no more than so many nanoseconds is not among the slowest.
    floor: AtomicU64,
    last_lines: LastLines,
}

impl Drop for ServerMetrics {
    fn drop(self) {
        let Self {
            tallies: _,
            desks: _,
            slowest: _,
            floor: _,
            last_lines: _,
        } = self;
    }
}

/// No request yet to any of so many workers.
fn desks_of(alloc: Global, workers: usize) -> Result<Vec<Mutex<Orders>>, AllocError>
    ensures { IfOk result (λ desks. length desks.items ≡ workers) }
{
    let mut desks = Vec::new(alloc);
    for _worker in 0..workers {
        desks.push(Mutex::new(Orders {
            waker: None,
            ends: Vec::new(alloc),
            renewals: Vec::new(alloc),
        }))?;
    }
    Ok(desks)
}

impl ServerMetrics {
    /// Metrics that count nothing, of so many workers. Error: out of memory.
    pub fn uncounted(alloc: Global, workers: usize) -> Result<ServerMetrics, AllocError>
        ensures { IfOk result (λ server_metrics. (place_count server_metrics ≡ 0) × (desk_count server_metrics ≡ workers)) }
    {
        Ok(ServerMetrics {
            tallies: Vec::new(alloc),
            desks: desks_of(alloc, workers)?,
            slowest: Mutex::new(Vec::new(alloc)),
            floor: AtomicU64::new(u64::MAX),
            last_lines: LastLines::none(alloc),
        })
    }

    /// The metrics of so many workers and the accept thread, and of so many tenants from this first number on. The
    /// server begins at this time. Error: out of memory.
    pub fn new(
        alloc: Global,
        workers: usize,
        began: Option<Instant>,
        first_tenant: u32,
        tenants: u32,
    ) -> Result<ServerMetrics, AllocError>
        ensures { IfOk result (λ server_metrics. (place_count server_metrics ≡ workers + 1) × (desk_count server_metrics ≡ workers)) }
    {
        let mut tallies = Vec::new(alloc);
        for _worker in 0..workers {
            tallies.push(WorkerCounters::new(alloc)?)?;
        }
        tallies.push(WorkerCounters::new(alloc)?)?;
        Ok(ServerMetrics {
            tallies,
            desks: desks_of(alloc, workers)?,
            slowest: Mutex::new(Vec::with_capacity(alloc, MOST_LINES)?),
            floor: AtomicU64::new(0),
            last_lines: LastLines::new(alloc, began, first_tenant, tenants)?,
        })
    }

    /// True if anything is counted.
    pub(crate) fn is_set(&self) -> bool
        ensures { IsTrue result ↔ (0 < place_count self.now) }
    {
        !self.tallies.is_empty()
    }

    /// The number of places: one for each worker, and the accept thread's.
    pub fn places(&self) -> usize
        ensures { result ≡ place_count self.now }
    {
        self.tallies.len()
    }

    /// The counter of one place.
    pub fn count_at(&self, place: usize, what: Count) -> u64
        ensures { place_count self.now ≤ place → result ≡ 0 }
    {
        match self.tallies.get(place) {
            Some(counters) => counters.get(what),
            None => 0,
        }
    }

    /// The sum of a counter over all places.
    pub fn count(&self, what: Count) -> u64
        ensures { place_count self.now ≡ 0 → result ≡ 0 }
    {
        let mut sum: u64 = 0;
        for counters in &self.tallies {
            sum = sum.saturating_add(counters.get(what));
        }
        sum
    }

    pub(crate) fn add(&self, place: usize, what: Count, more: u64) {
        if let Some(counters) = self.tallies.get(place) {
            counters.add(what, more);
        }
    }

    /// Records a line if it is among the slowest.
    pub(crate) fn note_line<T: Wait>(&self, rt: &T, named: SessionName, line: &[u8], nanos: u64) {
        if nanos <= self.floor.load(Ordering::SeqCst) {
            return;
        }
        let mut lines = self.slowest.lock(rt);
        let lines = &mut *lines;
        keep_slowest(lines, SlowLine::new(named, line, nanos));
        if lines.len() >= MOST_LINES {
            self.floor
                .store(least_of(lines.as_slice()), Ordering::SeqCst);
        }
    }

    /// Notes that a session was answered at this time.
    pub(crate) fn note_last(&self, named: SessionName, now: Instant) {
        self.last_lines.note(named, now);
    }

    /// How many seconds ago the last line of a session was answered. None: never, or not known.
    pub fn age(&self, named: SessionName, now: Instant) -> Option<u64>
        ensures { IfSome result (λ _. IsSessionFrom self.now.last_lines.first_tenant named) }
    {
        self.last_lines.age(named, now)
    }

    /// The slowest lines, the slowest first. Error: out of memory.
    pub fn slowest<T: Wait>(&self, rt: &T, alloc: Global) -> Result<Vec<SlowLine>, AllocError>
        ensures { IfOk result (λ lines. AreSlowestFirst lines.items) }
    {
        let mut lines = Vec::new(alloc);
        {
            let kept = self.slowest.lock(rt);
            for line in kept.as_slice() {
                lines.push(*line)?;
            }
        }
        lines.sort_unstable_by_key(|line| u64::MAX - line.nanos);
        Ok(lines)
    }

    /// Asks the worker of `cell` to end the session. False if the worker does not run, 64 requests wait already, or
    /// memory is short.
    pub fn end_session<T: Wait>(&self, rt: &T, cell: usize, named: SessionName) -> bool
        ensures { desk_count self.now ≡ 0 → IsFalse result }
    {
        let workers = self.desks.len();
        if workers == 0 {
            return false;
        }
        let mut desk = self.desks[cell % workers].lock(rt);
        let desk = &mut *desk;
        let Some(waker) = &desk.waker else {
            return false;
        };
        if desk.ends.len() >= MOST_ORDERS || desk.ends.push(named).is_err() {
            return false;
        }
        waker.wake().is_ok()
    }

    /// Asks the worker of `cell` to renew a tenant. False if the worker does not run, 64 requests wait already, or
    /// memory is short.
    pub fn renew_tenant<T: Wait>(&self, rt: &T, cell: usize, tenant: u32) -> bool
        ensures { desk_count self.now ≡ 0 → IsFalse result }
    {
        let workers = self.desks.len();
        if workers == 0 {
            return false;
        }
        let mut desk = self.desks[cell % workers].lock(rt);
        let desk = &mut *desk;
        let Some(waker) = &desk.waker else {
            return false;
        };
        if desk.renewals.len() >= MOST_ORDERS || desk.renewals.push(tenant).is_err() {
            return false;
        }
        waker.wake().is_ok()
    }

    /// Sets the waker of the worker at this place.
    pub(crate) fn hang_bell<T: Wait>(&self, rt: &T, place: usize, poll: &Poll) -> io::Result<()> {
        if let Some(desk) = self.desks.get(place) {
            let waker = Waker::new(poll.registry(), WAKER)?;
            desk.lock(rt).waker = Some(waker);
        }
        Ok(())
    }

    /// Removes and returns the sessions that the worker at this place has to end.
    pub(crate) fn take_ends<T: Wait>(
        &self,
        rt: &T,
        alloc: Global,
        place: usize,
    ) -> Vec<SessionName> {
        match self.desks.get(place) {
            Some(desk) => mem::replace(&mut desk.lock(rt).ends, Vec::new(alloc)),
            None => Vec::new(alloc),
        }
    }

    /// Removes and returns the tenants that the worker at this place has to renew.
    pub(crate) fn take_renewals<T: Wait>(&self, rt: &T, alloc: Global, place: usize) -> Vec<u32> {
        match self.desks.get(place) {
            Some(desk) => mem::replace(&mut desk.lock(rt).renewals, Vec::new(alloc)),
            None => Vec::new(alloc),
        }
    }
}

/// Records a line in a full list of the slowest.
fn keep_slowest(lines: &mut Vec<SlowLine>, line: SlowLine) {
    if lines.len() < MOST_LINES {
        let _where_there_is_memory = lines.push(line);
        return;
    }
    let place = fastest_of(lines.as_slice());
    if let Some(kept) = lines.get_mut(place) {
        if kept.nanos < line.nanos {
            *kept = line;
        }
    }
}

/// The place of the fastest line.
fn fastest_of(lines: &[SlowLine]) -> usize {
    let mut fastest = 0;
    let mut least = u64::MAX;
    for (place, line) in lines.iter().enumerate() {
        if line.nanos < least {
            least = line.nanos;
            fastest = place;
        }
    }
    fastest
}

/// The nanoseconds of the fastest line.
fn least_of(lines: &[SlowLine]) -> u64 {
    match lines.get(fastest_of(lines)) {
        Some(line) => line.nanos,
        None => 0,
    }
}
