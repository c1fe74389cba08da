//! What a worker counts.

use std::alloc::{AllocError, Global};
use std::sync::atomic::{AtomicU64, Ordering};

/// Why a transaction was rolled back.
#[derive(Clone, Copy, Debug)]
pub enum Cause {
    Command,
    /// The action of a rule.
    Rule,
    /// An error in the action of a rule.
    Error,
    /// Too many considerations.
    Limit,
    /// Its session ended.
    End,
}

impl Cause {
    fn place(self) -> u8 {
        match self {
            Cause::Command => 0,
            Cause::Rule => 1,
            Cause::Error => 2,
            Cause::Limit => 3,
            Cause::End => 4,
        }
    }
}

/// A counter.
#[derive(Clone, Copy, Debug)]
pub enum Count {
    Connections,
    /// Connections that have ended.
    Closed,
    /// Lines of sessions that were answered.
    Lines,
    /// Nanoseconds in which a worker did not wait for events.
    Busy,
    Considerations,
    Rollback(Cause),
    /// Steps that took at most this limit of `LIMITS`, and more than the limit before. The last one counts all longer
    /// steps.
    Step(usize),
    /// Nanoseconds of all steps.
    Steps,
    /// Refusals with this number.
    Refusal(u8),
}

/// The limits of the times of steps, in nanoseconds.
pub const LIMITS: [u64; 12] = [
    10_000,
    30_000,
    100_000,
    300_000,
    1_000_000,
    3_000_000,
    10_000_000,
    30_000_000,
    100_000_000,
    300_000_000,
    1_000_000_000,
    10_000_000_000,
];

const ROLLBACKS: usize = 8;

const STEPS: usize = 16;

const REFUSALS: usize = 32;

/// The number of counters.
const COUNTS: usize = REFUSALS + 256;

impl Count {
    /// The counter of a step that took so many nanoseconds.
    pub(crate) fn of_step(nanos: u64) -> Count {
        for (place, limit) in LIMITS.iter().enumerate() {
            if nanos <= *limit {
                return Count::Step(place);
            }
        }
        Count::Step(LIMITS.len())
    }

    fn place(self) -> usize {
        match self {
            Count::Connections => 0,
            Count::Closed => 1,
            Count::Lines => 2,
            Count::Busy => 3,
            Count::Considerations => 4,
            Count::Steps => 5,
            Count::Rollback(cause) => ROLLBACKS + usize::from(cause.place()),
            Count::Step(place) => STEPS + place.min(LIMITS.len()),
            Count::Refusal(number) => REFUSALS + usize::from(number),
        }
    }
}

/// The counters of one worker. No other thread adds to them.
#[derive(Drop)]
pub(crate) struct WorkerCounters {
    counts: Vec<AtomicU64>,
}

impl WorkerCounters {
    pub(crate) fn new(alloc: Global) -> Result<WorkerCounters, AllocError> {
        let mut counts = Vec::with_capacity(alloc, COUNTS)?;
        for _ in 0..COUNTS {
            counts.push(AtomicU64::new(0))?;
        }
        Ok(WorkerCounters { counts })
    }

    pub(crate) fn add(&self, what: Count, more: u64) {
        if let Some(count) = self.counts.get(what.place()) {
            count.fetch_add(more, Ordering::SeqCst);
        }
    }

    pub(crate) fn get(&self, what: Count) -> u64 {
        match self.counts.get(what.place()) {
            Some(count) => count.load(Ordering::SeqCst),
            None => 0,
        }
    }
}
