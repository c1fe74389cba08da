//! The commits of a server's journal, as its samples show them.

use sb_status::JournalNumbers;
use std::rt::Clock;
use std::sync::atomic::{AtomicBool, AtomicU64, Ordering};
use std::time::{Duration, Instant};

/// Nanoseconds.
const MICROSECOND: u64 = 1_000;

const SECOND: u64 = 1_000_000_000;

/// Counts the commits of a journal. Threads share it.
#[derive(Drop)]
pub struct JournalBoard {
    began: Option<Instant>,
    /// The server has a journal.
    is_used: AtomicBool,
    commits: AtomicU64,
    /// Nanoseconds that workers waited for commits.
    waited: AtomicU64,
    /// The nanosecond since the board began in which a commit ended last.
    ended: AtomicU64,
    /// The newest commit found no room on the disk.
    lacks_room: AtomicBool,
}

/// A commit that has begun.
#[derive(Clone, Copy)]
pub(crate) struct CommitStart {
    began: u64,
}

impl JournalBoard {
    /// The board of a server without a journal, so far.
    pub fn new<T: Clock>(rt: &T) -> JournalBoard {
        JournalBoard {
            began: Instant::now(rt).ok(),
            is_used: AtomicBool::new(false),
            commits: AtomicU64::new(0),
            waited: AtomicU64::new(0),
            ended: AtomicU64::new(0),
            lacks_room: AtomicBool::new(false),
        }
    }

    /// Notes that the server has a journal.
    pub(crate) fn note_used(&self) {
        self.is_used.store(true, Ordering::SeqCst);
    }

    /// Notes the time at which a commit begins.
    pub(crate) fn begin<T: Clock>(&self, rt: &T) -> CommitStart {
        CommitStart {
            began: self.now(rt),
        }
    }

    /// Notes that a commit was kept.
    pub(crate) fn note_kept<T: Clock>(&self, rt: &T, start: CommitStart) {
        let now = self.now(rt);
        self.commits.fetch_add(1, Ordering::SeqCst);
        self.waited
            .fetch_add(now.saturating_sub(start.began), Ordering::SeqCst);
        self.ended.store(now, Ordering::SeqCst);
    }

    /// Notes whether the newest commit found room on the disk. Gives what was noted before.
    pub(crate) fn note_room(&self, lacks_room: bool) -> bool {
        self.lacks_room.swap(lacks_room, Ordering::SeqCst)
    }

    /// The numbers so far, if the server has a journal.
    pub(crate) fn numbers<T: Clock>(&self, rt: &T) -> Option<JournalNumbers> {
        if !self.is_used.load(Ordering::SeqCst) {
            return None;
        }
        let ended = self.ended.load(Ordering::SeqCst);
        Some(JournalNumbers {
            commits: self.commits.load(Ordering::SeqCst),
            micros: self.waited.load(Ordering::SeqCst) / MICROSECOND,
            age: self.now(rt).saturating_sub(ended) / SECOND,
            lacks_room: self.lacks_room.load(Ordering::SeqCst),
        })
    }

    /// Nanoseconds since the board began.
    fn now<T: Clock>(&self, rt: &T) -> u64 {
        match (self.began, Instant::now(rt)) {
            (Some(began), Ok(now)) => nanos_of(now.duration_since(began)),
            _ => 0,
        }
    }
}

fn nanos_of(passed: Duration) -> u64 {
    passed
        .as_secs()
        .saturating_mul(SECOND)
        .saturating_add(u64::from(passed.subsec_nanos()))
}
