//! When connections are looked at that may be silent for too long.

use std::time::{Duration, Instant};

/// How often silent connections are looked for, in milliseconds.
pub(crate) const SWEEP: u64 = 1_000;

/// When silent connections were looked for last.
#[derive(Clone, Copy)]
pub(crate) struct Sweeps {
    last: Option<Instant>,
}

impl Sweeps {
    pub(crate) fn none_yet() -> Sweeps {
        Sweeps { last: None }
    }

    /// The time, if a sweep is due. It counts as made.
    pub(crate) fn next(&mut self, now: Option<Instant>) -> Option<Instant> {
        let now = now?;
        if let Some(last) = self.last {
            if now.duration_since(last) < Duration::from_millis(SWEEP) {
                return None;
            }
        }
        self.last = Some(now);
        Some(now)
    }
}
