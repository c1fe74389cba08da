//! How a worker shares its time among the tenants of its cells.

use std::time::Instant;

/// A round of turns ends after so many nanoseconds, so that the worker looks for new events.
const ROUND: u64 = 2_000_000;

/// The time of each tenant is halved when all of them together have had so many nanoseconds.
const WINDOW: u64 = 200_000_000;

/// The most tenants of a host.
const TENANTS: usize = 256;

/// The time that a worker gave to each tenant lately, and what is left of its round. Connections of the tenant that has
/// had the least go first where a round was too short for all (fair queueing, with a window that decays).
#[derive(Clone, Copy)]
pub(crate) struct TimeShares {
    nanos: [u64; TENANTS],
    /// What all tenants have had in this window.
    given: u64,
    /// What is left of the round.
    left: u64,
    /// When the newest turn ended.
    lap: Option<Instant>,
}

impl TimeShares {
    /// No time was given yet.
    pub(crate) fn new() -> TimeShares {
        TimeShares {
            nanos: [0; TENANTS],
            given: 0,
            left: ROUND,
            lap: None,
        }
    }

    /// A round begins at this time, if the time is known.
    pub(crate) fn begin_round(&mut self, now: Option<Instant>) {
        self.left = ROUND;
        self.lap = now;
    }

    /// True if the round has had its time.
    pub(crate) fn is_round_over(&self) -> bool {
        self.left == 0
    }

    /// The nanoseconds that a tenant has had lately.
    pub(crate) fn of(&self, tenant: Option<u32>) -> u64 {
        match tenant {
            Some(tenant) => self.nanos[tenant as usize % TENANTS],
            None => 0,
        }
    }

    /// Charges the time since the newest turn ended to a tenant.
    pub(crate) fn charge(&mut self, tenant: Option<u32>, now: Option<Instant>) {
        let Some(nanos) = self.lap_nanos(now) else {
            return;
        };
        self.left = self.left.saturating_sub(nanos);
        let Some(tenant) = tenant else {
            return;
        };
        let place = tenant as usize % TENANTS;
        self.nanos[place] = self.nanos[place].saturating_add(nanos);
        self.given = self.given.saturating_add(nanos);
        if self.given >= WINDOW {
            self.halve();
        }
    }

    /// The nanoseconds since the newest turn ended. This one ends now.
    fn lap_nanos(&mut self, now: Option<Instant>) -> Option<u64> {
        let before = self.lap?;
        let now = now?;
        self.lap = Some(now);
        u64::try_from(now.duration_since(before).as_nanos()).ok()
    }

    /// Halves the time of each tenant, so that what is long ago counts less.
    fn halve(&mut self) {
        self.given = 0;
        for place in 0..TENANTS {
            self.nanos[place] /= 2;
        }
    }
}
