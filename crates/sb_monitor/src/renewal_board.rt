//! When the tenants of a server were renewed, and how often.
ghost use Rattle.std.specs.Prelude.{◌≡◌, IfOk, IfSome, ◌<◌};
ghost use Rattle.sb_monitor.specs.RenewalBoards.{tenant_count};

use std::alloc::{AllocError, Global};
use std::rt::Clock;
use std::sync::atomic::{AtomicU64, Ordering};
use std::time::Instant;

/// Milliseconds.
const SECOND: u64 = 1_000;

/// The facts of renewals that the pages of a server show. Threads share it.
#[derive(Drop)]
pub struct RenewalBoard {
    /// The number of the first tenant, as clients name it.
    first_tenant: u32,
    began: Option<Instant>,
    /// For each tenant the millisecond since the board began in which it was renewed last, and one more. 0: it never was.
    renewed: Vec<AtomicU64>,
    done: AtomicU64,
    failed: AtomicU64,
}

impl RenewalBoard {
    /// The board of so many tenants from this first number on, of which none is renewed yet. Error: out of memory.
    pub fn new<T: Clock>(
        rt: &T,
        alloc: Global,
        first_tenant: u32,
        tenants: u32,
    ) -> Result<RenewalBoard, AllocError>
        ensures { IfOk result (λ board. tenant_count board ≡ tenants) }
    {
        let mut renewed = Vec::new(alloc);
        for _tenant in 0..tenants {
            renewed.push(AtomicU64::new(0))?;
        }
        Ok(RenewalBoard {
            first_tenant,
            began: Instant::now(rt).ok(),
            renewed,
            done: AtomicU64::new(0),
            failed: AtomicU64::new(0),
        })
    }

    /// The seconds since the tenant at this place was renewed, if it was.
    pub(crate) fn age<T: Clock>(&self, rt: &T, tenant: u32) -> Option<u64>
        ensures { IfSome result (λ _. tenant < tenant_count self.now) }
    {
        match self.renewed.get(tenant as usize)?.load(Ordering::SeqCst) {
            0 => None,
            renewed => Some(self.now(rt).saturating_sub(renewed - 1) / SECOND),
        }
    }

    /// The number of renewals that were made.
    pub(crate) fn done(&self) -> u64 {
        self.done.load(Ordering::SeqCst)
    }

    /// The number of renewals that failed.
    pub(crate) fn failed(&self) -> u64 {
        self.failed.load(Ordering::SeqCst)
    }

    /// Notes that the tenant at this place was renewed at this time of the board.
    pub(crate) fn note_done(&self, tenant: u32, now: u64) {
        self.done.fetch_add(1, Ordering::SeqCst);
        if let Some(renewed) = self.renewed.get(tenant as usize) {
            renewed.store(now.saturating_add(1), Ordering::SeqCst);
        }
    }

    /// Notes that a renewal failed.
    pub(crate) fn note_failed(&self) {
        self.failed.fetch_add(1, Ordering::SeqCst);
    }

    /// The number of a tenant, as clients name it.
    pub(crate) fn number_of(&self, tenant: u32) -> u64 {
        u64::from(self.first_tenant) + u64::from(tenant)
    }

    /// The time of the board: milliseconds since it began.
    pub(crate) fn now<T: Clock>(&self, rt: &T) -> u64 {
        let (Some(began), Ok(now)) = (self.began, Instant::now(rt)) else {
            return 0;
        };
        let passed = now.duration_since(began);
        passed
            .as_secs()
            .saturating_mul(SECOND)
            .saturating_add(u64::from(passed.subsec_millis()))
    }
}
