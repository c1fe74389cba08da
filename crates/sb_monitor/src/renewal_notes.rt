//! What is known of the next renewal of a tenant.

use sb_host::Stub;
use std::alloc::Global;
use std::sync::Mutex;
use std::sync::atomic::{AtomicBool, AtomicU64, Ordering};

/// The receipts that the next renewal of a tenant takes, and when there may be one. Times are those of a board.
#[derive(Drop)]
pub(crate) struct RenewalNotes {
    pub(crate) held: Mutex<Vec<Stub>>,
    is_asked: AtomicBool,
    /// No renewal is tried before this time.
    rests_until: AtomicU64,
    /// It was told that the renewal waits for a transaction.
    is_put_off: AtomicBool,
    /// It was told that a renewal failed.
    has_failed: AtomicBool,
}

impl RenewalNotes {
    /// No receipts are held, and no renewal is asked for.
    pub(crate) fn new(alloc: Global) -> RenewalNotes {
        RenewalNotes {
            held: Mutex::new(Vec::new(alloc)),
            is_asked: AtomicBool::new(false),
            rests_until: AtomicU64::new(0),
            is_put_off: AtomicBool::new(false),
            has_failed: AtomicBool::new(false),
        }
    }

    /// Notes that a renewal is asked for. It is tried at once, also behind one that failed.
    pub(crate) fn ask(&self) {
        self.is_asked.store(true, Ordering::SeqCst);
        self.rests_until.store(0, Ordering::SeqCst);
    }

    /// True if a renewal is asked for.
    pub(crate) fn is_asked(&self) -> bool {
        self.is_asked.load(Ordering::SeqCst)
    }

    /// True if no renewal is tried at this time.
    pub(crate) fn rests(&self, now: u64) -> bool {
        now < self.rests_until.load(Ordering::SeqCst)
    }

    /// Notes a renewal. It isn't asked for any more, and no further one is tried before this time.
    pub(crate) fn note_done(&self, until: u64) {
        self.rests_until.store(until, Ordering::SeqCst);
        self.is_asked.store(false, Ordering::SeqCst);
        self.is_put_off.store(false, Ordering::SeqCst);
        self.has_failed.store(false, Ordering::SeqCst);
    }

    /// Notes a renewal that failed. No further one is tried before this time. True if it is the first one since the last
    /// that was made.
    pub(crate) fn note_failed(&self, until: u64) -> bool {
        self.rests_until.store(until, Ordering::SeqCst);
        !self.has_failed.swap(true, Ordering::SeqCst)
    }

    /// Notes that the renewal waits for a transaction. True if that is noted for the first time since the last one that
    /// was made.
    pub(crate) fn put_off(&self) -> bool {
        !self.is_put_off.swap(true, Ordering::SeqCst)
    }

    /// The receipts that are held.
    pub(crate) fn into_held(self) -> Vec<Stub> {
        let RenewalNotes { held, .. } = self;
        held.into_inner()
    }
}
