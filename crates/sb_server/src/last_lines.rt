//! When the last line of each session was answered.
ghost use Rattle.std.specs.Prelude.{IfSome, IsSome};
ghost use Rattle.sb_server.specs.ServerMetrics.{IsSessionFrom};

use sb_connection::SessionName;
use sb_value::SESSION_LIMIT;
use std::alloc::{AllocError, Global};
use std::sync::atomic::{AtomicU64, Ordering};
use std::time::Instant;

/// Stands for a session that was never answered.
const NEVER: u64 = u64::MAX;

/// When the last line of each session was answered, in seconds since a server began.
#[derive(Drop)]
pub(crate) struct LastLines {
    began: Option<Instant>,
    first_tenant: u32,
    /// Session by session, tenant by tenant.
    seconds: Vec<AtomicU64>,
}

impl LastLines {
    /// A table of no session.
    pub(crate) fn none(alloc: Global) -> LastLines {
        LastLines {
            began: None,
            first_tenant: 0,
            seconds: Vec::new(alloc),
        }
    }

    /// A table of so many tenants from this first number on. The server began at this time.
    pub(crate) fn new(
        alloc: Global,
        began: Option<Instant>,
        first_tenant: u32,
        tenants: u32,
    ) -> Result<LastLines, AllocError> {
        let mut seconds = Vec::new(alloc);
        for _tenant in 0..tenants {
            for _session in 0..SESSION_LIMIT {
                seconds.push(AtomicU64::new(NEVER))?;
            }
        }
        Ok(LastLines {
            began,
            first_tenant,
            seconds,
        })
    }

    /// Notes that a session is answered at this time.
    pub(crate) fn note(&self, named: SessionName, now: Instant) {
        if let (Some(second), Some(last)) = (self.second(now), self.last(named)) {
            last.store(second, Ordering::SeqCst);
        }
    }

    /// How many seconds ago the last line of a session was answered.
    pub(crate) fn age(&self, named: SessionName, now: Instant) -> Option<u64>
        ensures { IfSome result (λ _. IsSessionFrom self.now.first_tenant named) }
    {
        let second = self.second(now)?;
        match self.last(named)?.load(Ordering::SeqCst) {
            NEVER => None,
            last => Some(second.saturating_sub(last)),
        }
    }

    fn second(&self, now: Instant) -> Option<u64> {
        Some(now.duration_since(self.began?).as_secs())
    }

    fn last(&self, named: SessionName) -> Option<&AtomicU64>
        ensures { IsSome result → IsSessionFrom self.now.first_tenant named }
    {
        let session = named.session as usize;
        if session >= SESSION_LIMIT {
            return None;
        }
        let tenant = named.tenant.checked_sub(self.first_tenant)?;
        self.seconds.get(tenant as usize * SESSION_LIMIT + session)
    }
}
