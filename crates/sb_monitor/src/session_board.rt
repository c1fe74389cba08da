//! How many sessions of each tenant have a connection, and how many connections got none.
ghost use Rattle.std.specs.Prelude.{◌≡◌, ◌≤◌, IfOk};
ghost use Rattle.sb_monitor.specs.SessionBoards.{tenants_counted};

use sb_host::{AttachError, SESSION_LIMIT};
use sb_server::{ConnectionEvent, SessionName};
use std::alloc::{AllocError, Global};
use std::sync::atomic::{AtomicU64, Ordering};

/// What is counted of a tenant.
#[derive(Drop)]
struct TenantSessions {
    /// Its sessions that have a connection.
    attached: AtomicU64,
    /// The connections that got no session of it.
    turned_away: AtomicU64,
}

/// The sessions of the tenants of a server, as its connections take and leave them. Threads share it.
#[derive(Drop)]
pub struct SessionBoard {
    /// The number of the first tenant, as clients name it.
    first_tenant: u32,
    tenants: Vec<TenantSessions>,
}

impl SessionBoard {
    /// The board of so many tenants from this first number on. Error: out of memory.
    pub fn new(alloc: Global, first_tenant: u32, tenants: u32) -> Result<SessionBoard, AllocError>
        ensures { IfOk result (λ board. tenants_counted board ≡ tenants) }
    {
        let mut counted = Vec::new(alloc);
        for _tenant in 0..tenants {
            counted.push(TenantSessions {
                attached: AtomicU64::new(0),
                turned_away: AtomicU64::new(0),
            })?;
        }
        Ok(SessionBoard {
            first_tenant,
            tenants: counted,
        })
    }

    /// Counts what happened to a connection.
    pub(crate) fn note(&self, event: &ConnectionEvent) {
        match event {
            ConnectionEvent::Attached(named) => {
                if let Some(tenant) = self.of(*named) {
                    tenant.attached.fetch_add(1, Ordering::SeqCst);
                }
            }
            ConnectionEvent::Closed { named, .. } => {
                if let Some(tenant) = self.of(*named) {
                    tenant.attached.fetch_sub(1, Ordering::SeqCst);
                }
            }
            ConnectionEvent::TurnedAway { named, .. } => self.note_turned_away(*named),
            ConnectionEvent::Barred(named) => self.note_turned_away(*named),
            _ => {}
        }
    }

    /// Counts a connection that got no session.
    fn note_turned_away(&self, named: SessionName) {
        if let Some(tenant) = self.of(named) {
            tenant.turned_away.fetch_add(1, Ordering::SeqCst);
        }
    }

    /// True if a connection got no session because all eight of its tenant have one.
    pub(crate) fn lacks_sessions(&self, event: &ConnectionEvent) -> bool {
        match event {
            ConnectionEvent::TurnedAway {
                named,
                why: AttachError::AlreadyOpen,
            } => self.are_all_attached(*named),
            _ => false,
        }
    }

    /// True if all sessions of a tenant have a connection.
    fn are_all_attached(&self, named: SessionName) -> bool {
        match self.of(named) {
            Some(tenant) => tenant.attached.load(Ordering::SeqCst) >= SESSION_LIMIT as u64,
            None => false,
        }
    }

    /// True if no session of the tenant at this place has a connection.
    pub(crate) fn is_idle(&self, place: u32) -> bool {
        match self.tenants.get(place as usize) {
            Some(tenant) => tenant.attached.load(Ordering::SeqCst) == 0,
            None => true,
        }
    }

    /// How many connections got no session of the tenant at this place.
    pub(crate) fn turned_away(&self, place: u32) -> u64
        ensures { tenants_counted self.now ≤ place → result ≡ 0 }
    {
        match self.tenants.get(place as usize) {
            Some(tenant) => tenant.turned_away.load(Ordering::SeqCst),
            None => 0,
        }
    }

    /// The counts of a tenant that the server hosts.
    fn of(&self, named: SessionName) -> Option<&TenantSessions> {
        let place = named.tenant.checked_sub(self.first_tenant)?;
        self.tenants.get(place as usize)
    }
}
