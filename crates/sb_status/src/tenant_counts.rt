//! The numbers of a tenant, copied within the lock of its cell.
ghost use Rattle.std.specs.Prelude.{◌≡◌, None, false};
ghost use Rattle.sb_tenant.specs.Tenant.{state};
ghost use Rattle.sb_status.specs.TenantCounts.{AreNumbersOf, steps_made};

use crate::view::TenantNumbers;
use sb_host::Reading;
use sb_tables::Tables;
use sb_tenant::{TRAIL_LIMIT, Tenant, Volume};
use sb_value::{SESSION_LIMIT, SessionId};

/// Copies the numbers of a tenant of which a session was ever opened.
pub struct Counting {
    first_tenant: u32,
    pub numbers: Option<TenantNumbers>,
}

impl Drop for Counting {
    fn drop(self) {
        let Self {
            first_tenant: _,
            numbers: _,
        } = self;
    }
}

impl Counting {
    /// For a host whose first tenant has this number.
    pub fn new(first_tenant: u32) -> Counting
        ensures { (result.first_tenant ≡ first_tenant) × (result.numbers ≡ None) }
    {
        Counting {
            first_tenant,
            numbers: None,
        }
    }
}

impl Reading for Counting {
    ghost use Rattle.sb_status.specs.TenantCounts.{Notes};

    ghost reads = { Notes };

    fn read(&mut self, tenant: &Tenant) {
        if !tenant.trail().is_empty() {
            self.numbers = Some(numbers_of(self.first_tenant, tenant));
        }
    }
}

/// Looks whether a session of a tenant is open.
#[derive(Drop)]
pub struct SessionReading {
    session: SessionId,
    pub is_open: bool,
}

impl SessionReading {
    /// For this session.
    pub fn new(session: SessionId) -> SessionReading
        ensures { (result.session ≡ session) × (result.is_open ≡ false) }
    {
        SessionReading {
            session,
            is_open: false,
        }
    }
}

impl Reading for SessionReading {
    ghost use Rattle.sb_tenant.specs.State.{is_open, session_at};

    ghost reads = { λ old own new. new.is_open ≡ is_open (session_at (state own) old.session) };

    fn read(&mut self, tenant: &Tenant) {
        self.is_open = tenant.is_open(self.session);
    }
}

/// The numbers of a tenant, as clients name it.
pub(crate) fn numbers_of(first_tenant: u32, tenant: &Tenant) -> TenantNumbers
    ensures { AreNumbersOf first_tenant tenant.now result }
{
    let steps = tenant.trail().len();
    let volume = tenant.volume();
    TenantNumbers {
        tenant: u64::from(first_tenant) + u64::from(tenant.id().number()),
        steps: steps as u64,
        steps_made: steps_made(volume, steps as u64),
        room: TRAIL_LIMIT.saturating_sub(steps) as u64,
        bytes: tenant.bytes_taken(),
        tables: tenant.tables().len() as u64,
        rules: tenant.definitions().rules.rules().len() as u64,
        rows: rows_in(tenant.tables()),
        open: sessions_in(tenant, false),
        active: sessions_in(tenant, true),
        changes: tenant.changes_kept(),
        volume: volume.number,
        volume_age: None,
        turned_away: 0,
        age: None,
    }
}

/// How many steps sessions made up to the end of a volume with so many entries.
fn steps_made(volume: Volume, entries: u64) -> u64
    ensures { result ≡ steps_made volume entries }
{
    volume
        .before
        .saturating_add(entries.saturating_sub(volume.opening))
}

/// How many rows all tables have, with the changes of all sessions.
fn rows_in(tables: &Tables) -> u64 {
    let mut rows: u64 = 0;
    for place in 0..tables.len() {
        if let Some(table) = tables.table_at(place) {
            rows = rows.saturating_add(table.len() as u64);
        }
    }
    rows
}

/// How many sessions are open, or of these how many have a transaction.
fn sessions_in(tenant: &Tenant, with_transaction: bool) -> u64 {
    let mut count: u64 = 0;
    for number in 0..SESSION_LIMIT {
        let session = SessionId::new(number as u8);
        let is_counted = if with_transaction {
            tenant.has_transaction(session)
        } else {
            tenant.is_open(session)
        };
        if is_counted {
            count = count.saturating_add(1);
        }
    }
    count
}
