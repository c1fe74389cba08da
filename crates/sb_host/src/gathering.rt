//! The receipts of all stubs, gathered by session.
ghost use Rattle.std.specs.Prelude.{ℕ, ◌≡◌, ◌*◌, [], false, length, MatchOption, IfOk, OnOk};
ghost use Rattle.sb_host.specs.Comparing.{AreRows, IsFirstStray, LooksAt, TakeStub, is_no_later};
ghost use Rattle.sb_host.specs.Finish.{rank, row_at};

use sb_desk::{Receipt, Stub};
use sb_tenant::Volume;
use sb_value::{SESSION_LIMIT, SessionId};
use std::alloc::{AllocError, Global};

/// A session of a tenant, which the host need not have.
#[derive(Clone, Copy)]
pub(crate) struct SessionPlace {
    pub(crate) tenant: u32,
    pub(crate) session: SessionId,
}

impl SessionPlace {
    /// Where it stands among all sessions.
    fn order(&self) -> u64
        ensures { result ≡ rank self.now.tenant self.now.session }
    {
        8 * self.tenant as u64 + self.session.number() as u64
    }
}

/// The first session of a tenant beyond these of which there are receipts.
pub(crate) fn first_stray(stubs: &[Stub], tenants: u32) -> Option<SessionPlace>
    ensures { IsFirstStray tenants stubs.now result }
{
    let mut first = None;
    for stub in stubs {
        look_at(&mut first, stub, tenants);
    }
    first
}

/// One stub more is looked at.
fn look_at(first: &mut Option<SessionPlace>, stub: &Stub, tenants: u32)
    ensures { LooksAt tenants stub.now first.old first.new }
{
    // for the proof: a session's number is below 8
    let _number = stub.session.number();
    if stub.tenant < tenants {
        return;
    }
    if stub.list().is_empty() {
        return;
    }
    let here = SessionPlace {
        tenant: stub.tenant,
        session: stub.session,
    };
    if !is_before(first, &here) {
        *first = Some(here);
    }
}

/// True if there is a first one, and it doesn't stand behind the other.
fn is_before(first: &Option<SessionPlace>, other: &SessionPlace) -> bool
    ensures { MatchOption first.now (result ≡ false) (λ p. result ≡ is_no_later p other.now) }
{
    match first {
        Some(place) => place.order() <= other.order(),
        None => false,
    }
}

/// Empty lists.
pub(crate) fn blank<T: Drop>(alloc: Global, count: usize) -> Result<Vec<Vec<T>>, AllocError>
    ensures { IfOk result (λ rows. (length rows.items ≡ count) × ((n : ℕ) → row_at rows.items n ≡ [])) }
{
    let mut rows = Vec::with_capacity(alloc, count)?;
    for _row in 0..count {
        rows.push(Vec::new(alloc))?;
    }
    Ok(rows)
}

/// The first volumes of so many lives.
pub(crate) fn first_volumes(alloc: Global, count: usize) -> Result<Vec<Volume>, AllocError>
    ensures { IfOk result (λ volumes. length volumes.items ≡ count) }
{
    let first = Volume {
        number: 0,
        before: 0,
        opening: 0,
    };
    vec![in alloc; first; count]
}

/// The receipts of each session of so many tenants, by rank.
pub(crate) fn rows_of(
    alloc: Global,
    stubs: Vec<Stub>,
    tenants: u32,
) -> Result<Vec<Vec<Receipt>>, AllocError>
    ensures { IfOk result (λ rows. AreRows tenants stubs.items rows.items) }
{
    let mut rows = blank(alloc, SESSION_LIMIT * tenants as usize)?;
    for stub in stubs {
        deal(&mut rows, stub, tenants)?;
    }
    Ok(rows)
}

/// Adds the receipts of a stub to those of its session, if the session is of one of these tenants.
fn deal(rows: &mut Vec<Vec<Receipt>>, stub: Stub, tenants: u32) -> Result<(), AllocError>
    requires { length rows.old.items ≡ 8 * tenants }
    ensures length { OnOk result (length rows.new.items ≡ length rows.old.items) }
    ensures rows { OnOk result (TakeStub tenants stub rows.old.items rows.new.items) }
{
    let Stub {
        tenant,
        session,
        mut receipts,
    } = stub;
    if tenant >= tenants {
        return Ok(());
    }
    let row = &mut rows[SESSION_LIMIT * tenant as usize + session.index()];
    row.append(&mut receipts)?;
    Ok(())
}
