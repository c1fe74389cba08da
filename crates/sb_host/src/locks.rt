//! The calls of a desk, behind its lock.
ghost use Rattle.std.specs.Prelude.{◌≡◌, ◌<◌, ◌%◌, false, IsFalse, IsSome, IsTrue, IfOk, IfErr, OnOk};
ghost use Rattle.sb_desk.specs.Calls.{Called, IsNewcomer, IsRefused, Left, Refused};
ghost use Rattle.sb_host.specs.Lending.{Lends};
ghost use Rattle.sb_host.specs.Renewing.{IsOpening, KeepsRows, VolumeIsRenewed, VolumeIsUnrenewed};

use crate::reading::Reading;
use crate::renewal::{NotRenewedVolume, VolumeRenewal, renew_on};
use crate::volume_stubs::VolumeStubs;
use crossbeam_utils::CachePadded;
use sb_desk::seats::SeatTable;
use sb_desk::{AttachError, CallError, Desk, Gate, Naming, Receipt, Receipts};
use sb_tenant::laws::answers_are_numbered;
use sb_tenant::{StepWatch, Tenant};
use sb_value::SessionId;
use std::alloc::{AllocError, Global};
use std::sync::{Mutex, Wait};

/// The lock of the cell `F`, which a host with fewer cells hasn't. No other lock is on its cache lines, so threads at
/// work in different cells don't wait for each other's.
pub(crate) type Lock<N, const F: u32> = Option<CachePadded<Mutex<Desk<N, F>>>>;

/// What every cell of a host is reached by: how many there are, and what the seats share.
#[derive(Clone, Copy)]
pub(crate) struct Reach<'h> {
    pub(crate) cells: u32,
    pub(crate) table: &'h SeatTable,
}

/// Lends the tenant of that number to a reader.
pub(crate) fn read_in<N: Naming, const F: u32, R: Wait, V: Reading>(
    rt: &R,
    lock: &Lock<N, F>,
    tenant: u32,
    reading: &mut V,
)
    requires there { IsSome lock.now }
    requires hosts { (tenant < N.tenants) × (tenant % N.cells ≡ F) }
    ensures { Lends (V.reads reading.old) tenant reading.new }
{
    let Some(lock) = lock else { unreachable!() };
    let desk = lock.lock(rt);
    let Some(own) = desk.cell().tenant(tenant) else {
        unreachable!()
    };
    reading.read(own);
}

/// Does the same, unless the lock is held: whether it isn't.
pub(crate) fn try_read_in<N: Naming, const F: u32, V: Reading>(
    lock: &Lock<N, F>,
    tenant: u32,
    reading: &mut V,
) -> bool
    requires there { IsSome lock.now }
    requires hosts { (tenant < N.tenants) × (tenant % N.cells ≡ F) }
    ensures read { IsTrue result → Lends (V.reads reading.old) tenant reading.new }
    ensures none { IsFalse result → reading.new ≡ reading.old }
{
    let Some(lock) = lock else { unreachable!() };
    let Some(desk) = lock.try_lock() else {
        return false;
    };
    let Some(own) = desk.cell().tenant(tenant) else {
        unreachable!()
    };
    reading.read(own);
    true
}

/// Lets each tenant of the cell take so many bytes, if the host has the cell.
pub(crate) fn limit_in<N: Naming, const F: u32, R: Wait>(rt: &R, lock: &Lock<N, F>, bytes: u64) {
    if let Some(lock) = lock {
        let mut desk = lock.lock(rt);
        desk.limit_memory(bytes);
    }
}

/// Adds the watch of the cell to a list, if the host has the cell. Error: out of memory, or the lock is held.
pub(crate) fn watch_in<N: Naming, const F: u32>(
    lock: &Lock<N, F>,
    watches: &mut Vec<StepWatch>,
) -> Result<(), AllocError> {
    let Some(lock) = lock else {
        return Ok(());
    };
    let Some(desk) = lock.try_lock() else {
        return Err(AllocError);
    };
    watches.push(desk.cell().watch().share()?)?;
    Ok(())
}

/// Makes the step of the line that is ready.
pub(crate) fn enter_in<N: Naming, const F: u32, R: Wait, G: Gate>(
    rt: &R,
    alloc: Global,
    lock: &Lock<N, F>,
    r: &mut Receipts<N>,
    reach: Reach<'_>,
    gate: &G,
) -> Result<(), CallError>
    requires there { IsSome lock.now }
    requires cells { reach.cells ≡ N.cells }
    requires own { r.old.tenant % N.cells ≡ F }
    requires table { (reach.table.now.table_id ≡ N.table) × (N.table.words ≡ 1) }
    requires ready { r.old.ended ≡ false → IsSome r.old.ready }
    ensures ok { OnOk result (Called r.old r.new) }
    ensures err { IfErr result (λ e. Refused r.old e r.new) }
{
    let Some(lock) = lock else { unreachable!() };
    let mut desk = lock.lock(rt);
    gate.inside(r.tenant(), r.session());
    // for the proof: an answer has no number exactly where the trail is full
    answers_are_numbered();
    desk.enter(alloc, r, reach.table, reach.cells)
}

/// Makes the step `end`, unless the session has ended.
pub(crate) fn leave_in<N: Naming, const F: u32, R: Wait>(
    rt: &R,
    lock: &Lock<N, F>,
    r: &mut Receipts<N>,
    reach: Reach<'_>,
)
    requires there { IsSome lock.now }
    requires cells { reach.cells ≡ N.cells }
    requires own { r.old.tenant % N.cells ≡ F }
    requires table { (reach.table.now.table_id ≡ N.table) × (N.table.words ≡ 1) }
    ensures { Left r.old r.new }
{
    let Some(lock) = lock else { unreachable!() };
    let mut desk = lock.lock(rt);
    desk.leave(r, reach.table, reach.cells);
}

/// Makes the step `open`.
pub(crate) fn admit_in<N: Naming, const F: u32, R: Wait>(
    rt: &R,
    alloc: Global,
    lock: &Lock<N, F>,
    tenant: u32,
    session: SessionId,
    cells: u32,
) -> Result<Receipts<N>, AttachError>
    requires there { IsSome lock.now }
    requires cells { cells ≡ N.cells }
    requires hosts { (tenant < N.tenants) × (tenant % N.cells ≡ F) }
    ensures ok { IfOk result (λ r. IsNewcomer tenant session r) }
    ensures late { IfErr result (λ e. IsRefused tenant session e) }
{
    let Some(lock) = lock else { unreachable!() };
    let mut desk = lock.lock(rt);
    desk.admit(alloc, tenant, session, cells)
}

/// Renews a tenant of the cell.
pub(crate) fn renew_in<N: Naming, const F: u32, R: Wait>(
    rt: &R,
    alloc: Global,
    lock: &Lock<N, F>,
    fresh: Tenant,
    stubs: VolumeStubs<N>,
    opening: Vec<Vec<Receipt>>,
) -> Result<VolumeRenewal<N>, NotRenewedVolume<N>>
    requires there { IsSome lock.now }
    requires hosts { (stubs.tenant < N.tenants) × (stubs.tenant % N.cells ≡ F) }
    requires own { stubs.tenant ≡ fresh.id }
    requires opening { IsOpening fresh.trail opening.items }
    ensures ok { IfOk result (λ r. VolumeIsRenewed N.bound stubs fresh r.old r.stubs) }
    ensures err { IfErr result (λ e. VolumeIsUnrenewed N.bound stubs fresh e.error) }
    ensures back { IfErr result (λ e. (e.fresh ≡ fresh) × KeepsRows stubs e.stubs) }
{
    let Some(lock) = lock else { unreachable!() };
    let mut desk = lock.lock(rt);
    renew_on(&mut desk, alloc, fresh, stubs, opening)
}
