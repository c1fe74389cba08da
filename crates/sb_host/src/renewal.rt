//! A tenant goes on with a new trail, where the receipts of its sessions are exactly the entries of the one that ends, and
//! their parts of the ledger are at hand.
ghost use Rattle.std.specs.Prelude.{ℕ, ◌≡◌, ◌<◌, ◌%◌, length, IfErr, IfOk, OnOk};
ghost use Rattle.std.specs.List.Sorted.{IsPermutation};
ghost use Rattle.sb_tenant.specs.Limits.{session_count};
ghost use Rattle.sb_cell.specs.Renewal.{Renews};
ghost use Rattle.sb_cell.specs.Tenants.{trails};
ghost use Rattle.sb_host.specs.Finish.{row_at};
ghost use Rattle.sb_host.specs.Renewal.{AllAreEntries, AreInOrderOf, IsUnrenewedBy};
ghost use Rattle.sb_host.specs.Renewing.{IsCellOf, IsEarly, IsOpening, KeepsRows, VolumeIsRenewed, VolumeIsUnrenewed, held_by, receipt_count};

use crate::comparing::check_rows;
use crate::host::Host;
use crate::volume_stubs::{VolumeStubs, opening_rows};
use sb_cell::{RenewalError, Unrenewed};
use sb_desk::{Desk, Naming, Receipt};
use sb_tenant::Tenant;
use sb_value::SessionId;
use std::alloc::Global;
use std::sync::Wait;

/// Why a tenant isn't renewed. Of the sessions whose receipts aren't their entries the first is told.
#[derive(Clone, Copy)]
pub enum RenewError {
    /// Receipts are another tenant's.
    OtherTenant,
    /// A session of the tenant has ended and isn't closed, or receipts aren't the host's.
    NotClosed,
    /// Its cell refuses it.
    Refused(RenewalError),
    /// The session has fewer receipts than entries.
    Missing(SessionId),
    /// Its receipts are others.
    Mismatch(SessionId),
    NoMemory,
}

/// A renewal: the tenant that there was, and the receipts of the new trail's opening.
pub(crate) struct VolumeRenewal<N: Naming> {
    pub(crate) old: Tenant,
    pub(crate) stubs: VolumeStubs<N>,
}

impl<N: Naming> Drop for VolumeRenewal<N> {
    fn drop(self) {
        let Self { old: _, stubs: _ } = self;
    }
}

impl<N: Naming> VolumeRenewal<N> {
    /// The tenant, and the receipts.
    pub(crate) fn into_parts(self) -> (Tenant, VolumeStubs<N>)
        ensures { (result.0 ≡ self.old) × (result.1 ≡ self.stubs) }
    {
        let Self { old, stubs } = self;
        (old, stubs)
    }
}

/// A renewal that wasn't done gives this back.
pub(crate) struct NotRenewedVolume<N: Naming> {
    pub(crate) error: RenewError,
    pub(crate) fresh: Tenant,
    pub(crate) stubs: VolumeStubs<N>,
}

impl<N: Naming> Drop for NotRenewedVolume<N> {
    fn drop(self) {
        let Self {
            error: _,
            fresh: _,
            stubs: _,
        } = self;
    }
}

impl<N: Naming> NotRenewedVolume<N> {
    /// The reason, the fresh tenant, and the receipts.
    pub(crate) fn into_parts(self) -> (RenewError, Tenant, VolumeStubs<N>)
        ensures { (result.0 ≡ self.error) × (result.1 ≡ self.fresh) × (result.2 ≡ self.stubs) }
    {
        let Self {
            error,
            fresh,
            stubs,
        } = self;
        (error, fresh, stubs)
    }
}

impl<N: Naming> Host<N> {
    /// Renews the tenant of these receipts. Error: the host stays as it is, and the fresh tenant and the receipts are
    /// given back.
    pub(crate) fn renew_volume<R: Wait>(
        &self,
        rt: &R,
        alloc: Global,
        fresh: Tenant,
        stubs: VolumeStubs<N>,
    ) -> Result<VolumeRenewal<N>, NotRenewedVolume<N>>
        requires { stubs.tenant ≡ fresh.id }
        ensures ok { IfOk result (λ r. VolumeIsRenewed N.bound stubs fresh r.old r.stubs) }
        ensures err { IfErr result (λ e. VolumeIsUnrenewed N.bound stubs fresh e.error) }
        ensures back { IfErr result (λ e. (e.fresh ≡ fresh) × KeepsRows stubs e.stubs) }
    {
        let Ok(opening) = opening_rows(alloc, &fresh) else {
            return Err(NotRenewedVolume {
                error: RenewError::NoMemory,
                fresh,
                stubs,
            });
        };
        let cell = stubs.tenant() % self.cells;
        match cell {
            0..=3 => self.first.renew(rt, alloc, cell, fresh, stubs, opening),
            4..=7 => self.second.renew(rt, alloc, cell, fresh, stubs, opening),
            8..=11 => self.third.renew(rt, alloc, cell, fresh, stubs, opening),
            12..=15 => self.fourth.renew(rt, alloc, cell, fresh, stubs, opening),
            _ => unreachable!(),
        }
    }
}

/// Renews a desk's tenant, with these as the receipts of the fresh trail.
pub(crate) fn renew_on<N: Naming, const F: u32>(
    desk: &mut Desk<N, F>,
    alloc: Global,
    fresh: Tenant,
    stubs: VolumeStubs<N>,
    opening: Vec<Vec<Receipt>>,
) -> Result<VolumeRenewal<N>, NotRenewedVolume<N>>
    requires hosts { (stubs.tenant < N.tenants) × (stubs.tenant % N.cells ≡ F) }
    requires own { stubs.tenant ≡ fresh.id }
    requires opening { IsOpening fresh.trail opening.items }
    ensures cell { IsCellOf N.bound desk.old fresh.id }
    ensures ok { IfOk result (λ r. Renews desk.old r.old fresh desk.new × AllAreEntries r.old.trail (held_by stubs)) }
    ensures next { IfOk result (λ r. (r.stubs.tenant ≡ stubs.tenant) × AreInOrderOf fresh.trail (held_by r.stubs)) }
    ensures err { IfErr result (λ e. (desk.new ≡ desk.old) × IsUnrenewedBy desk.old (held_by stubs) fresh e.error) }
    ensures back { IfErr result (λ e. (e.fresh ≡ fresh) × KeepsRows stubs e.stubs) }
{
    let (tenant, mut rows, share) = stubs.into_rows();
    if let Err(error) = compare_on(desk, &fresh, &mut rows) {
        let stubs = VolumeStubs::of(tenant, rows, share);
        return Err(NotRenewedVolume {
            error,
            fresh,
            stubs,
        });
    }
    match desk.renew(alloc, fresh, share) {
        Ok(renewed) => {
            let (old, parts) = renewed.into_parts();
            let stubs = VolumeStubs::of(tenant, opening, parts);
            Ok(VolumeRenewal { old, stubs })
        }
        Err(kept) => {
            let (refused, parts) = kept.into_parts();
            let Unrenewed { error, fresh } = refused;
            let stubs = VolumeStubs::of(tenant, rows, parts);
            Err(NotRenewedVolume {
                error: RenewError::Refused(error),
                fresh,
                stubs,
            })
        }
    }
}

/// Compares the receipts of a desk's tenant with its trail, where it may be renewed by its bound and its sessions. Each
/// row is sorted.
fn compare_on<N: Naming, const F: u32>(
    desk: &Desk<N, F>,
    fresh: &Tenant,
    rows: &mut Vec<Vec<Receipt>>,
) -> Result<(), RenewError>
    requires hosts { (fresh.now.id < N.tenants) × (fresh.now.id % N.cells ≡ F) }
    requires rows { length rows.old.items ≡ session_count }
    ensures cell { IsCellOf N.bound desk.now fresh.now.id }
    ensures ok { OnOk result (AllAreEntries (trails desk.now fresh.now.id) (row_at rows.old.items)) }
    ensures parts { OnOk result (receipt_count rows.new.items ≡ length (trails desk.now fresh.now.id)) }
    ensures err { IfErr result (λ e. IsUnrenewedBy desk.now (row_at rows.old.items) fresh.now e) }
    ensures same { (s : ℕ) → IsPermutation (row_at rows.old.items s) (row_at rows.new.items s) }
    ensures count { (length rows.new.items ≡ length rows.old.items) × (receipt_count rows.new.items ≡ receipt_count rows.old.items) }
{
    let Some(own) = desk.cell().tenant(fresh.id().index() as u32) else {
        unreachable!()
    };
    if let Some(why) = early_refusal(own, fresh) {
        return Err(RenewError::Refused(why));
    }
    check_rows(own.trail(), rows)
}

/// Why the fresh tenant can't take this one's place, as far as that shows by their bounds and sessions.
fn early_refusal(own: &Tenant, fresh: &Tenant) -> Option<RenewalError>
    ensures { IsEarly own.now fresh.now result }
{
    if fresh.bound() != own.bound() {
        return Some(RenewalError::OtherBound);
    }
    if own.is_any_open() || fresh.is_any_open() {
        return Some(RenewalError::Open);
    }
    None
}
