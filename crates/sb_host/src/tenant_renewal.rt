//! A tenant of a host is renewed by what its closed sessions have left.
ghost use Rattle.std.specs.Prelude.{◌≡◌, ◌<◌, length, IfErr, IfOk, IfSome, IsFalse, IsTrue, ℕ};
ghost use Rattle.sb_tenant.specs.declared.bound.Bound.{Bound};
ghost use Rattle.sb_tenant.specs.Limits.{session_count};
ghost use Rattle.sb_host.specs.Finish.{gathered, row_at};
ghost use Rattle.sb_host.specs.Renewal.{AreOf, GivesBack, IsRenewed, IsUnrenewed};
ghost use Rattle.sb_host.specs.Renewing.{AreHeld, IsSpare, IsUngathered, held_by, receipt_count};

use crate::host::Host;
use crate::lending::Lending;
use crate::renewal::RenewError;
use crate::volume_stubs::{VolumeStubs, count_of, put_stubs, rows_of_volume};
use sb_cell::RenewalError;
use sb_desk::{Naming, Receipt, Stub};
use sb_tenant::Tenant;
use std::alloc::Global;
use std::sync::Wait;
use std::sync::ledger::Share;

/// A renewal: the tenant that there was, and the stubs of the new trail's opening.
#[derive(Drop)]
pub struct Renewal {
    pub old: Tenant,
    pub opening: Vec<Stub>,
}

/// A renewal that wasn't done gives this back.
#[derive(Drop)]
pub struct NotRenewed {
    pub error: RenewError,
    pub fresh: Tenant,
    pub stubs: Vec<Stub>,
}

/// Stubs that don't make a volume's receipts, and why.
#[derive(Drop)]
struct Ungathered {
    error: RenewError,
    stubs: Vec<Stub>,
}

impl<N: Naming> Host<N> {
    /// Puts a fresh tenant that is alike in the place of the one of its number, where no session of that one is open
    /// and the receipts of these stubs are exactly its entries. Nobody is served by its cell meanwhile. Error: each
    /// reason of `RenewError`; the host stays as it is, and the fresh tenant and the receipts are given back.
    pub fn renew<R: Wait>(
        &self,
        rt: &R,
        alloc: Global,
        fresh: Tenant,
        stubs: Vec<Stub>,
    ) -> Result<Renewal, NotRenewed>
        ensures ok { IfOk result (λ r. IsRenewed N.bound stubs.items fresh r.old r.opening.items) }
        ensures err { IfErr result (λ e. IsUnrenewed self.now N.bound stubs.items fresh e.error) }
        ensures back { IfErr result (λ e. (e.fresh ≡ fresh) × GivesBack fresh.id stubs.items e.stubs.items) }
    {
        let gathered = self.gather(rt, alloc, fresh.id().index() as u32, stubs);
        let (volume, spare) = match gathered {
            Ok(gathered) => gathered,
            Err(ungathered) => {
                let Ungathered { error, stubs } = ungathered;
                return Err(NotRenewed {
                    error,
                    fresh,
                    stubs,
                });
            }
        };
        match self.renew_volume(rt, alloc, fresh, volume) {
            Ok(renewal) => {
                let (old, volume) = renewal.into_parts();
                let opening = self.give_up(rt, volume, spare);
                Ok(Renewal { old, opening })
            }
            Err(kept) => {
                let (error, fresh, volume) = kept.into_parts();
                let stubs = self.give_up(rt, volume, spare);
                Err(NotRenewed {
                    error,
                    fresh,
                    stubs,
                })
            }
        }
    }

    /// The receipts of these stubs of a tenant, with their parts of the ledger, and room for the stubs that they make.
    fn gather<R: Wait>(
        &self,
        rt: &R,
        alloc: Global,
        tenant: u32,
        stubs: Vec<Stub>,
    ) -> Result<(VolumeStubs<N>, Vec<Stub>), Ungathered>
        ensures ok { IfOk result (λ r. (r.0.tenant ≡ tenant) × AreOf tenant stubs.items × AreHeld tenant stubs.items (held_by r.0)) }
        ensures spare { IfOk result (λ r. IsSpare r.1) }
        ensures err { IfErr result (λ e. IsUngathered self.now tenant stubs.items e.error × GivesBack tenant stubs.items e.stubs.items) }
    {
        if tenant >= self.tenants {
            return Err(Ungathered {
                error: RenewError::Refused(RenewalError::NoTenant),
                stubs,
            });
        }
        if !are_of(tenant, &stubs) {
            return Err(Ungathered {
                error: RenewError::OtherTenant,
                stubs,
            });
        }
        match rows_of_volume(alloc, tenant, stubs) {
            Ok(gathered) => {
                let (rows, spare) = gathered;
                self.with_parts(rt, tenant, rows, spare)
            }
            Err(stubs) => Err(Ungathered {
                error: RenewError::NoMemory,
                stubs,
            }),
        }
    }

    /// These rows of a tenant, with their parts of the ledger. Error: the closed sessions have left others.
    fn with_parts<R: Wait>(
        &self,
        rt: &R,
        tenant: u32,
        rows: Vec<Vec<Receipt>>,
        mut spare: Vec<Stub>,
    ) -> Result<(VolumeStubs<N>, Vec<Stub>), Ungathered>
        requires tenant { tenant < N.tenants }
        requires rows { length rows.items ≡ session_count }
        requires spare { IsSpare spare }
        ensures ok { IfOk result (λ r. (r.0.tenant ≡ tenant) × ((s : ℕ) → held_by r.0 s ≡ row_at rows.items s) × IsSpare r.1) }
        ensures err { IfErr result (λ e. (e.error ≡ RenewError.NotClosed) × AreOf tenant e.stubs.items × ((s : ℕ) → s < session_count → gathered tenant s e.stubs.items ≡ row_at rows.items s)) }
    {
        match self.parts_of(rt, tenant, &rows) {
            Some(share) => Ok((VolumeStubs::of(tenant, rows, share), spare)),
            None => {
                put_stubs(&mut spare, tenant, rows);
                Err(Ungathered {
                    error: RenewError::NotClosed,
                    stubs: spare,
                })
            }
        }
    }

    /// The parts of the receipts of these rows, if the closed sessions of the tenant have left as many.
    fn parts_of<R: Wait>(&self, rt: &R, tenant: u32, rows: &[Vec<Receipt>]) -> Option<Share<N>>
        ensures { IfSome result (λ share. share.parts ≡ receipt_count rows.now) }
    {
        let count = count_of(rows)?;
        self.closed_parts.take(rt, tenant, count)
    }

    /// The stubs of a volume's receipts, whose parts are kept.
    fn give_up<R: Wait>(&self, rt: &R, volume: VolumeStubs<N>, mut spare: Vec<Stub>) -> Vec<Stub>
        requires { IsSpare spare }
        ensures own { (s : ℕ) → s < session_count → gathered volume.tenant s result.items ≡ held_by volume s }
        ensures of { AreOf volume.tenant result.items }
    {
        let (tenant, rows, share) = volume.into_rows();
        if let Some(count) = count_of(&rows) {
            self.closed_parts.put(rt, tenant, count, share);
        }
        put_stubs(&mut spare, tenant, rows);
        spare
    }
}

/// True if all of them are this tenant's.
fn are_of(tenant: u32, stubs: &[Stub]) -> bool
    ensures yes { IsTrue result → AreOf tenant stubs.now }
    ensures no { IsFalse result → AreOf tenant stubs.now → ⊥ }
{
    stubs.iter().all(|stub| stub.tenant == tenant)
}

/// A host that renews its tenants.
pub trait Renewing: Lending {
    /// Puts a fresh tenant that is alike in the place of the one of its number, where no session of that one is open
    /// and the receipts of these stubs are exactly its entries. Nobody is served by its cell meanwhile. Error: each
    /// reason of `RenewError`; the host stays as it is, and the fresh tenant and the receipts are given back.
    fn renew<R: Wait>(
        &self,
        rt: &R,
        alloc: Global,
        fresh: Tenant,
        stubs: Vec<Stub>,
    ) -> Result<Renewal, NotRenewed>
        ensures ok { IfOk result (λ r. (bound : Bound) × IsRenewed bound stubs.items fresh r.old r.opening.items) }
        ensures back { IfErr result (λ e. (e.fresh ≡ fresh) × GivesBack fresh.id stubs.items e.stubs.items) };

    /// Lets each tenant take so many bytes from now on (`Tenant::limit_memory`).
    fn limit_memory<R: Wait>(&self, rt: &R, bytes: u64);
}

impl<'h, N: Naming> Renewing for &'h Host<N> {
    fn renew<R: Wait>(
        &self,
        rt: &R,
        alloc: Global,
        fresh: Tenant,
        stubs: Vec<Stub>,
    ) -> Result<Renewal, NotRenewed> {
        (**self).renew(rt, alloc, fresh, stubs)
    }

    fn limit_memory<R: Wait>(&self, rt: &R, bytes: u64) {
        (**self).limit_memory(rt, bytes)
    }
}
