//! A tenant goes on with a new trail.
ghost use Rattle.std.specs.Prelude.{◌≡◌, IfErr, IfOk, OnOk};
ghost use Rattle.sb_cell.specs.Renewal.{IsNotRenewed, Renews};
ghost use Rattle.sb_cell.specs.Renewing.{IsMadeNext};

use crate::cell::Cell;
use sb_tenant::{Tenant, are_alike};
use std::alloc::Global;

/// Why a tenant isn't renewed.
#[derive(Clone, Copy, Debug, PartialEq, Eq)]
pub enum RenewalError {
    /// The cell has no tenant of that number.
    NoTenant,
    /// The fresh one has another consideration limit.
    OtherBound,
    /// A session of the tenant or of the fresh one is open.
    Open,
    /// The two aren't found to be alike.
    NotAlike,
    /// A count of the tenant's volumes has no room.
    TooMany,
}

/// The fresh tenant of a renewal that wasn't done, as it was.
#[derive(Drop)]
pub struct Unrenewed {
    pub error: RenewalError,
    pub fresh: Tenant,
}

impl Cell {
    /// Puts a fresh tenant that is alike in the place of the one of its number, and gives that one back: its memory can
    /// be let go outside of a lock.
    pub fn renew(&mut self, alloc: Global, mut fresh: Tenant) -> Result<Tenant, Unrenewed>
        ensures ok { IfOk result (λ old. Renews self.old old fresh self.new) }
        ensures err { IfErr result (λ e. (self.new ≡ self.old) × (e.fresh ≡ fresh) × IsNotRenewed self.old fresh e.error) }
    {
        match self.make_next(alloc, &mut fresh) {
            Ok(()) => Ok(self.put(fresh)),
            Err(error) => Err(Unrenewed { error, fresh }),
        }
    }

    /// Makes the fresh tenant one that may take the place of the tenant of its number.
    fn make_next(&self, alloc: Global, fresh: &mut Tenant) -> Result<(), RenewalError>
        ensures ok { OnOk result (IsMadeNext self.now fresh.old fresh.new) }
        ensures err { IfErr result (λ e. (fresh.new ≡ fresh.old) × IsNotRenewed self.now fresh.old e) }
    {
        // for the proof: the tenant is in step with the log and the index, and the fresh trail is legal
        let _log = self.log();
        let _trail = fresh.trail();
        let Some(old) = self.tenant(number_of(fresh)) else {
            return Err(RenewalError::NoTenant);
        };
        if fresh.bound() != self.bound() {
            return Err(RenewalError::OtherBound);
        }
        if old.is_any_open() || fresh.is_any_open() {
            return Err(RenewalError::Open);
        }
        if !are_alike(old, fresh) {
            return Err(RenewalError::NotAlike);
        }
        if !fresh.follow(old) {
            return Err(RenewalError::TooMany);
        }
        fresh.settle(alloc);
        Ok(())
    }
}

/// The number of a tenant.
pub(crate) fn number_of(tenant: &Tenant) -> u32
    ensures { result ≡ tenant.now.id }
{
    u32::from(tenant.id().number())
}
