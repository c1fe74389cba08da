//! The parts of the ledger that closed sessions have left, until the volume of their tenant's trail ends.
ghost use Rattle.std.specs.Prelude.{◌≡◌, IfSome};

use sb_desk::Naming;
use std::alloc::{AllocError, Global};
use std::marker::Model;
use std::mem;
use std::sync::ledger::Share;
use std::sync::{Mutex, Wait};

/// Parts of the ledger, and their number.
struct Parts<N: Naming> {
    count: u64,
    share: Share<N>,
}

impl<N: Naming> Drop for Parts<N> {
    fn drop(self) {
        let Self { count: _, share: _ } = self;
    }
}

impl<N: Naming> Model for Parts<N> {
    ghost use Rattle.std.specs.Prelude.{ℕ, ◌≡◌};

    ghost Value = { ℕ };

    ghost view = { λ p. p.count };

    ghost invariant = { λ p. p.share.parts ≡ p.count };
}

impl<N: Naming> Parts<N> {
    /// Takes in so many parts.
    fn add(&mut self, count: u64, share: Share<N>)
        requires { share.parts ≡ count }
    {
        // the ledger has fewer parts than such a number
        let Some(all) = self.count.checked_add(count) else {
            return;
        };
        self.share.merge(share);
        self.count = all;
    }

    /// Gives all parts, if they are so many.
    fn take(&mut self, count: u64) -> Option<Share<N>>
        ensures { IfSome result (λ share. share.parts ≡ count) }
    {
        if self.count != count {
            return None;
        }
        let none = self.share.empty();
        self.count = 0;
        Some(mem::replace(&mut self.share, none))
    }
}

/// The parts of the closed sessions of each tenant.
pub(crate) struct ClosedParts<N: Naming> {
    tenants: Vec<Mutex<Parts<N>>>,
}

impl<N: Naming> Drop for ClosedParts<N> {
    fn drop(self) {
        let Self { tenants: _ } = self;
    }
}

impl<N: Naming> ClosedParts<N> {
    /// Those of so many tenants, none of which has a closed session.
    pub(crate) fn new(
        alloc: Global,
        tenants: u32,
        ledger: &mut Share<N>,
    ) -> Result<ClosedParts<N>, AllocError> {
        let mut list = Vec::new(alloc);
        for _tenant in 0..tenants {
            let parts = Parts {
                count: 0,
                share: ledger.empty(),
            };
            list.push(Mutex::new(parts))?;
        }
        Ok(ClosedParts { tenants: list })
    }

    /// Takes in the parts of so many receipts of a tenant.
    pub(crate) fn put<R: Wait>(&self, rt: &R, tenant: u32, count: u64, share: Share<N>)
        requires { share.parts ≡ count }
    {
        let Some(lock) = self.tenants.get(tenant as usize) else {
            return;
        };
        let mut parts = lock.lock(rt);
        parts.add(count, share);
    }

    /// Gives the parts of all receipts of a tenant, if they are so many.
    pub(crate) fn take<R: Wait>(&self, rt: &R, tenant: u32, count: u64) -> Option<Share<N>>
        ensures { IfSome result (λ share. share.parts ≡ count) }
    {
        let lock = self.tenants.get(tenant as usize)?;
        let mut parts = lock.lock(rt);
        parts.take(count)
    }
}
