//! Renewals of tenants: the volume of a tenant's trail ends, and the next one begins.
ghost use Rattle.std.specs.Prelude.{◌≡◌, ℕ, All, Bool, true, List, IsTrue};
ghost use Rattle.sb_desk.specs.declared.stub.Stub.{Stub as ItsStub};

use sb_desk::Stub;
use std::sync::Wait;

/// Renews tenants of a server while their connections stay open.
pub trait Renewals {
    // tenants may be renewed
    ghost may_renew: { Bool };

    // a renewal of a tenant took these receipts of its sessions: all of those in its volume that others didn't take before
    ghost takes: { ℕ → List ItsStub → Type 0 };

    /// True if a tenant is to be renewed as soon as none of its sessions has a transaction. It isn't for a while where
    /// that couldn't be done.
    fn is_due(&self, tenant: u32) -> bool
        ensures { IsTrue result → may_renew ≡ true };

    /// Notes that an operator wants a tenant to be renewed. It is due then.
    fn ask(&self, tenant: u32);

    /// Notes that a tenant isn't renewed yet, since a session of it has a transaction.
    fn put_off(&self, tenant: u32);

    /// Takes the receipts that the tenant's sessions have left, and renews it if that can be done.
    fn renew<T: Wait>(&self, rt: &T, tenant: u32, stubs: Vec<Stub>)
        requires { All (λ (stub : ItsStub). stub.tenant ≡ tenant) stubs.items }
        ensures { takes tenant stubs.items };
}

/// No tenant is renewed.
#[derive(Clone, Copy, Debug)]
pub struct NoRenewals;

impl Renewals for NoRenewals {
    ghost use Rattle.std.specs.Prelude.{false, ⊤};

    ghost may_renew = { false };

    ghost takes = { λ _ _. ⊤ };

    fn is_due(&self, _tenant: u32) -> bool {
        false
    }

    fn ask(&self, _tenant: u32) {}

    fn put_off(&self, _tenant: u32) {}

    fn renew<T: Wait>(&self, _rt: &T, _tenant: u32, _stubs: Vec<Stub>) {}
}
