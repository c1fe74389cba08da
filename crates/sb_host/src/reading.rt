//! Who reads a tenant while its cell's lock is held.
ghost use Rattle.sb_tenant.specs.Tenant.{Tenant as ItsTenant};

use sb_tenant::Tenant;

/// A reader of tenants.
pub trait Reading {
    // what it has noted of a tenant that it read
    ghost reads: { Self → ItsTenant → Self → Type 0 };

    /// Reads a tenant, as it stands between two steps.
    fn read(&mut self, tenant: &Tenant)
        ensures { Self.reads self.old tenant.now self.new };
}

/// The outcome of a read that doesn't wait.
#[derive(Clone, Copy, Debug, PartialEq, Eq)]
pub enum Tried {
    Read,
    /// There is no tenant of that number.
    NoTenant,
    /// The lock of its cell is held.
    Held,
}
