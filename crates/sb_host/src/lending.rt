//! A host as one that lends its tenants to readers.
ghost use Rattle.std.specs.Prelude.{◌≡◌, ◌↔◌, ◌≤◌, nat_lt, IsFalse, IsTrue};
ghost use Rattle.sb_host.specs.Lending.{Lends};

use crate::host::Host;
use crate::reading::{Reading, Tried};
use sb_desk::{Hosting, Naming};
use sb_tenant::StepWatch;
use std::sync::Wait;

/// A host whose tenants are read as they stand between two steps.
pub trait Lending: Hosting {
    /// Lends the tenant of that number to a reader, within the lock of its cell: whether there is one.
    fn read<R: Wait, V: Reading>(&self, rt: &R, tenant: u32, reading: &mut V) -> bool
        ensures there { result ≡ nat_lt tenant (Self.tenants self.now) }
        ensures read { IsTrue result → Lends (V.reads reading.old) tenant reading.new }
        ensures none { IsFalse result → reading.new ≡ reading.old };

    /// Lends it, unless the lock of its cell is held.
    fn try_read<V: Reading>(&self, tenant: u32, reading: &mut V) -> Tried
        ensures there { (result ≡ Tried.NoTenant) ↔ (Self.tenants self.now ≤ tenant) }
        ensures read { result ≡ Tried.Read → Lends (V.reads reading.old) tenant reading.new }
        ensures none { (result ≡ Tried.Read → ⊥) → reading.new ≡ reading.old };

    /// Who is told of the steps of this cell while they run.
    fn watch(&self, cell: usize) -> Option<&StepWatch>;
}

impl<'h, N: Naming> Lending for &'h Host<N> {
    fn read<R: Wait, V: Reading>(&self, rt: &R, tenant: u32, reading: &mut V) -> bool {
        (**self).read(rt, tenant, reading)
    }

    fn try_read<V: Reading>(&self, tenant: u32, reading: &mut V) -> Tried {
        (**self).try_read(tenant, reading)
    }

    fn watch(&self, cell: usize) -> Option<&StepWatch> {
        (**self).watch(cell)
    }
}
