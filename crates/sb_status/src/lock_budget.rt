//! How long a page waits for tenants whose cells are busy.
ghost use Rattle.std.specs.Prelude.{◌≡◌, ◌↔◌, ◌≤◌};
ghost use Rattle.sb_host.specs.Lending.{Lends};

use sb_host::{Lending, Reading, Tried};
use std::rt::Clock;
use std::thread;
use std::time::Duration;

/// How often a page looks again whether a lock is free, in all.
const LOOKS: u32 = 100;

/// How many milliseconds lie between two looks.
const NAP: u64 = 1;

/// What is left of the tenth of a second for which a page waits.
#[derive(Drop)]
pub struct LockBudget<'k, T> {
    rt: &'k T,
    left: u32,
}

impl<'k, T: Clock> LockBudget<'k, T> {
    /// All of it is left.
    pub fn new(rt: &'k T) -> LockBudget<'k, T> {
        LockBudget { rt, left: LOOKS }
    }

    /// Lends the tenant of that number to a reader, unless the lock of its cell is held for too long.
    pub fn read<H: Lending, V: Reading>(&mut self, host: H, tenant: u32, reading: &mut V) -> Tried
        ensures there { (result ≡ Tried.NoTenant) ↔ (H.tenants host ≤ tenant) }
        ensures read { result ≡ Tried.Read → Lends (V.reads reading.old) tenant reading.new }
        ensures none { (result ≡ Tried.Read → ⊥) → reading.new ≡ reading.old }
    {
        for _ in 0..self.left {
            match host.try_read(tenant, reading) {
                Tried::Held => {}
                known => return known,
            }
            self.left = self.left.saturating_sub(1);
            thread::sleep(self.rt, Duration::from_millis(NAP));
        }
        host.try_read(tenant, reading)
    }
}
