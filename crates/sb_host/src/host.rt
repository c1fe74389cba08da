//! The cells of a host, each behind a lock of its own.
ghost use Rattle.std.specs.Prelude.{◌≡◌, ◌↔◌, ◌<◌, ◌≤◌, nat_lt, false, IsFalse, IsSome, IsTrue, IfOk, IfErr, OnOk};
ghost use Rattle.sb_desk.specs.Calls.{Attached, Called, IsRefused, IsNewcomer, Left, Refused};
ghost use Rattle.sb_host.specs.Finish.{AreTrails, AreKeptAs};
ghost use Rattle.sb_host.specs.Lending.{Lends};

use crate::closed_parts::ClosedParts;
use crate::gathering::{blank, first_volumes};
use crate::lock_group::LockGroup;
use crate::locks::Reach;
use crate::reading::{Reading, Tried};
use crate::session::Session;
use sb_desk::seats::Seats;
use sb_desk::{AttachError, CallError, Gate, Naming, Receipts};
use sb_tenant::{Entry, StepWatch, Volume};
use sb_value::{SESSION_LIMIT, SessionId};
use std::alloc::{AllocError, Global};
use std::marker::Model;
use std::sync::Wait;

/// The cells of a host, each behind its own lock, whose type names the cell.
pub struct Host<N: Naming> {
    pub(crate) tenants: u32,
    pub(crate) cells: u32,
    pub(crate) seats: Seats,
    pub(crate) closed_parts: ClosedParts<N>,
    /// The locks of the cells 0 to 3, 4 to 7 and so on.
    pub(crate) first: LockGroup<N, 0, 1, 2, 3>,
    pub(crate) second: LockGroup<N, 4, 5, 6, 7>,
    pub(crate) third: LockGroup<N, 8, 9, 10, 11>,
    pub(crate) fourth: LockGroup<N, 12, 13, 14, 15>,
    /// Who is told of the steps of each cell while they run.
    pub(crate) watches: Vec<StepWatch>,
}

impl<N: Naming> Drop for Host<N> {
    fn drop(self) {
        let Self {
            tenants: _,
            cells: _,
            seats: _,
            closed_parts: _,
            first: _,
            second: _,
            third: _,
            fourth: _,
            watches: _,
        } = self;
    }
}

impl<N: Naming> Model for Host<N> {
    ghost use Rattle.std.specs.Prelude.{ℕ};
    ghost use Rattle.sb_host.specs.Fields.{IsHost};

    ghost Value = { ℕ };

    ghost view = { λ h. h.tenants };

    ghost invariant = { IsHost N.table N.tenants N.cells };
}

impl<N: Naming> Host<N> {
    /// How many tenants it has.
    pub fn tenants(&self) -> u32
        ensures { result ≡ self.now }
    {
        self.tenants
    }

    /// How many cells it has. A tenant's is its number modulo this one.
    pub fn cells(&self) -> u32
        ensures is { result ≡ N.cells }
        ensures some { 0 < result }
    {
        self.cells
    }

    /// Opens a session of a tenant. Error: NoTenant, NoSession, AlreadyOpen, TrailFull or NotBegun.
    pub fn attach<R: Wait>(
        &self,
        rt: &R,
        alloc: Global,
        tenant: u32,
        session: u32,
    ) -> Result<Session<'_, N>, AttachError>
        ensures { Attached self.now tenant session result }
    {
        if tenant >= self.tenants {
            return Err(AttachError::NoTenant);
        }
        if session >= SESSION_LIMIT as u32 {
            return Err(AttachError::NoSession);
        }
        match self.admit(rt, alloc, tenant, SessionId::new(session as u8)) {
            Ok(receipts) => Ok(Session {
                host: self,
                receipts,
            }),
            Err(e) => Err(e),
        }
    }

    /// Lends the tenant of that number to a reader, within the lock of its cell: whether there is one.
    pub fn read<R: Wait, V: Reading>(&self, rt: &R, tenant: u32, reading: &mut V) -> bool
        ensures there { result ≡ nat_lt tenant self.now }
        ensures read { IsTrue result → Lends (V.reads reading.old) tenant reading.new }
        ensures none { IsFalse result → reading.new ≡ reading.old }
    {
        if tenant >= self.tenants {
            return false;
        }
        let cell = tenant % self.cells;
        match cell {
            0..=3 => self.first.read(rt, cell, tenant, reading),
            4..=7 => self.second.read(rt, cell, tenant, reading),
            8..=11 => self.third.read(rt, cell, tenant, reading),
            12..=15 => self.fourth.read(rt, cell, tenant, reading),
            _ => unreachable!(),
        }
        true
    }

    /// Does the same, but where the lock is held it doesn't wait.
    pub fn try_read<V: Reading>(&self, tenant: u32, reading: &mut V) -> Tried
        ensures there { (result ≡ Tried.NoTenant) ↔ (self.now ≤ tenant) }
        ensures read { result ≡ Tried.Read → Lends (V.reads reading.old) tenant reading.new }
        ensures none { (result ≡ Tried.Read → ⊥) → reading.new ≡ reading.old }
    {
        if tenant >= self.tenants {
            return Tried::NoTenant;
        }
        let cell = tenant % self.cells;
        let is_read = match cell {
            0..=3 => self.first.try_read(cell, tenant, reading),
            4..=7 => self.second.try_read(cell, tenant, reading),
            8..=11 => self.third.try_read(cell, tenant, reading),
            12..=15 => self.fourth.try_read(cell, tenant, reading),
            _ => unreachable!(),
        };
        match is_read {
            true => Tried::Read,
            false => Tried::Held,
        }
    }

    /// Who is told of the steps of this cell while they run.
    pub fn watch(&self, cell: usize) -> Option<&StepWatch> {
        self.watches.get(cell)
    }

    /// Lets each tenant take so many bytes from now on (`Tenant::limit_memory`).
    pub fn limit_memory<R: Wait>(&self, rt: &R, bytes: u64) {
        self.first.limit_memory(rt, bytes);
        self.second.limit_memory(rt, bytes);
        self.third.limit_memory(rt, bytes);
        self.fourth.limit_memory(rt, bytes);
    }

    /// Makes the step `open`, on the tenant's own cell.
    fn admit<R: Wait>(
        &self,
        rt: &R,
        alloc: Global,
        tenant: u32,
        session: SessionId,
    ) -> Result<Receipts<N>, AttachError>
        requires { tenant < self.now }
        ensures ok { IfOk result (λ r. IsNewcomer tenant session r) }
        ensures late { IfErr result (λ e. IsRefused tenant session e) }
    {
        let (cell, cells) = (tenant % self.cells, self.cells);
        match cell {
            0..=3 => self.first.admit(rt, alloc, cell, tenant, session, cells),
            4..=7 => self.second.admit(rt, alloc, cell, tenant, session, cells),
            8..=11 => self.third.admit(rt, alloc, cell, tenant, session, cells),
            12..=15 => self.fourth.admit(rt, alloc, cell, tenant, session, cells),
            _ => unreachable!(),
        }
    }

    /// Makes the step of the line that is ready, on the session's own cell.
    pub(crate) fn enter<R: Wait, G: Gate>(
        &self,
        rt: &R,
        alloc: Global,
        r: &mut Receipts<N>,
        gate: &G,
    ) -> Result<(), CallError>
        requires ready { r.old.ended ≡ false → IsSome r.old.ready }
        ensures ok { OnOk result (Called r.old r.new) }
        ensures err { IfErr result (λ e. Refused r.old e r.new) }
    {
        let reach = Reach {
            cells: self.cells,
            table: &self.seats.shared,
        };
        let cell = r.tenant() % self.cells;
        match cell {
            0..=3 => self.first.enter(rt, alloc, cell, r, reach, gate),
            4..=7 => self.second.enter(rt, alloc, cell, r, reach, gate),
            8..=11 => self.third.enter(rt, alloc, cell, r, reach, gate),
            12..=15 => self.fourth.enter(rt, alloc, cell, r, reach, gate),
            _ => unreachable!(),
        }
    }

    /// Makes the step `end`, on the session's own cell.
    pub(crate) fn leave<R: Wait>(&self, rt: &R, r: &mut Receipts<N>)
        ensures { Left r.old r.new }
    {
        let reach = Reach {
            cells: self.cells,
            table: &self.seats.shared,
        };
        let cell = r.tenant() % self.cells;
        match cell {
            0..=3 => self.first.leave(rt, cell, r, reach),
            4..=7 => self.second.leave(rt, cell, r, reach),
            8..=11 => self.third.leave(rt, cell, r, reach),
            12..=15 => self.fourth.leave(rt, cell, r, reach),
            _ => unreachable!(),
        }
    }

    /// The trails of all cells, and their volumes, at the places of their tenants.
    pub(crate) fn into_trails(
        self,
        alloc: Global,
    ) -> Result<(Vec<Vec<Entry>>, Vec<Volume>), AllocError>
        ensures trails { IfOk result (λ r. AreTrails N.bound self r.0.items) }
        ensures volumes { IfOk result (λ r. AreKeptAs N.bound r.0.items r.1.items) }
        ensures few { self ≤ 256 }
    {
        let mut trails = blank(alloc, self.tenants as usize)?;
        let mut volumes = first_volumes(alloc, self.tenants as usize)?;
        let Self {
            tenants: _,
            cells: _,
            seats: _,
            closed_parts: _,
            first,
            second,
            third,
            fourth,
            watches: _,
        } = self;
        first.put(&mut trails, &mut volumes);
        second.put(&mut trails, &mut volumes);
        third.put(&mut trails, &mut volumes);
        fourth.put(&mut trails, &mut volumes);
        Ok((trails, volumes))
    }
}
