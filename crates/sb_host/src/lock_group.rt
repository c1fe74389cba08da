//! The locks of four cells of a host.
ghost use Rattle.std.specs.Prelude.{◌≡◌, ◌+◌, ◌-◌, ◌*◌, ◌<◌, ◌≤◌, ◌%◌, ◌^◌, [], false, IsFalse, IsSome, IsTrue, IfOk, IfErr, OnOk};
ghost use Rattle.sb_desk.specs.Calls.{Called, IsNewcomer, IsRefused, Left, Refused};
ghost use Rattle.sb_host.specs.Comparing.{AreTrailsOf};
ghost use Rattle.sb_host.specs.Lending.{Lends};
ghost use Rattle.sb_host.specs.Opening.{IsSeatOf, MayBe, left_at};
ghost use Rattle.sb_host.specs.LockGroups.{AreInRow};
ghost use Rattle.sb_host.specs.Renewing.{IsOpening, KeepsRows, VolumeIsRenewed, VolumeIsUnrenewed};

use crate::finish::put;
use crate::locks::{
    Lock, Reach, admit_in, enter_in, leave_in, limit_in, read_in, renew_in, try_read_in, watch_in,
};
use crate::opening::{HostSize, open_desk};
use crate::reading::Reading;
use crate::renewal::{NotRenewedVolume, VolumeRenewal};
use crate::volume_stubs::VolumeStubs;
use sb_desk::seats::{SeatTable, SessionSeat};
use sb_desk::{AttachError, CallError, Gate, Naming, Receipt, Receipts};
use sb_tenant::{Entry, StepWatch, Tenant, Volume};
use sb_value::SessionId;
use std::alloc::{AllocError, Global};
use std::marker::Model;
use std::sync::Wait;
use std::sync::ledger::Share;

/// The locks of the cells `A`, `B`, `C` and `D`, which stand in a row. To a contract it is the number of the first one.
pub(crate) struct LockGroup<N: Naming, const A: u32, const B: u32, const C: u32, const D: u32> {
    first: Lock<N, A>,
    second: Lock<N, B>,
    third: Lock<N, C>,
    fourth: Lock<N, D>,
}

impl<N: Naming, const A: u32, const B: u32, const C: u32, const D: u32> Drop
    for LockGroup<N, A, B, C, D> {
    fn drop(self) {
        let Self {
            first: _,
            second: _,
            third: _,
            fourth: _,
        } = self;
    }
}

impl<N: Naming, const A: u32, const B: u32, const C: u32, const D: u32> Model
    for LockGroup<N, A, B, C, D> {
    ghost use Rattle.std.specs.Prelude.{ℕ};
    ghost use Rattle.sb_host.specs.LockGroups.{AreInRow, HaveLocks};

    ghost Value = { ℕ };

    ghost view = { λ q. A };

    ghost invariant = { λ q. AreInRow A B C D × HaveLocks N.cells A B C D q.first q.second q.third q.fourth };
}

impl<N: Naming, const A: u32, const B: u32, const C: u32, const D: u32> LockGroup<N, A, B, C, D> {
    /// The locks of those of the cells that the host has, with their parts of the numbers and of the ledger.
    pub(crate) fn open(
        alloc: Global,
        table: &SeatTable,
        all: &mut SessionSeat,
        rest: &mut Share<N>,
        numbers: HostSize,
    ) -> Result<LockGroup<N, A, B, C, D>, AllocError>
        requires row { AreInRow A B C D × (D < 16) }
        requires table { IsSeatOf N.table table.now.table_id all.old }
        requires numbers { MayBe numbers }
        requires named { (N.tenants ≡ numbers.tenants) × (N.cells ≡ numbers.cells) × (N.bound ≡ numbers.bound) }
        requires all { all.old.me ≡ (left_at A, []) }
        requires rest { (rest.old.parts ≡ (17 - A) * 2 ^ 32) × (rest.old.amount ≡ 0) }
        ensures table { all.new.table_id ≡ all.old.table_id }
        ensures all { all.new.me ≡ (left_at (D + 1), []) }
        ensures rest { (rest.new.parts ≡ (17 - (D + 1)) * 2 ^ 32) × (rest.new.amount ≡ 0) }
    {
        let mut well = true;
        let first = open_desk::<N, A>(alloc, table, all, rest, numbers, &mut well);
        let second = open_desk::<N, B>(alloc, table, all, rest, numbers, &mut well);
        let third = open_desk::<N, C>(alloc, table, all, rest, numbers, &mut well);
        let fourth = open_desk::<N, D>(alloc, table, all, rest, numbers, &mut well);
        if !well {
            return Err(AllocError);
        }
        Ok(LockGroup {
            first,
            second,
            third,
            fourth,
        })
    }

    /// Lends the tenant of that number to a reader, on this cell.
    pub(crate) fn read<R: Wait, V: Reading>(&self, rt: &R, cell: u32, tenant: u32, reading: &mut V)
        requires hosts { (tenant < N.tenants) × (tenant % N.cells ≡ cell) }
        requires cell { (A ≤ cell) × (cell ≤ D) × (cell < N.cells) }
        ensures { Lends (V.reads reading.old) tenant reading.new }
    {
        if cell == A {
            read_in(rt, &self.first, tenant, reading)
        } else if cell == B {
            read_in(rt, &self.second, tenant, reading)
        } else if cell == C {
            read_in(rt, &self.third, tenant, reading)
        } else {
            read_in(rt, &self.fourth, tenant, reading)
        }
    }

    /// Does the same, unless the lock is held: whether it isn't.
    pub(crate) fn try_read<V: Reading>(&self, cell: u32, tenant: u32, reading: &mut V) -> bool
        requires hosts { (tenant < N.tenants) × (tenant % N.cells ≡ cell) }
        requires cell { (A ≤ cell) × (cell ≤ D) × (cell < N.cells) }
        ensures read { IsTrue result → Lends (V.reads reading.old) tenant reading.new }
        ensures none { IsFalse result → reading.new ≡ reading.old }
    {
        if cell == A {
            try_read_in(&self.first, tenant, reading)
        } else if cell == B {
            try_read_in(&self.second, tenant, reading)
        } else if cell == C {
            try_read_in(&self.third, tenant, reading)
        } else {
            try_read_in(&self.fourth, tenant, reading)
        }
    }

    /// Adds the watches of these cells to a list, in their order. Error: out of memory.
    pub(crate) fn watch(&self, watches: &mut Vec<StepWatch>) -> Result<(), AllocError> {
        watch_in(&self.first, watches)?;
        watch_in(&self.second, watches)?;
        watch_in(&self.third, watches)?;
        watch_in(&self.fourth, watches)
    }

    /// Lets each tenant of these cells take so many bytes.
    pub(crate) fn limit_memory<R: Wait>(&self, rt: &R, bytes: u64) {
        limit_in(rt, &self.first, bytes);
        limit_in(rt, &self.second, bytes);
        limit_in(rt, &self.third, bytes);
        limit_in(rt, &self.fourth, bytes);
    }

    /// Makes the step `open`, on this cell.
    pub(crate) fn admit<R: Wait>(
        &self,
        rt: &R,
        alloc: Global,
        cell: u32,
        tenant: u32,
        session: SessionId,
        cells: u32,
    ) -> Result<Receipts<N>, AttachError>
        requires cells { cells ≡ N.cells }
        requires hosts { (tenant < N.tenants) × (tenant % N.cells ≡ cell) }
        requires cell { (A ≤ cell) × (cell ≤ D) × (cell < N.cells) }
        ensures ok { IfOk result (λ r. IsNewcomer tenant session r) }
        ensures late { IfErr result (λ e. IsRefused tenant session e) }
    {
        if cell == A {
            admit_in(rt, alloc, &self.first, tenant, session, cells)
        } else if cell == B {
            admit_in(rt, alloc, &self.second, tenant, session, cells)
        } else if cell == C {
            admit_in(rt, alloc, &self.third, tenant, session, cells)
        } else {
            admit_in(rt, alloc, &self.fourth, tenant, session, cells)
        }
    }

    /// Makes the step of the line that is ready, on this cell.
    pub(crate) fn enter<R: Wait, G: Gate>(
        &self,
        rt: &R,
        alloc: Global,
        cell: u32,
        r: &mut Receipts<N>,
        reach: Reach<'_>,
        gate: &G,
    ) -> Result<(), CallError>
        requires cells { reach.cells ≡ N.cells }
        requires own { r.old.tenant % N.cells ≡ cell }
        requires cell { (A ≤ cell) × (cell ≤ D) × (cell < N.cells) }
        requires table { (reach.table.now.table_id ≡ N.table) × (N.table.words ≡ 1) }
        requires ready { r.old.ended ≡ false → IsSome r.old.ready }
        ensures ok { OnOk result (Called r.old r.new) }
        ensures err { IfErr result (λ e. Refused r.old e r.new) }
    {
        if cell == A {
            enter_in(rt, alloc, &self.first, r, reach, gate)
        } else if cell == B {
            enter_in(rt, alloc, &self.second, r, reach, gate)
        } else if cell == C {
            enter_in(rt, alloc, &self.third, r, reach, gate)
        } else {
            enter_in(rt, alloc, &self.fourth, r, reach, gate)
        }
    }

    /// Makes the step `end`, on this cell, unless the session has ended.
    pub(crate) fn leave<R: Wait>(&self, rt: &R, cell: u32, r: &mut Receipts<N>, reach: Reach<'_>)
        requires cells { reach.cells ≡ N.cells }
        requires own { r.old.tenant % N.cells ≡ cell }
        requires cell { (A ≤ cell) × (cell ≤ D) × (cell < N.cells) }
        requires table { (reach.table.now.table_id ≡ N.table) × (N.table.words ≡ 1) }
        ensures { Left r.old r.new }
    {
        if cell == A {
            leave_in(rt, &self.first, r, reach)
        } else if cell == B {
            leave_in(rt, &self.second, r, reach)
        } else if cell == C {
            leave_in(rt, &self.third, r, reach)
        } else {
            leave_in(rt, &self.fourth, r, reach)
        }
    }

    /// Renews a tenant, on this cell.
    pub(crate) fn renew<R: Wait>(
        &self,
        rt: &R,
        alloc: Global,
        cell: u32,
        fresh: Tenant,
        stubs: VolumeStubs<N>,
        opening: Vec<Vec<Receipt>>,
    ) -> Result<VolumeRenewal<N>, NotRenewedVolume<N>>
        requires hosts { (stubs.tenant < N.tenants) × (stubs.tenant % N.cells ≡ cell) }
        requires cell { (A ≤ cell) × (cell ≤ D) × (cell < N.cells) }
        requires own { stubs.tenant ≡ fresh.id }
        requires opening { IsOpening fresh.trail opening.items }
        ensures ok { IfOk result (λ r. VolumeIsRenewed N.bound stubs fresh r.old r.stubs) }
        ensures err { IfErr result (λ e. VolumeIsUnrenewed N.bound stubs fresh e.error) }
        ensures back { IfErr result (λ e. (e.fresh ≡ fresh) × KeepsRows stubs e.stubs) }
    {
        if cell == A {
            renew_in(rt, alloc, &self.first, fresh, stubs, opening)
        } else if cell == B {
            renew_in(rt, alloc, &self.second, fresh, stubs, opening)
        } else if cell == C {
            renew_in(rt, alloc, &self.third, fresh, stubs, opening)
        } else {
            renew_in(rt, alloc, &self.fourth, fresh, stubs, opening)
        }
    }

    /// Puts the trails of its cells, and their volumes, at the places of their tenants.
    pub(crate) fn put(self, trails: &mut Vec<Vec<Entry>>, volumes: &mut Vec<Volume>)
        requires trails { AreTrailsOf N.cells N.bound N.tenants A trails.old.items volumes.old.items }
        requires cells { 0 < N.cells }
        ensures { AreTrailsOf N.cells N.bound N.tenants (D + 1) trails.new.items volumes.new.items }
    {
        let Self {
            first,
            second,
            third,
            fourth,
        } = self;
        put(trails, volumes, first);
        put(trails, volumes, second);
        put(trails, volumes, third);
        put(trails, volumes, fourth);
    }
}
