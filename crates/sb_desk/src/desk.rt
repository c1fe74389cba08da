//! What the lock of a cell holds: the cell, its share of the host's ledger, and the seats of its
//! closed sessions.
ghost use Rattle.std.specs.Prelude.{◌≡◌, ◌+◌, ◌-◌, ◌*◌, ◌/◌, ◌<◌, ◌≤◌, ◌%◌, ◌^◌, ◌==◌, ◌&&◌, nat_lt, length, ℕ, true, false, Some, Ok, IsSome, IfOk, IfErr, OnOk};
ghost use Rattle.sb_cell.specs.Renewal.{IsNotRenewed, Renews};
ghost use Rattle.sb_cell.specs.Tenants.{IsNew, hosts, trails};
ghost use Rattle.sb_desk.specs.Desks.{open_in, Admits, Enters, Leaves, Refuses, RefusesRightly};
ghost use Rattle.sb_desk.specs.Kept.{AreDealt};

use crate::naming::Naming;
use crate::receipts::{Receipts, Room};
use crate::seats::{SeatTable, SessionSeat, differ};
use sb_cell::{Cell, Unrenewed};
use sb_tenant::Tenant;
use sb_tenant::laws::entries_open_and_close;
use sb_value::{SESSION_LIMIT, SessionId};
use std::alloc::Global;
use std::marker::Model;
use std::sync::ledger::Share;

/// Why a session isn't attached.
#[derive(Clone, Copy, Debug, PartialEq, Eq)]
pub enum AttachError {
    NoTenant,
    NoSession,
    AlreadyOpen,
    TrailFull,
    NotBegun,
}

/// Why a call makes no step.
#[derive(Clone, Copy, Debug, PartialEq, Eq)]
pub enum CallError {
    NotBegun,
    Ended,
}

/// The result of a renewal: the tenant that there was, and a part of the ledger for each entry of the new trail.
pub struct Renewed<N: Naming> {
    pub old: Tenant,
    pub parts: Share<N>,
}

impl<N: Naming> Drop for Renewed<N> {
    fn drop(self) {
        let Self { old: _, parts: _ } = self;
    }
}

impl<N: Naming> Renewed<N> {
    /// The tenant, and the parts.
    pub fn into_parts(self) -> (Tenant, Share<N>)
        ensures old { result.0 ≡ self.old }
        ensures parts { result.1.parts ≡ self.parts.parts }
    {
        let Self { old, parts } = self;
        (old, parts)
    }
}

/// A renewal that wasn't done gives this back.
pub struct NotRenewed<N: Naming> {
    pub refused: Unrenewed,
    pub parts: Share<N>,
}

impl<N: Naming> Drop for NotRenewed<N> {
    fn drop(self) {
        let Self {
            refused: _,
            parts: _,
        } = self;
    }
}

impl<N: Naming> NotRenewed<N> {
    /// The tenant that the cell gave back, and the parts.
    pub fn into_parts(self) -> (Unrenewed, Share<N>)
        ensures refused { result.0 ≡ self.refused }
        ensures parts { result.1.parts ≡ self.parts.parts }
    {
        let Self { refused, parts } = self;
        (refused, parts)
    }
}

/// The value in the lock of the cell `FIRST`. To a contract it is the cell.
pub struct Desk<N: Naming, const FIRST: u32> {
    cell: Cell,
    share: Share<N>,
    seats: Vec<Option<SessionSeat>>,
}

impl<N: Naming, const FIRST: u32> Drop for Desk<N, FIRST> {
    fn drop(self) {
        let Self {
            cell: _,
            share: _,
            seats: _,
        } = self;
    }
}

impl<N: Naming, const FIRST: u32> Model for Desk<N, FIRST> {
    ghost use Rattle.sb_cell.specs.Tenants.{Cell};
    ghost use Rattle.sb_desk.specs.Kept.{IsDeskOf};

    ghost Value = { Cell };

    ghost view = { λ d. d.cell };

    ghost invariant = { λ d. IsDeskOf N.table N.tenants N.cells N.bound FIRST d.cell d.share.parts d.seats.items };
}

impl<N: Naming, const FIRST: u32> Desk<N, FIRST> {
    /// The desk of a new cell, with its whole share and the seats of all its sessions.
    pub fn new(cell: Cell, share: Share<N>, seats: Vec<Option<SessionSeat>>) -> Desk<N, FIRST>
        requires counts { (0 < N.cells) × (N.tenants ≤ 256) }
        requires new { IsNew FIRST N.cells N.tenants N.bound cell }
        requires whole { share.parts ≡ 2 ^ 32 }
        requires seats { AreDealt N.table FIRST (8 * ((N.tenants - 1) / N.cells + 1)) seats.items }
        ensures { result ≡ cell }
    {
        // for the proof: its number is below how many cells there are
        cell.keeps_trails();
        Desk { cell, share, seats }
    }

    /// The cell.
    pub fn cell(&self) -> &Cell
        ensures same { result.now ≡ self.now }
        ensures bound { (self.now).bound ≡ N.bound }
        ensures hosts { (t : ℕ) → hosts self.now t ≡ ((t % N.cells == FIRST) && nat_lt t N.tenants) }
    {
        &self.cell
    }

    /// Lets each of its tenants take so many bytes (`Tenant::limit_memory`).
    pub fn limit_memory(&mut self, bytes: u64)
        ensures { self.new ≡ self.old }
    {
        self.cell.limit_memory(bytes);
    }

    /// The cell alone, which is the one of this number in this host.
    pub fn into_cell(self) -> Cell
        ensures same { result ≡ self }
        ensures of { (self.first ≡ FIRST) × (self.stride ≡ N.cells) × (self.bound ≡ N.bound) }
        ensures hosts { (t : ℕ) → hosts self t ≡ ((t % N.cells == FIRST) && nat_lt t N.tenants) }
    {
        let Self {
            cell,
            share: _,
            seats: _,
        } = self;
        cell
    }

    /// Makes the step `open` of a closed session, where the trail isn't full. Error: AlreadyOpen, TrailFull or
    /// NotBegun; nothing changes.
    pub fn admit(
        &mut self,
        alloc: Global,
        tenant: u32,
        session: SessionId,
        cells: u32,
    ) -> Result<Receipts<N>, AttachError>
        requires cells { cells ≡ N.cells }
        requires hosts { (tenant < N.tenants) × (tenant % N.cells ≡ FIRST) }
        ensures ok { IfOk result (λ r. Admits self.old tenant session self.new r) }
        ensures err { IfErr result (λ e. RefusesRightly self.old tenant session e self.new) }
        ensures hosted { hosts self.old tenant ≡ true }
    {
        // for the proof: it is one of the tenant's sessions
        let _number = session.number();
        if self.cell.is_open(tenant, session) {
            return Err(AttachError::AlreadyOpen);
        }
        if self.cell.is_full(tenant) {
            return Err(AttachError::TrailFull);
        }
        let Ok(room) = Room::new(alloc) else {
            return Err(AttachError::NotBegun);
        };
        let Ok(answer) = self.cell.open(alloc, tenant, session) else {
            return Err(AttachError::NotBegun);
        };
        // for the proof: the new entry opens or closes its session and no other, and the trails are legal
        entries_open_and_close();
        self.cell.keeps_trails();
        let Some(number) = answer.number else {
            unreachable!()
        };
        let share = self.share.split_off(1, 0);
        let at = seat_place(tenant, session, cells);
        let Some(seat) = self.seats[at].take() else {
            unreachable!()
        };
        Ok(room.opened(tenant, session, share, seat, number))
    }

    /// Makes the one step of the line that is ready. Error: Ended behind an `end`, or NotBegun where there is no
    /// memory; nothing changes.
    pub fn enter(
        &mut self,
        alloc: Global,
        r: &mut Receipts<N>,
        table: &SeatTable,
        cells: u32,
    ) -> Result<(), CallError>
        requires cells { cells ≡ N.cells }
        requires own { r.old.tenant % N.cells ≡ FIRST }
        requires table { (table.now.table_id ≡ N.table) × (N.table.words ≡ 1) }
        requires ready { r.old.ended ≡ false → IsSome r.old.ready }
        ensures ok { OnOk result (Enters self.old r.old self.new r.new) }
        ensures err { IfErr result (λ e. Refuses self.old r.old e self.new r.new) }
    {
        if r.ended() {
            return Err(CallError::Ended);
        }
        self.find_open(r, table, cells);
        let tenant = r.tenant();
        let session = r.session();
        let Some(line) = r.ready() else {
            unreachable!()
        };
        let Ok(answer) = self
            .cell
            .step_line(alloc, tenant, session.number() as u32, line)
        else {
            return Err(CallError::NotBegun);
        };
        // for the proof: the new entry opens or closes its session and no other, and the trails are legal
        entries_open_and_close();
        self.cell.keeps_trails();
        let has_transaction = self.cell.has_transaction(tenant, session);
        if answer.number.is_none() {
            r.tell(answer, has_transaction);
            return Ok(());
        }
        r.note(&mut self.share, answer, has_transaction);
        if !self.cell.is_open(tenant, session) {
            let at = seat_place(tenant, session, cells);
            self.seats[at] = Some(r.give_up_seat());
        }
        Ok(())
    }

    /// Makes the step `end`, unless the session has ended.
    pub fn leave(&mut self, r: &mut Receipts<N>, table: &SeatTable, cells: u32)
        requires cells { cells ≡ N.cells }
        requires own { r.old.tenant % N.cells ≡ FIRST }
        requires table { (table.now.table_id ≡ N.table) × (N.table.words ≡ 1) }
        ensures ended { r.old.ended ≡ true → (self.new ≡ self.old) × (r.new ≡ r.old) }
        ensures left { r.old.ended ≡ false → Leaves self.old r.old self.new r.new }
    {
        if r.ended() {
            return;
        }
        self.find_open(r, table, cells);
        let tenant = r.tenant();
        let session = r.session();
        let answer = self.cell.end(tenant, session);
        // for the proof: the new entry opens or closes its session and no other, and the trails are legal
        entries_open_and_close();
        self.cell.keeps_trails();
        let Some(number) = answer.number else {
            unreachable!()
        };
        let at = seat_place(tenant, session, cells);
        self.seats[at] = Some(r.note_end(&mut self.share, number));
    }

    /// Renews the tenant of the fresh one's number (`Cell::renew`). It takes a part of the ledger for each entry of the
    /// old trail.
    pub fn renew(
        &mut self,
        alloc: Global,
        fresh: Tenant,
        parts: Share<N>,
    ) -> Result<Renewed<N>, NotRenewed<N>>
        requires { parts.parts ≡ length (trails self.old fresh.id) }
        ensures ok { IfOk result (λ r. Renews self.old r.old fresh self.new × (r.parts.parts ≡ length fresh.trail)) }
        ensures err { IfErr result (λ e. (self.new ≡ self.old) × (e.refused.fresh ≡ fresh)
            × IsNotRenewed self.old fresh e.refused.error × (e.parts.parts ≡ parts.parts)) }
    {
        let entries = fresh.trail().len() as u64;
        match self.cell.renew(alloc, fresh) {
            Ok(old) => {
                // for the proof: its trails have few entries
                self.cell.keeps_trails();
                self.share.merge(parts);
                let parts = self.share.split_off(entries, 0);
                Ok(Renewed { old, parts })
            }
            Err(refused) => Err(NotRenewed { refused, parts }),
        }
    }

    /// For the proof: a session that holds its seat is open, or the desk would have a second one.
    fn find_open(&mut self, r: &mut Receipts<N>, table: &SeatTable, cells: u32)
        requires cells { cells ≡ N.cells }
        requires own { r.old.tenant % N.cells ≡ FIRST }
        requires table { (table.now.table_id ≡ N.table) × (N.table.words ≡ 1) }
        requires not_ended { r.old.ended ≡ false }
        ensures same { (self.new ≡ self.old) × (r.new ≡ r.old) }
        ensures open { open_in self.old r.old.tenant r.old.session ≡ true }
        ensures hosted { hosts self.old r.old.tenant ≡ true }
    {
        let tenant = r.tenant();
        let session = r.session();
        if self.cell.is_open(tenant, session) {
            return;
        }
        let at = seat_place(tenant, session, cells);
        let mine = r.give_up_seat();
        let Some(theirs) = self.seats[at].take() else {
            unreachable!()
        };
        let number = 2_048 * (tenant % cells) + at as u32;
        differ(table, mine, theirs, number as usize);
        unreachable!()
    }
}

/// The place of a session's seat in a desk.
fn seat_place(tenant: u32, session: SessionId, cells: u32) -> usize
    requires { (0 < cells) × (tenant < 256) }
    ensures { result ≡ 8 * (tenant / cells) + session }
{
    (tenant / cells) as usize * SESSION_LIMIT + session.index()
}
