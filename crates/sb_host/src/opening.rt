//! A host is opened in two steps: its parts, whose names nobody knows yet, and then the host, whose
//! type has the names.
ghost use Rattle.std.specs.Prelude.{◌≡◌, ◌+◌, ◌-◌, ◌*◌, ◌/◌, ◌<◌, ◌≤◌, ◌^◌, [], true, IsSome, IfOk};
ghost use Rattle.sb_desk.specs.Kept.{AreDealt};
ghost use Rattle.sb_host.specs.Opening.{AreNames, IsSeatOf, MayBe, left_at, left_in};

use crate::closed_parts::ClosedParts;
use crate::host::Host;
use crate::lock_group::LockGroup;
use crate::locks::Lock;
use crossbeam_utils::CachePadded;
use sb_cell::{Cell, ample_buckets};
use sb_desk::seats::{SeatTable, Seats, SessionSeat, open_seats, split, split_block};
use sb_desk::{Desk, Naming};
use sb_tenant::Bound;
use std::alloc::{AllocError, Global};
use std::marker::Model;
use std::sync::Mutex;
use std::sync::ledger::{Blank, Share};

/// A cell's share of the ledger is this, and one part for each of its entries goes to a session.
const CELL_PARTS: u64 = 1 << 32;

/// The numbers of a host.
#[derive(Clone, Copy)]
pub(crate) struct HostSize {
    pub(crate) tenants: u32,
    pub(crate) cells: u32,
    pub(crate) bound: Bound,
}

/// The parts of a host.
#[derive(Drop)]
pub struct Opened {
    numbers: HostSize,
    seats: Seats,
    all: SessionSeat,
    blank: Blank,
}

impl Model for Opened {
    ghost use Rattle.sb_host.specs.Opening.{Opened};
    ghost use Rattle.sb_host.specs.Parts.{seen, AreParts};

    ghost Value = { Opened };

    ghost view = { seen };

    ghost invariant = { AreParts };
}

impl Opened {
    /// The parts of a host with so many tenants and cells, and with `bound` as the tenants' consideration limit. Error:
    /// out of memory.
    pub fn new(alloc: Global, tenants: u32, cells: u32, bound: Bound) -> Result<Opened, AllocError>
        requires tenants { (0 < tenants) × (tenants ≤ 256) }
        requires cells { (0 < cells) × (cells ≤ 16) }
        requires bound { bound.considerations ≤ 1000 }
        ensures { IfOk result (λ o. (o.tenants ≡ tenants) × (o.cells ≡ cells) × (o.bound ≡ bound)) }
    {
        let (seats, all) = open_seats(alloc, 32_768)?;
        Ok(Opened {
            numbers: HostSize {
                tenants,
                cells,
                bound,
            },
            seats,
            all,
            blank: Blank::new(17 * CELL_PARTS),
        })
    }
}

/// Deals the first seats of a cell.
fn deal(
    alloc: Global,
    table: &SeatTable,
    block: &mut SessionSeat,
    cell: u32,
    count: usize,
) -> Result<Vec<Option<SessionSeat>>, AllocError>
    requires table { (block.old.table_id ≡ table.now.table_id) × (table.now.table_id.words ≡ 1) }
    requires few { (count ≤ 2048) × (cell < 16) }
    requires block { block.old.me ≡ (left_in cell 0, []) }
    ensures { IfOk result (λ seats. AreDealt table.now.table_id cell count seats.items) }
{
    let mut seats = Vec::new(alloc);
    for _at in 0..count {
        seats.push(Some(split(table, block)))?;
    }
    Ok(seats)
}

/// The cell's part of the numbers and of the ledger.
fn cut_part<N: Naming, const F: u32>(
    table: &SeatTable,
    all: &mut SessionSeat,
    rest: &mut Share<N>,
) -> (SessionSeat, Share<N>)
    requires table { (all.old.table_id ≡ table.now.table_id) × (table.now.table_id.words ≡ 1) }
    requires cell { F < 16 }
    requires all { all.old.me ≡ (left_at F, []) }
    requires rest { (rest.old.parts ≡ (17 - F) * 2 ^ 32) × (rest.old.amount ≡ 0) }
    ensures table { (all.new.table_id ≡ all.old.table_id) × (result.0.table_id ≡ table.now.table_id) }
    ensures all { all.new.me ≡ (left_at (F + 1), []) }
    ensures rest { (rest.new.parts ≡ (17 - (F + 1)) * 2 ^ 32) × (rest.new.amount ≡ 0) }
    ensures block { result.0.me ≡ (left_in F 0, []) }
    ensures share { result.1.parts ≡ 2 ^ 32 }
{
    let block = split_block(table, all);
    let share = rest.split_off(CELL_PARTS, 0);
    (block, share)
}

/// The desk of the cell `F`, of its part of the numbers and of the ledger.
fn desk_of<N: Naming, const F: u32>(
    alloc: Global,
    table: &SeatTable,
    mut block: SessionSeat,
    share: Share<N>,
    numbers: HostSize,
) -> Result<Desk<N, F>, AllocError>
    requires table { IsSeatOf N.table table.now.table_id block }
    requires cell { F < numbers.cells }
    requires numbers { MayBe numbers }
    requires named { (N.tenants ≡ numbers.tenants) × (N.cells ≡ numbers.cells) × (N.bound ≡ numbers.bound) }
    requires block { block.me ≡ (left_in F 0, []) }
    requires share { share.parts ≡ 2 ^ 32 }
{
    let HostSize {
        tenants,
        cells,
        bound,
    } = numbers;
    let cell = Cell::with_buckets(alloc, F, cells, tenants, bound, ample_buckets(tenants))?;
    let places = (tenants - 1) / cells + 1;
    let seats = deal(alloc, table, &mut block, F, 8 * places as usize)?;
    Ok(Desk::new(cell, share, seats))
}

/// The lock of the cell `F`, if the host has it and memory was there for this cell and all before it. Its part of the
/// numbers and of the ledger goes in every case.
pub(crate) fn open_desk<N: Naming, const F: u32>(
    alloc: Global,
    table: &SeatTable,
    all: &mut SessionSeat,
    rest: &mut Share<N>,
    numbers: HostSize,
    well: &mut bool,
) -> Lock<N, F>
    requires table { IsSeatOf N.table table.now.table_id all.old }
    requires cell { F < 16 }
    requires numbers { MayBe numbers }
    requires named { (N.tenants ≡ numbers.tenants) × (N.cells ≡ numbers.cells) × (N.bound ≡ numbers.bound) }
    requires all { all.old.me ≡ (left_at F, []) }
    requires rest { (rest.old.parts ≡ (17 - F) * 2 ^ 32) × (rest.old.amount ≡ 0) }
    ensures table { all.new.table_id ≡ all.old.table_id }
    ensures all { all.new.me ≡ (left_at (F + 1), []) }
    ensures rest { (rest.new.parts ≡ (17 - (F + 1)) * 2 ^ 32) × (rest.new.amount ≡ 0) }
    ensures well { well.new ≡ true → well.old ≡ true }
    ensures there { F < numbers.cells → well.new ≡ true → IsSome result }
{
    let (block, share) = cut_part::<N, F>(table, all, rest);
    if F >= numbers.cells || !*well {
        return None;
    }
    match desk_of(alloc, table, block, share, numbers) {
        Ok(desk) => Some(CachePadded::new(Mutex::new(desk))),
        Err(_) => {
            *well = false;
            None
        }
    }
}

impl<N: Naming> Host<N> {
    /// The host of these parts, which the type names. Error: out of memory.
    pub fn new(alloc: Global, opened: Opened) -> Result<Host<N>, AllocError>
        requires { AreNames N.table N.tenants N.cells N.bound N.name N.parts opened }
        ensures { IfOk result (λ host. host ≡ opened.tenants) }
    {
        let Opened {
            numbers,
            seats,
            mut all,
            blank,
        } = opened;
        let (_book, mut rest) = blank.open::<N>();
        let table = &seats.shared;
        let first = LockGroup::<N, 0, 1, 2, 3>::open(alloc, table, &mut all, &mut rest, numbers)?;
        let second = LockGroup::<N, 4, 5, 6, 7>::open(alloc, table, &mut all, &mut rest, numbers)?;
        let third = LockGroup::<N, 8, 9, 10, 11>::open(alloc, table, &mut all, &mut rest, numbers)?;
        let fourth = LockGroup::<N, 12, 13, 14, 15>::open(
            alloc, table, &mut all, &mut rest, numbers,
        )?;
        let closed_parts = ClosedParts::new(alloc, numbers.tenants, &mut rest)?;
        let mut watches = Vec::new(alloc);
        first.watch(&mut watches)?;
        second.watch(&mut watches)?;
        third.watch(&mut watches)?;
        fourth.watch(&mut watches)?;
        Ok(Host {
            tenants: numbers.tenants,
            cells: numbers.cells,
            seats,
            closed_parts,
            first,
            second,
            third,
            fourth,
            watches,
        })
    }
}
