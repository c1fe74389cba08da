//! The seats of a host's sessions: a table of one word, which never changes. A seat knows a list of
//! numbers, and no number stands twice in all lists together.
ghost use Rattle.std.specs.Prelude.{◌≡◌, ◌+◌, ◌<◌, [], ◌∷◌, ◌++◌, IfOk, true, false};
ghost use Rattle.sb_desk.specs.Seats.{first_of, rest_of, block_of, past_block, NoneTwice, below, IsSeat, IsSeatOfAll, SplitsOff};

use atomic_table::{Join, Play, Seat, Shared, Split, Table, TableRule};
use std::alloc::{AllocError, Global};
use std::collections::LinkedList;

/// The knowledge of a seat: numbers of sessions. No value of it is made.
pub type Numbers = LinkedList<u64>;

/// No number stands twice.
pub struct OnceEach;

impl TableRule<(), Numbers, usize> for OnceEach {
    ghost holds = { λ _ s. NoneTwice s.views };

    ghost first = { below };
}

/// The seat of the first number is split off.
pub struct Cut;

impl Split<Numbers> for Cut {
    ghost left = { rest_of };

    ghost right = { first_of };
}

/// The seat of a cell's numbers is split off.
pub struct CutBlock;

impl Split<Numbers> for CutBlock {
    ghost left = { past_block };

    ghost right = { block_of };
}

/// Two seats become one.
pub struct Both;

impl Join<Numbers> for Both {
    ghost both = { λ v w. v ++ w };

    ghost spent = { [] };
}

/// A load tells that no number of the seat's list stands twice.
pub struct Looks;

impl Play<(), Numbers> for Looks {
    ghost then = { λ _ me _ after. (after ≡ me) × NoneTwice (me.0 ∷ []) };
}

/// The seat of a session, or of several.
pub type SessionSeat = Seat<(), Numbers>;

/// The value that all seats share.
pub type SeatTable = Shared<(), Numbers, usize, OnceEach>;

/// The table with its word.
pub type Seats = Table<(), Numbers, usize, OnceEach, Global>;

/// The table, with the seat of all numbers below `count`. Error: out of memory.
pub fn open_seats(alloc: Global, count: usize) -> Result<(Seats, SessionSeat), AllocError>
    ensures { IfOk result (λ t. IsSeatOfAll count t.0.shared.table_id t.1) }
{
    Seats::of_words(alloc, &[0], &count)
}

/// Splits off the seat of the first number.
pub fn split(table: &SeatTable, all: &mut SessionSeat) -> SessionSeat
    requires { (all.old.table_id ≡ table.now.table_id) × (table.now.table_id.words ≡ 1) }
    ensures { SplitsOff rest_of first_of all.old all.new result }
{
    table.split_seat::<Cut>(all)
}

/// Splits off the seat of the numbers of one cell.
pub fn split_block(table: &SeatTable, all: &mut SessionSeat) -> SessionSeat
    requires { (all.old.table_id ≡ table.now.table_id) × (table.now.table_id.words ≡ 1) }
    ensures { SplitsOff past_block block_of all.old all.new result }
{
    table.split_seat::<CutBlock>(all)
}

/// Two seats of one session can't be.
pub fn differ(table: &SeatTable, mut one: SessionSeat, other: SessionSeat, number: usize)
    requires words { table.now.table_id.words ≡ 1 }
    requires one { IsSeat table.now.table_id number one }
    requires other { IsSeat table.now.table_id number other }
    ensures { true ≡ false }
{
    table.join_seat::<Both>(&mut one, other);
    table.load::<Looks>(&mut one, 0);
}
