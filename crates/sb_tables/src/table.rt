//! A table of rows, with undo.
ghost use Rattle.std.specs.Prelude.{◌≡◌, ◌+◌, ◌-◌, ◌^◌, ◌<◌, ◌≤◌, ◌↔◌, [], ◌∷◌, ◌++◌, length, map, max, Contains, IsSome, IsOk, IsErr, IfOk, OnOk, OnErr, Ok, Some, List};
ghost use Rattle.sb_value.specs.Table.{Table as Definition, empty_table, row_at};

use crate::rows::Rows;
use crate::slot::{Slot, place_of};
use sb_value::{Change, ChangeKind, ColumnDefinition, Row};
use std::alloc::{AllocError, Global};
use std::marker::Model;
use std::mem;

/// The most rows that a table has.
pub const ROW_LIMIT: usize = 4096;

/// The table has as many rows as a table can have.
#[derive(Clone, Copy, Debug, PartialEq, Eq)]
pub struct TooManyRows;

/// A table: its columns, its rows in rising number, and the number of the next row.
pub struct Table {
    columns: Vec<ColumnDefinition>,
    slots: Vec<Slot>,
    deleted: usize,
    next: u64,
    room: usize,
}

impl Drop for Table {
    fn drop(self) {
        let Self {
            columns: _,
            slots: _,
            deleted: _,
            next: _,
            room: _,
        } = self;
    }
}

impl Model for Table {
    ghost use Rattle.std.specs.Prelude.{vec_capacity};
    ghost use Rattle.sb_tables.specs.Stored.{Stored};

    ghost Value = { Stored };

    ghost use Rattle.sb_tables.specs.Slots.{live_rows, numbers, AreSound};

    ghost view = { λ t. record { table = record { columns = t.columns.items; rows = live_rows t.slots.items; next = t.next }; places = numbers t.slots.items; room = t.room } };

    ghost invariant = { λ t. AreSound t.slots.items t.deleted t.next t.room (vec_capacity t.slots) };
}

impl Table {
    ghost use Rattle.sb_tables.specs.Held.{inserted};
    ghost use Rattle.sb_tables.specs.Rising.{IsPlace};
    ghost use Rattle.sb_tables.specs.Stored.{Stored, IsStored, IsWithoutLast, with_row, without_row, with_row_at, with_row_put};
    ghost use Rattle.sb_tables.specs.Stored.{numbers_of};
    ghost use Rattle.sb_value.specs.declared.value.Value.{Value as Item};
    ghost use Rattle.sb_tables.specs.Undo.{IsBefore, IsNewest, places_after, room_before};

    /// A table with these columns and no row.
    pub fn new(alloc: Global, columns: Vec<ColumnDefinition>) -> Table
        ensures { result ≡ record { table = empty_table columns.items; places = []; room = 0 } }
    {
        Table {
            columns,
            slots: Vec::new(alloc),
            deleted: 0,
            next: 1,
            room: 0,
        }
    }

    /// Its columns.
    pub fn columns(&self) -> &[ColumnDefinition]
        ensures { result.now ≡ self.now.table.columns }
    {
        self.columns.as_slice()
    }

    /// The number that the next row gets.
    pub fn next(&self) -> u64
        ensures value { result ≡ self.now.table.next }
        ensures sound { IsStored self.now }
    {
        self.next
    }

    /// The number of its rows.
    pub fn len(&self) -> usize
        ensures { result ≡ length self.now.table.rows }
    {
        self.slots.len() - self.deleted
    }

    /// Its rows with their numbers, in rising number.
    pub fn rows(&self) -> Rows<'_>
        ensures { result ≡ self.now.table.rows }
    {
        Rows {
            slots: self.slots.as_slice(),
        }
    }

    /// For how many more rows there is room.
    pub fn spare(&self) -> usize
        ensures { result ≡ self.now.room }
    {
        self.room
    }

    /// Makes room for that many more rows, where there is less. Error: out of memory.
    pub fn reserve(&mut self, more: usize) -> Result<(), AllocError>
        ensures ok { OnOk result (self.new ≡ record self.old { room = max self.old.room more }) }
        ensures err { OnErr result (self.new ≡ self.old) }

        // Room that is there already needs no memory.
        ensures succeeds { more ≤ self.old.room → IsOk result }
    {
        if more > self.room {
            self.slots.reserve(more)?;
            self.room = more;
        }
        Ok(())
    }

    /// Adds a row under the next number, and gives that number. Error: the table has 4,096 rows; nothing changes.
    pub fn insert(&mut self, row: Row) -> Result<u64, TooManyRows>
        requires room { 0 < self.old.room }
        requires numbers { self.old.table.next < 2 ^ 64 - 1 }
        ensures full { IsErr result ↔ (4096 ≤ length self.old.table.rows) }
        ensures ok { IfOk result (λ tuple. (tuple ≡ self.old.table.next) × (self.new ≡ inserted row self.old)) }
        ensures err { OnErr result (self.new ≡ self.old) }
    {
        if self.slots.len() - self.deleted >= ROW_LIMIT {
            return Err(TooManyRows);
        }
        let number = self.next;
        // The place is reserved, so this needs no memory.
        let _ = self.slots.push(Slot {
            number,
            row,
            live: true,
        });
        self.next += 1;
        self.room -= 1;
        Ok(number)
    }

    /// The place of a row.
    fn place(&self, tuple: u64) -> usize
        requires { IsSome (row_at self.now.table tuple) }
        ensures { IsPlace tuple self.now.places result }
    {
        place_of(self.slots.as_slice(), tuple)
    }

    /// Deletes a row. Its place stays until the table is settled.
    pub fn mark_deleted(&mut self, tuple: u64)
        requires { IsSome (row_at self.old.table tuple) }
        ensures { self.new ≡ record self.old { table = without_row tuple self.old.table } }
    {
        let place = self.place(tuple);
        self.slots[place].live = false;
        self.deleted += 1;
    }

    /// Puts a row in place of the one of that number, which it gives back.
    pub fn replace(&mut self, tuple: u64, row: Row) -> Row
        requires { IsSome (row_at self.old.table tuple) }
        ensures old { row_at self.old.table tuple ≡ Some result }
        ensures new { self.new ≡ record self.old { table = with_row_at tuple row self.old.table } }
    {
        let place = self.place(tuple);
        mem::replace(&mut self.slots[place].row, row)
    }

    /// Undoes the table's newest change: gives the table before it.
    pub fn undo(&mut self, change: Change)
        requires newest { IsNewest change self.old.table }
        requires kept { Contains self.old.places change.tuple }
        ensures table { (before : Definition) → IsBefore change self.old.table before → self.new.table ≡ before }
        ensures places { self.old.places ≡ places_after change.kind change.tuple self.new.places }
        ensures room { self.new.room ≡ room_before change.kind self.old.room }
    {
        match change.kind {
            ChangeKind::Inserted => self.drop_last(),
            ChangeKind::Deleted | ChangeKind::Updated => {
                self.put_back(change.tuple, change.old.unwrap());
            }
        }
    }

    /// Drops the deleted rows for good.
    pub fn settle(&mut self)
        ensures { self.new ≡ record self.old { places = numbers_of self.old.table.rows } }
    {
        if self.deleted > 0 {
            self.slots.retain(|slot| slot.live);
            self.deleted = 0;
        }
    }

    /// Drops the row that was inserted last. Its place is reserved again.
    fn drop_last(&mut self)
        requires { (before : Definition) × (row : List Item) × (with_row row before ≡ self.old.table) }
        ensures table { IsWithoutLast self.old.table self.new.table }
        ensures places { self.old.places ≡ self.new.places ++ self.new.table.next ∷ [] }
        ensures room { self.new.room ≡ self.old.room + 1 }
    {
        let _ = self.slots.pop();
        self.next -= 1;
        self.room += 1;
    }

    /// Puts a row under a number that has a place.
    fn put_back(&mut self, tuple: u64, row: Row)
        requires { Contains self.old.places tuple }
        ensures { self.new ≡ record self.old { table = with_row_put tuple row self.old.table } }
    {
        let place = place_of(self.slots.as_slice(), tuple);
        if !self.slots[place].live {
            self.deleted -= 1;
        }
        self.slots[place] = Slot {
            number: tuple,
            row,
            live: true,
        };
    }
}
