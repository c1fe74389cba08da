//! All tables of a tenant.
ghost use Rattle.std.specs.Map.Iter.{deref_pair};
ghost use Rattle.std.specs.Prelude.{◌≡◌, ◌≢◌, ◌+◌, ◌^◌, ◌-◌, ◌<◌, ◌≤◌, ◌↔◌, ℕ, [], slice_get, length, Contains, IsTrue, IsFalse, IsSome, IsOk, IsErr, IfOk, OnOk, OnErr, option_map, Some};
ghost use Rattle.std.specs.Borrow.{Lends, sem};
ghost use Rattle.std.specs.Option.{option_copied};
ghost use Rattle.sb_tables.specs.contracts.table.Table as table;
ghost use Rattle.sb_tables.specs.contracts.tables.Tables.{the_row};
ghost use Rattle.sb_value.specs.Table.{Table as Definition, row_at};
ghost use Rattle.sb_tables.specs.Held as spec;
ghost use Rattle.sb_tables.specs.Held.{named, numbered, has_name, has_number, stored_at, NamesAgreeWithNumbers, with_table, without_table, with_stored, reserved, inserted, deleted, replaced, settled};
ghost use Rattle.sb_tables.specs.Undo.{AreUndone, IsNewest};

use crate::slots::Slots;
use crate::table::{Table, TooManyRows};
use indexmap::IndexMap;
use sb_value::{Change, ColumnDefinition, Name, Row, TABLE_LIMIT, TableId};
use std::alloc::{AllocError, Global};
use std::marker::Model;

/// The tables in order of creation, found by name or by number in constant time.
pub struct Tables {
    numbers: IndexMap<Name, TableId>,
    slots: Slots,
    alloc: Global,
}

impl Drop for Tables {
    fn drop(self) {
        let Self {
            numbers: _,
            slots: _,
            alloc: _,
        } = self;
    }
}

impl Model for Tables {
    ghost use Rattle.std.specs.Prelude.{List, map};
    ghost use Rattle.sb_tables.specs.Held.{Held};
    ghost use Rattle.sb_tables.specs.Filled.{held_in, AreFilled};

    ghost Value = { List Held };

    ghost view = { λ t. map (held_in t.slots) t.numbers.entries };

    ghost invariant = { λ t. AreFilled t.numbers.entries t.slots };
}

impl Tables {
    /// No tables.
    pub fn new(alloc: Global) -> Tables
        ensures { result ≡ [] }
    {
        Tables {
            numbers: IndexMap::new(alloc),
            slots: Slots::new(alloc),
            alloc,
        }
    }

    /// The number of tables.
    pub fn len(&self) -> usize
        ensures { result ≡ length self.now }
    {
        self.numbers.len()
    }

    /// The number of the table of that name.
    pub fn find(&self, name: &Name) -> Option<TableId>
        ensures { result ≡ option_map (λ h. h.id) (named self.now name.now) }
    {
        self.numbers.get(name).copied()
    }

    /// The name of the table of that number.
    pub fn name(&self, id: TableId) -> Option<&Name>
        ensures { option_copied result ≡ option_map (λ h. h.name) (numbered self.now id) }
    {
        for place in 0..self.numbers.len() {
            let (name, number) = self.numbers.get_index(place).unwrap();
            if *number == id {
                return Some(name);
            }
        }
        None
    }

    /// The table of that number.
    pub fn get(&self, id: TableId) -> Option<&Table>
        ensures { option_copied result ≡ option_map (λ h. h.stored) (numbered self.now id) }
    {
        self.slots.get(id)
    }

    /// The table of that name.
    pub fn by_name(&self, name: &Name) -> Option<&Table>
        ensures { option_copied result ≡ option_map (λ h. h.stored) (named self.now name.now) }
    {
        match self.numbers.get(name) {
            Some(id) => self.slots.get(*id),
            None => None,
        }
    }

    /// The name and the number of the table at that place in the order of creation.
    pub fn at(&self, place: usize) -> Option<(&Name, &TableId)>
        ensures { option_map deref_pair result ≡ option_map (λ h. (h.name, h.id)) (slice_get self.now place) }
    {
        self.numbers.get_index(place)
    }

    /// The table at that place.
    pub fn table_at(&self, place: usize) -> Option<&Table>
        ensures { option_copied result ≡ option_map (λ h. h.stored) (slice_get self.now place) }
    {
        match self.numbers.get_index(place) {
            Some((_, id)) => self.slots.get(*id),
            None => None,
        }
    }

    /// A name leads to the same table as its number.
    pub fn names_agree(&self)
        ensures { NamesAgreeWithNumbers self.now }
    {
        // for the proof: the slots that hold a table are those of the numbers that a name has
        let _ = &self.slots;
    }

    /// Adds a table, which has the least free number, as the last. Error: out of memory.
    pub fn create(
        &mut self,
        name: Name,
        columns: Vec<ColumnDefinition>,
    ) -> Result<TableId, AllocError>
        requires new_name { IsFalse (has_name self.old name) }
        requires room { length self.old < 16 }
        ensures added { IfOk result (λ id. self.new ≡ with_table self.old id name columns.items) }
        ensures free { IfOk result (λ id. IsFalse (has_number self.old id)) }
        ensures least { IfOk result (λ id. (k : ℕ) → k < id → IsTrue (has_number self.old k)) }
        ensures unchanged { OnErr result (self.new ≡ self.old) }
    {
        let id = TableId::new(self.slots.least_free() as u8);
        self.slots.fill(id, Table::new(self.alloc, columns))?;
        match self.numbers.insert(name, id) {
            Ok(_) => Ok(id),
            Err(_) => {
                self.slots.clear(id);
                Err(AllocError)
            }
        }
    }

    /// Drops the table of that number.
    pub fn drop_table(&mut self, id: TableId)
        ensures { self.new ≡ without_table id self.old }
    {
        self.numbers.retain(|_, number| *number != id);
        self.slots.clear(id);
    }

    /// Makes room for that many more rows of the table, where there is less. Error: out of memory.
    pub fn reserve(&mut self, id: TableId, more: usize) -> Result<(), AllocError>
        requires { IsTrue (has_number self.old id) }
        ensures ok { OnOk result (self.new ≡ with_stored id (reserved more (stored_at self.old id)) self.old) }
        ensures err { OnErr result (self.new ≡ self.old) }

        // Room that is there already needs no memory.
        ensures succeeds { more ≤ (stored_at self.old id).room → IsOk result }
    {
        self.get_mut(id).reserve(more)
    }

    /// Adds a row to the table under the next number, and gives that number. Error: the table has 4,096 rows; nothing
    /// changes.
    pub fn insert(&mut self, id: TableId, row: Row) -> Result<u64, TooManyRows>
        requires there { IsTrue (has_number self.old id) }
        requires room { 0 < (stored_at self.old id).room }
        requires numbers { (stored_at self.old id).table.next < 2 ^ 64 - 1 }
        ensures full { IsErr result ↔ (4096 ≤ length (stored_at self.old id).table.rows) }
        ensures number { IfOk result (λ tuple. tuple ≡ (stored_at self.old id).table.next) }
        ensures ok { OnOk result (self.new ≡ with_stored id (inserted row (stored_at self.old id)) self.old) }
        ensures err { OnErr result (self.new ≡ self.old) }
    {
        self.get_mut(id).insert(row)
    }

    /// Deletes a row of the table. Its place stays until the table is settled.
    pub fn mark_deleted(&mut self, id: TableId, tuple: u64)
        requires there { IsTrue (has_number self.old id) }
        requires row { IsSome (row_at (stored_at self.old id).table tuple) }
        ensures { self.new ≡ with_stored id (deleted tuple (stored_at self.old id)) self.old }
    {
        self.get_mut(id).mark_deleted(tuple);
    }

    /// Puts a row of the table in place of the one of that number, which it gives back.
    pub fn replace(&mut self, id: TableId, tuple: u64, row: Row) -> Row
        requires there { IsTrue (has_number self.old id) }
        requires row { IsSome (row_at (stored_at self.old id).table tuple) }
        ensures old { row_at (stored_at self.old id).table tuple ≡ Some result }
        ensures new { self.new ≡ with_stored id (replaced tuple row (stored_at self.old id)) self.old }
    {
        self.get_mut(id).replace(tuple, row)
    }

    /// Undoes the newest change of a table: gives the table before it.
    pub fn undo(&mut self, change: Change)
        requires there { IsTrue (has_number self.old change.table) }
        requires newest { IsNewest change (stored_at self.old change.table).table }
        requires kept { Contains (stored_at self.old change.table).places change.tuple }
        ensures { AreUndone change self.old self.new }
    {
        self.get_mut(change.table).undo(change);
    }

    /// Drops the deleted rows of the table for good.
    pub fn settle(&mut self, id: TableId)
        requires { IsTrue (has_number self.old id) }
        ensures { self.new ≡ with_stored id (settled (stored_at self.old id)) self.old }
    {
        self.get_mut(id).settle();
    }

    /// The table of that number, to be changed.
    fn get_mut(&mut self, id: TableId) -> &mut Table
        requires { IsTrue (has_number self.old id) }
        ensures* lends { sem 𝓛 (Lends the_row table.the_row self.entry result (λ t. with_stored id t self.old)) }
        ensures value { result.now ≡ stored_at self.old id }
        ensures same { self.old ≡ with_stored id (stored_at self.old id) self.old }
    {
        self.slots.get_mut(id)
    }
}
