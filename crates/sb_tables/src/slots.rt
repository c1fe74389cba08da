//! Tables by number.
ghost use Rattle.std.specs.Prelude.{◌≡◌, ◌<◌, ◌≤◌, ◌==◌, ℕ, [], if◌then◌else◌, length, slice_set, IsSome, OnOk, OnErr, None, Some};
ghost use Rattle.std.specs.Borrow.{Lends, sem};
ghost use Rattle.sb_tables.specs.contracts.slots.Slots.{the_row};
ghost use Rattle.sb_tables.specs.contracts.table.Table as table;
ghost use Rattle.std.specs.Option.{option_copied};
ghost use Rattle.sb_tables.specs.Filled.{slot_at, with_slot};

use crate::table::Table;
use sb_value::TableId;
use std::alloc::{AllocError, Global};
use std::marker::Model;

/// A slot for each number up to the greatest that a table ever had.
pub(crate) struct Slots {
    tables: Vec<Option<Table>>,
}

impl Drop for Slots {
    fn drop(self) {
        let Self { tables: _ } = self;
    }
}

impl Model for Slots {
    ghost use Rattle.std.specs.Prelude.{List, Option};
    ghost use Rattle.sb_tables.specs.Stored.{Stored};

    ghost Value = { List (Option Stored) };

    ghost view = { λ s. s.tables.items };
}

impl Slots {
    /// No table.
    pub(crate) fn new(alloc: Global) -> Slots
        ensures { result ≡ [] }
    {
        Slots {
            tables: Vec::new(alloc),
        }
    }

    /// The table of that number.
    pub(crate) fn get(&self, id: TableId) -> Option<&Table>
        ensures { option_copied result ≡ slot_at self.now id }
    {
        match self.tables.get(id.index()) {
            Some(slot) => slot.as_ref(),
            None => None,
        }
    }

    /// The table of this number, to be changed.
    pub(crate) fn get_mut(&mut self, id: TableId) -> &mut Table
        requires { IsSome (slot_at self.old id) }
        ensures* lends { sem 𝓛 (Lends the_row table.the_row self.entry result (λ t. slice_set self.old id (Some t))) }
        ensures value { slot_at self.old id ≡ Some result.now }
    {
        let slot = &mut self.tables[id.index()];
        slot.as_mut().unwrap()
    }

    /// The least number that no table has.
    pub(crate) fn least_free(&self) -> usize
        ensures none { slot_at self.now result ≡ None }
        ensures least { (k : ℕ) → k < result → IsSome (slot_at self.now k) }
        ensures within { result ≤ length self.now }
    {
        for (number, slot) in self.tables.iter().enumerate() {
            if slot.is_none() {
                return number;
            }
        }
        self.tables.len()
    }

    /// Puts a table under a number, which is at most the first behind all slots.
    pub(crate) fn fill(&mut self, id: TableId, table: Table) -> Result<(), AllocError>
        requires { id ≤ length self.old }
        ensures filled { OnOk result ((k : ℕ) → slot_at self.new k ≡ with_slot self.old id table k) }
        ensures unchanged { OnErr result (self.new ≡ self.old) }
    {
        let number = id.index();
        if number < self.tables.len() {
            self.tables[number] = Some(table);
        } else {
            self.tables.push(Some(table))?;
        }
        Ok(())
    }

    /// Drops the table of that number, if there is one.
    pub(crate) fn clear(&mut self, id: TableId)
        ensures { (k : ℕ) → slot_at self.new k ≡ (if k == id then None else slot_at self.old k) }
    {
        let number = id.index();
        if number < self.tables.len() {
            self.tables[number] = None;
        }
    }
}
