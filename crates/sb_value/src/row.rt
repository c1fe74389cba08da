//! Rows of tables, and lists of them.
ghost use Rattle.std.specs.Prelude.{◌≡◌, [], ◌∷◌, ◌++◌, length, IfOk, OnOk, OnErr, IsTrue, ◌↔◌};

use crate::value::Value;
use smallvec::SmallVec;
use std::alloc::{AllocError, Global};
use std::marker::Model;

/// A row: its values in the order of the table's columns. Up to two stand inline.
pub struct Row {
    values: SmallVec<Value, 2>,
}

impl Drop for Row {
    fn drop(self) {
        let Self { values: _ } = self;
    }
}

impl Model for Row {
    ghost use Rattle.std.specs.Prelude.{List};
    ghost use Rattle.sb_value.specs.declared.value.Value.{Value as Item};

    ghost Value = { List Item };

    ghost view = { λ r. r.values.items };
}

impl Row {
    /// A row with no value.
    pub fn new(alloc: Global) -> Row
        ensures { result ≡ [] }
    {
        Row {
            values: SmallVec::new(alloc),
        }
    }

    /// Adds a value at the end. Error: out of memory.
    pub fn push(&mut self, value: Value) -> Result<(), AllocError>
        ensures ok { OnOk result (self.new ≡ self.old ++ value ∷ []) }
        ensures err { OnErr result (self.new ≡ self.old) }
    {
        self.values.push(value)?;
        Ok(())
    }

    /// Its values.
    pub fn values(&self) -> &[Value]
        ensures { result.now ≡ self.now }
    {
        self.values.as_slice()
    }

    /// The number of its values.
    pub fn len(&self) -> usize
        ensures { result ≡ length self.now }
    {
        self.values.as_slice().len()
    }

    /// A row of copies of these values. Error: out of memory.
    pub fn from_values(alloc: Global, values: &[Value]) -> Result<Row, AllocError>
        ensures { IfOk result (λ row. row ≡ values.now) }
    {
        let mut list = SmallVec::with_capacity(alloc, values.len())?;
        for value in values {
            list.push_reserved(value.clone()?);
        }
        Ok(Row { values: list })
    }

    /// A row with the same values. Error: out of memory.
    pub fn clone(&self) -> Result<Row, AllocError>
        ensures { IfOk result (λ copy. copy ≡ self.now) }
    {
        Row::from_values(*self.values.allocator(), self.values())
    }
}

/// Rows in order.
pub struct RowList {
    rows: Vec<Row>,
}

impl Drop for RowList {
    fn drop(self) {
        let Self { rows: _ } = self;
    }
}

impl Model for RowList {
    ghost use Rattle.std.specs.Prelude.{List};
    ghost use Rattle.sb_value.specs.declared.value.Value.{Value as Item};

    ghost Value = { List (List Item) };

    ghost view = { λ r. r.rows.items };
}

impl RowList {
    /// No row.
    pub fn new(alloc: Global) -> RowList
        ensures { result ≡ [] }
    {
        RowList {
            rows: Vec::new(alloc),
        }
    }

    /// Adds a row at the end. Error: out of memory.
    pub fn push(&mut self, row: Row) -> Result<(), AllocError>
        ensures ok { OnOk result (self.new ≡ self.old ++ row ∷ []) }
        ensures err { OnErr result (self.new ≡ self.old) }
    {
        self.rows.push(row)?;
        Ok(())
    }

    /// Its rows.
    pub fn rows(&self) -> &[Row]
        ensures { result.now ≡ self.now }
    {
        self.rows.as_slice()
    }

    /// The number of its rows.
    pub fn len(&self) -> usize
        ensures { result ≡ length self.now }
    {
        self.rows.len()
    }

    /// A list of the same rows. Error: out of memory.
    pub fn clone(&self) -> Result<RowList, AllocError>
        ensures { IfOk result (λ copy. copy ≡ self.now) }
    {
        let rows = self.rows();
        let mut copy = RowList::new(*self.rows.allocator());
        for row in rows {
            copy.push(row.clone()?)?;
        }
        Ok(copy)
    }
}
