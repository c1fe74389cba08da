//! The rows of an insert as they are written: of any widths, with all their values in one list.
ghost use Rattle.std.specs.Prelude.{◌≡◌, [], ◌∷◌, ◌++◌, length, drop, IfOk, IfSome, OnOk, OnErr, None};

use crate::value::Value;
use smallvec::SmallVec;
use std::alloc::{AllocError, Global};
use std::marker::Model;
use std::sync::Arc;

/// The number of values of each tuple, in order. Up to two are inline.
type Widths = SmallVec<usize, 2>;

/// Values, and how they are cut into tuples.
#[derive(Drop)]
struct Written {
    values: Vec<Value>,
    widths: Widths,
}

/// Lists of values, in order. Its copies share them.
pub struct Tuples {
    written: Arc<Written>,
}

impl Drop for Tuples {
    fn drop(self) {
        let Self { written: _ } = self;
    }
}

impl Model for Tuples {
    ghost use Rattle.std.specs.Prelude.{List, length, ◌≤◌};
    ghost use Rattle.std.specs.Arc.{arc_value};
    ghost use Rattle.sb_value.specs.Tuples.{cut, total};
    ghost use Rattle.sb_value.specs.declared.value.Value.{Value as Item};

    ghost Value = { List (List Item) };

    ghost view = { λ t. cut (arc_value t.written).widths.items (arc_value t.written).values.items };

    ghost invariant = { λ t. total (arc_value t.written).widths.items ≤ length (arc_value t.written).values.items };
}

impl Tuples {
    /// The number of tuples.
    #[tactic(auto, using(crate::proofs::TupleLaws::cut_length))]
    pub fn len(&self) -> usize
        ensures { result ≡ length self.now }
    {
        self.written.widths.len()
    }

    /// The tuples one by one.
    pub fn iter(&self) -> TupleIter<'_>
        ensures { result ≡ self.now }
    {
        TupleIter {
            values: self.written.values.as_slice(),
            widths: self.written.widths.as_slice(),
        }
    }

    /// A copy of the tuples. Error: out of memory.
    pub fn clone(&self) -> Result<Tuples, AllocError>
        ensures { IfOk result (λ copy. copy ≡ self.now) }
    {
        Ok(Tuples {
            written: self.written.clone()?,
        })
    }
}

/// Tuples that are still to come, lent.
#[derive(Drop)]
pub struct TupleIter<'a> {
    values: &'a [Value],
    widths: &'a [usize],
}

impl<'a> Model for TupleIter<'a> {
    ghost use Rattle.std.specs.Prelude.{List, length, ◌≤◌};
    ghost use Rattle.sb_value.specs.Tuples.{cut, total};
    ghost use Rattle.sb_value.specs.declared.value.Value.{Value as Item};

    ghost Value = { List (List Item) };

    ghost view = { λ t. cut t.widths.now t.values.now };

    ghost invariant = { λ t. total t.widths.now ≤ length t.values.now };
}

impl<'a> TupleIter<'a> {
    /// The values of the next tuple.
    pub fn next(&mut self) -> Option<&'a [Value]>
        ensures taken { IfSome result (λ tuple. self.old ≡ tuple.now ∷ self.new) }
        ensures end { result ≡ None → self.old ≡ [] }
        ensures rest { self.new ≡ drop 1 self.old }
    {
        let (width, widths) = self.widths.split_first()?;
        let (tuple, values) = self.values.split_at(*width);
        self.values = values;
        self.widths = widths;
        Some(tuple)
    }
}

/// Tuples, and the values so far of one more.
#[derive(Drop)]
pub struct OpenTuples {
    values: Vec<Value>,
    widths: Widths,
    closed: usize,
}

impl Model for OpenTuples {
    ghost use Rattle.std.specs.Prelude.{length, drop, ◌≡◌, ◌≤◌};
    ghost use Rattle.sb_value.specs.Tuples.{Opened, cut, total};

    ghost Value = { Opened };

    ghost view = { λ t. record { closed = cut t.widths.items t.values.items; begun = drop t.closed t.values.items } };

    ghost invariant = { λ t. (t.closed ≡ total t.widths.items) × (t.closed ≤ length t.values.items) };
}

impl OpenTuples {
    /// No tuple, with room for so many values. Error: out of memory.
    pub fn with_capacity(alloc: Global, values: usize) -> Result<OpenTuples, AllocError>
        ensures { IfOk result (λ t. (t.closed ≡ []) × (t.begun ≡ [])) }
    {
        Ok(OpenTuples {
            values: Vec::with_capacity(alloc, values)?,
            widths: SmallVec::new(alloc),
            closed: 0,
        })
    }

    /// Adds a value to the tuple that is begun. Error: out of memory.
    pub fn push(&mut self, value: Value) -> Result<(), AllocError>
        ensures ok { OnOk result (self.new ≡ record self.old { begun = self.old.begun ++ value ∷ [] }) }
        ensures err { OnErr result (self.new ≡ self.old) }
    {
        self.values.push(value)?;
        Ok(())
    }

    /// Closes the tuple that is begun. Error: out of memory.
    #[tactic(auto, using(crate::proofs::TupleLaws::total_more))]
    pub fn close(&mut self) -> Result<(), AllocError>
        ensures ok { OnOk result (self.new ≡ record { closed = self.old.closed ++ self.old.begun ∷ []; begun = [] }) }
        ensures err { OnErr result (self.new ≡ self.old) }
    {
        let end = self.values.as_slice().len();
        self.widths.push(end - self.closed)?;
        self.closed = end;
        Ok(())
    }

    /// The closed tuples, to be shared. Error: out of memory.
    pub fn finish(self, alloc: Global) -> Result<Tuples, AllocError>
        ensures { IfOk result (λ tuples. tuples ≡ self.closed) }
    {
        let written = Written {
            values: self.values,
            widths: self.widths,
        };
        Ok(Tuples {
            written: Arc::new(alloc, written)?,
        })
    }
}
