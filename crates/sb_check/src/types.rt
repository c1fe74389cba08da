//! The types of a query's columns.
ghost use Rattle.std.specs.Prelude.{◌≡◌, [], ◌∷◌, ◌++◌, length, true, OnOk, OnErr};
ghost use Rattle.sb_check.specs.Answer.{Gives};
ghost use Rattle.sb_check.specs.Walk as walk;
ghost use Rattle.sb_check.specs.Names as spec;

use crate::fault::{CheckFault, Reason};
use sb_value::{ColumnDefinition, ColumnType};
use smallvec::SmallVec;
use std::alloc::{AllocError, Global};
use std::marker::Model;

/// True if the two types are the same.
pub(crate) fn same_type(a: ColumnType, b: ColumnType) -> bool
    ensures { result ≡ spec.same_type a b }
{
    match (a, b) {
        (ColumnType::Int, ColumnType::Int) => true,
        (ColumnType::Text, ColumnType::Text) => true,
        _ => false,
    }
}

/// The type of one column. A place that isn't used holds the type of integers.
#[derive(Clone, Copy)]
struct OfColumn {
    of: ColumnType,
}

impl Default for OfColumn {
    fn default() -> OfColumn {
        OfColumn {
            of: ColumnType::Int,
        }
    }
}

/// The types of columns in order. As many as a query lists stand inline.
#[derive(Drop)]
pub(crate) struct Types {
    list: SmallVec<OfColumn, 16>,
}

impl Model for Types {
    ghost use Rattle.std.specs.Prelude.{List, map};
    ghost use Rattle.sb_value.specs.declared.value.ColumnType.{ColumnType as Item};

    ghost Value = { List Item };

    ghost view = { λ t. map (λ c. c.of) t.list.items };
}

impl Types {
    /// No type.
    pub(crate) fn new(alloc: Global) -> Types
        ensures { result ≡ [] }
    {
        Types {
            list: SmallVec::new(alloc),
        }
    }

    /// Adds a type at the end.
    pub(crate) fn push(&mut self, of: ColumnType) -> Result<(), AllocError>
        ensures ok { OnOk result (self.new ≡ self.old ++ of ∷ []) }
        ensures err { OnErr result (self.new ≡ self.old) }
    {
        self.list.push(OfColumn { of })?;
        Ok(())
    }

    /// The number of types.
    pub(crate) fn len(&self) -> usize
        ensures { result ≡ length self.now }
    {
        self.list.as_slice().len()
    }

    /// Checks that there are as many as the columns, and then that each is its column's.
    pub(crate) fn fit(&self, columns: &[ColumnDefinition]) -> Result<(), CheckFault>
        ensures { Gives (λ _. true) (walk.fitting self.now columns.now) result }
    {
        let list = self.list.as_slice();
        if list.len() != columns.len() {
            return Err(CheckFault::Refused(Reason::WrongCount));
        }
        for (place, column) in columns.iter().enumerate() {
            if !same_type(list[place].of, column.of) {
                return Err(CheckFault::Refused(Reason::BadType));
            }
        }
        Ok(())
    }

    /// Checks that there is one column, of the type of the left side of `in`.
    pub(crate) fn hold_one(&self, left: ColumnType) -> Result<(), CheckFault>
        ensures { Gives (λ _. true) (walk.in_type left self.now) result }
    {
        match self.list.as_slice() {
            [one] => {
                if same_type(left, one.of) {
                    Ok(())
                } else {
                    Err(CheckFault::Refused(Reason::BadType))
                }
            }
            _ => Err(CheckFault::Refused(Reason::WrongCount)),
        }
    }
}
