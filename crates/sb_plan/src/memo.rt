//! Knowledge of a condition's subqueries, whatever the combination around them.
ghost use Rattle.std.specs.Prelude.{◌≡◌, None, option_map, IfOk};
ghost use Rattle.sb_plan.specs.Memo as spec;

use crate::value_ref::ValueRef;
use crate::value_set::ValueSet;
use crate::way::AccessPath;
use std::alloc::{AllocError, Global};

/// A memo: what is known of a condition's subqueries, as a tree that lies beside it.
pub enum Memo<'r> {
    /// Nothing.
    Nothing,
    /// Of both sides of `and` or `or`.
    Both(Box<Memo<'r>>, Box<Memo<'r>>),
    /// Of the condition of the query that stands here.
    Within(Box<Memo<'r>>),
    /// Of the condition of the query that stands here, with the access path of its last source.
    Prepared(Box<Memo<'r>>, Box<AccessPath<'r>>),
    /// True if the query that stands here has a row.
    Truth(bool),
    /// The one value of the query that stands here.
    OneValue(ValueRef<'r>),
    /// The first values of the rows of the query that stands here.
    Values(ValueSet<'r>),
}

impl<'r> Drop for Memo<'r> {
    #[cycle(release_memo)]
    fn drop(self) {
        match self {
            Self::Nothing => {}
            Self::Both(_, _) => {}
            Self::Within(_) => {}
            Self::Prepared(_, _) => {}
            Self::Truth(_) => {}
            Self::OneValue(_) => {}
            Self::Values(_) => {}
        }
    }
}

impl<'r> Memo<'r> {
    /// The memo of both sides. Of nothing no tree is made. Error: out of memory.
    pub fn both(alloc: Global, left: Memo<'r>, right: Memo<'r>) -> Result<Memo<'r>, AllocError>
        ensures left { IfOk result (λ memo. spec.left memo ≡ left.entry) }
        ensures right { IfOk result (λ memo. spec.right memo ≡ right.entry) }
    {
        match (&left, &right) {
            (Memo::Nothing, Memo::Nothing) => Ok(Memo::Nothing),
            _ => Ok(Memo::Both(Box::new(alloc, left)?, Box::new(alloc, right)?)),
        }
    }

    /// The memo of a query of whose condition alone something is known. Error: out of memory.
    pub fn around(alloc: Global, inside: Memo<'r>) -> Result<Memo<'r>, AllocError>
        ensures within { IfOk result (λ memo. spec.within memo ≡ inside.entry) }
        ensures truth { IfOk result (λ memo. spec.truth memo ≡ None) }
        ensures one_value { IfOk result (λ memo. spec.one_value memo ≡ None) }
        ensures values { IfOk result (λ memo. spec.values memo ≡ None) }
        ensures way { IfOk result (λ memo. spec.way memo ≡ None) }
    {
        match inside {
            Memo::Nothing => Ok(Memo::Nothing),
            inside => Ok(Memo::Within(Box::new(alloc, inside)?)),
        }
    }

    /// Of the left side.
    #[inline(always)]
    pub fn left(&self) -> &Memo<'r>
        ensures { result.now ≡ spec.left self.now }
    {
        match self {
            Memo::Both(left, _) => left,
            _ => self,
        }
    }

    /// Of the right side.
    #[inline(always)]
    pub fn right(&self) -> &Memo<'r>
        ensures { result.now ≡ spec.right self.now }
    {
        match self {
            Memo::Both(_, right) => right,
            _ => self,
        }
    }

    /// Of the condition of the query.
    #[inline(always)]
    pub fn within(&self) -> &Memo<'r>
        ensures { result.now ≡ spec.within self.now }
    {
        match self {
            Memo::Within(inside) | Memo::Prepared(inside, _) => inside,
            _ => self,
        }
    }

    /// The way in which the last source of the query is taken.
    #[inline(always)]
    pub fn way(&self) -> Option<&AccessPath<'r>>
        ensures { option_map (λ way. way.now) result ≡ spec.way self.now }
    {
        match self {
            Memo::Prepared(_, way) => Some(way),
            _ => None,
        }
    }

    /// True if the query has a row, where that is known.
    #[inline(always)]
    pub fn truth(&self) -> Option<bool>
        ensures { result ≡ spec.truth self.now }
    {
        match self {
            Memo::Truth(some) => Some(*some),
            _ => None,
        }
    }

    /// The one value of the query, where it is known.
    #[inline(always)]
    pub fn one_value(&self) -> Option<ValueRef<'r>>
        ensures { result ≡ spec.one_value self.now }
    {
        match self {
            Memo::OneValue(value) => Some(*value),
            _ => None,
        }
    }

    /// The first values of the query's rows, where they are known.
    #[inline(always)]
    pub fn values(&self) -> Option<&ValueSet<'r>>
        ensures { option_map (λ set. set.now) result ≡ spec.values self.now }
    {
        match self {
            Memo::Values(set) => Some(set),
            _ => None,
        }
    }
}
