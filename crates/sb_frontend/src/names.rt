//! Things by name, as a client names them.
ghost use Rattle.std.specs.Prelude.{◌≡◌, ◌≤◌, [], IfErr, MatchResult, nat_le, length, option_copied, vec_capacity, vec_len};
ghost use Rattle.sb_frontend.specs.Denials.{Comes};
ghost use Rattle.sb_frontend.specs.Names as spec;
ghost use Rattle.sb_frontend.specs.Outcomes.{outcome};

use crate::denial::Denial;
use std::alloc::{AllocError, Global};
use std::marker::Model;

/// So many names there may be.
const NAME_LIMIT: usize = 256;

/// Things by name.
#[derive(Drop)]
pub(crate) struct Names<X: Drop> {
    alloc: Global,
    list: Vec<(Vec<u8>, X)>,
}

impl<X: Drop> Model for Names<X> {
    ghost use Rattle.std.specs.Prelude.{ℕ, List};
    ghost use Rattle.sb_frontend.specs.Names.{seen};

    ghost Value = { List (List ℕ × X) };

    ghost view = { λ n. seen n.list.items };
}

/// The thing of this name.
fn find<'a, X>(list: &'a [(Vec<u8>, X)], name: &[u8]) -> Option<&'a X>
    ensures { option_copied result ≡ spec.named name.now (spec.seen list.now) }
{
    let mut left = list;
    while let [entry, rest @ ..] = left {
        if entry.0.as_slice() == name {
            return Some(&entry.1);
        }
        left = rest;
    }
    None
}

/// Drops what has this name.
fn leave_out<X: Drop>(list: &mut Vec<(Vec<u8>, X)>, name: &[u8])
    ensures left { spec.seen list.new.items ≡ spec.without name.now (spec.seen list.old.items) }
    ensures bound { vec_len list.new ≤ vec_len list.old }
    ensures capacity { vec_capacity list.new ≡ vec_capacity list.old }
{
    list.retain(|entry| entry.0.as_slice() != name);
}

impl<X: Drop> Names<X> {
    pub(crate) fn new(alloc: Global) -> Names<X>
        ensures { result ≡ [] }
    {
        Names {
            alloc,
            list: Vec::new(alloc),
        }
    }

    /// The thing of this name.
    pub(crate) fn get(&self, name: &[u8]) -> Option<&X>
        ensures { option_copied result ≡ spec.named name.now self.now }
    {
        find(&self.list, name)
    }

    /// Drops what has this name.
    pub(crate) fn remove(&mut self, name: &[u8])
        ensures { self.new ≡ spec.without name.now self.old }
    {
        leave_out(&mut self.list, name);
    }

    /// Puts something under a name, in place of what was there.
    pub(crate) fn put(&mut self, name: &[u8], what: X) -> Result<(), AllocError>
        ensures { MatchResult result (λ _. self.new ≡ spec.with name.now what self.old) (λ _. self.new ≡ self.old) }
    {
        let copy = name.to_vec(self.alloc)?;
        self.list.reserve(1)?;
        leave_out(&mut self.list, name);
        self.list.push_reserved((copy, what));
        Ok(())
    }

    /// True if something may be put under a name.
    fn is_free(&self, name: &[u8]) -> bool
        ensures { result ≡ spec.is_free name.now self.now }
    {
        name.is_empty() || self.get(name).is_none()
    }

    fn is_full(&self) -> bool
        ensures { result ≡ nat_le spec.name_limit (length self.now) }
    {
        self.list.len() >= NAME_LIMIT
    }

    /// Puts something under a name that is free. The unnamed one is replaced.
    pub(crate) fn store(&mut self, name: &[u8], what: X, exists: Denial) -> Result<(), Denial>
        ensures stored { Comes (spec.stored name.now what exists self.old) (outcome self.new result) }
        ensures kept { IfErr result (λ _. self.new ≡ self.old) }
    {
        if !self.is_free(name) {
            return Err(exists);
        }
        if self.is_full() {
            return Err(Denial::TooMany);
        }
        match self.put(name, what) {
            Ok(()) => Ok(()),
            Err(_) => Err(Denial::Memory),
        }
    }
}
