//! Places in one piece of raw memory, each free or with a value.
ghost use Rattle.std.specs.Prelude.{◌≡◌, ◌<◌, Option, Some, None, length, get_or, replicate, slice_set, option_copied, IfOk};

use crate::cells::{Cells, Deed, Start, allocate, free};
use crate::moves::{clear, fill};
use std::alloc::{AllocError, Allocator};
use std::marker::Model;
use std_alloc::room::may_hold;

/// A piece of memory, what it holds and the right to free it.
pub(crate) struct Block<T, A: Allocator> {
    start: Start<Option<T>>,
    cells: Cells<Option<T>>,
    deed: Deed<Option<T>, A>,
    places: usize,
    alloc: A,
}

impl<T, A: Allocator> Model for Block<T, A> {
    ghost use Rattle.std.specs.Prelude.{List, Option};
    ghost use Rattle.std.specs.Coded.{coded_list, coded_option};

    ghost Value = { List (Option T) };

    ghost coded = { coded_list (coded_option T.code) };

    ghost use Rattle.sb_arena.specs.Blocks.{IsBlock};
    ghost use Rattle.sb_arena.specs.Places.{somes};

    ghost view = { λ b. somes b.cells.slots };

    ghost invariant = { IsBlock };
}

impl<T, A: Allocator> Block<T, A> {
    /// So many free places.
    pub(crate) fn new(alloc: A, places: usize) -> Result<Self, AllocError>
        ensures { IfOk result (λ b. b ≡ replicate places None) }
    {
        if !may_hold::<Option<T>>(places) {
            return Err(AllocError);
        }
        let (start, mut cells, deed) = allocate(&alloc, places)?;
        fill(&mut cells, start, places);
        Ok(Block {
            start,
            cells,
            deed,
            places,
            alloc,
        })
    }

    /// The value in the place, unless it is free.
    pub(crate) fn get(&self, place: usize) -> Option<&T>
        requires { place < length self.now }
        ensures { option_copied result ≡ get_or self.now place None }
    {
        self.cells.get(self.start, place).as_ref()
    }

    /// Puts the value into a free place.
    pub(crate) fn put(&mut self, place: usize, value: T)
        requires within { place < length self.old }
        requires free { get_or self.old place None ≡ None }
        ensures { self.new ≡ slice_set self.old place (Some value) }
    {
        match self.cells.read(self.start, place) {
            Some(_) => unreachable!(),
            None => self.cells.write(self.start, place, Some(value)),
        }
    }

    /// Takes the value out of the place, which is free then.
    pub(crate) fn take(&mut self, place: usize) -> T
        requires { (x : T) × (get_or self.old place None ≡ Some x) }
        ensures value { get_or self.old place None ≡ Some result }
        ensures places { self.new ≡ slice_set self.old place None }
    {
        let Some(value) = self.cells.read(self.start, place) else {
            unreachable!()
        };
        self.cells.write(self.start, place, None);
        value
    }
}

impl<T: Drop, A: Allocator> Drop for Block<T, A> {
    fn drop(self) {
        let Block {
            start,
            mut cells,
            deed,
            places,
            alloc,
        } = self;
        clear(&mut cells, start, places);
        free(&alloc, start, places, cells, deed);
    }
}
