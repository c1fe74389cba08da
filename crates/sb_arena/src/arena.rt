//! Places with numbers, each free or with a value, over blocks of raw memory.
ghost use Rattle.std.specs.Prelude.{◌≡◌, ◌-◌, ◌<◌, ◌++◌, [], Option, Some, None, length, get_or, replicate, slice_set, take, option_copied, OnOk, OnErr};

use crate::block::Block;
use std::alloc::{AllocError, Global};
use std::marker::Model;

/// The number of places of a block. One is got, or given back, in well under a millisecond.
pub const BLOCK_PLACES: usize = 4_096;

/// Places with numbers, each free or with a value. None is moved, however many there are.
#[derive(Drop)]
pub struct Arena<T> {
    blocks: Vec<Block<T, Global>>,
    places: usize,
    alloc: Global,
}

impl<T> Model for Arena<T> {
    ghost use Rattle.std.specs.Prelude.{List, Option};
    ghost use Rattle.std.specs.List.{flat_map};
    ghost use Rattle.std.specs.Coded.{coded_list, coded_option};

    ghost Value = { List (Option T) };

    ghost coded = { coded_list (coded_option T.code) };

    ghost use Rattle.sb_arena.specs.Blocks.{AreBlocks};

    ghost view = { λ a. flat_map (λ b. b) a.blocks.items };

    ghost invariant = { λ a. AreBlocks a.blocks.items a.places };
}

impl<T> Arena<T> {
    /// An arena without places.
    pub fn new(alloc: Global) -> Self
        ensures { result ≡ [] }
    {
        Arena {
            blocks: Vec::new(alloc),
            places: 0,
            alloc,
        }
    }

    /// The number of places.
    pub fn places(&self) -> usize
        ensures { result ≡ length self.now }
    {
        self.places
    }

    /// The value in the place, unless it is free.
    pub fn get(&self, place: usize) -> Option<&T>
        requires { place < length self.now }
        ensures { option_copied result ≡ get_or self.now place None }
    {
        self.blocks[place / BLOCK_PLACES].get(place % BLOCK_PLACES)
    }

    /// Puts the value into a free place.
    pub fn put(&mut self, place: usize, value: T)
        requires within { place < length self.old }
        requires free { get_or self.old place None ≡ None }
        ensures { self.new ≡ slice_set self.old place (Some value) }
    {
        self.blocks[place / BLOCK_PLACES].put(place % BLOCK_PLACES, value);
    }

    /// Takes the value out of the place, which is free then.
    pub fn take(&mut self, place: usize) -> T
        requires { (x : T) × (get_or self.old place None ≡ Some x) }
        ensures value { get_or self.old place None ≡ Some result }
        ensures places { self.new ≡ slice_set self.old place None }
    {
        self.blocks[place / BLOCK_PLACES].take(place % BLOCK_PLACES)
    }

    /// Adds a block of free places. Error: out of memory.
    pub fn grow(&mut self) -> Result<(), AllocError>
        ensures ok { OnOk result (self.new ≡ self.old ++ replicate 4096 None) }
        ensures err { OnErr result (self.new ≡ self.old) }
    {
        let Some(places) = self.places.checked_add(BLOCK_PLACES) else {
            return Err(AllocError);
        };
        self.blocks.reserve(1)?;
        let block = Block::new(self.alloc, BLOCK_PLACES)?;
        self.blocks.push_reserved(block);
        self.places = places;
        Ok(())
    }
}

impl<T: Drop> Arena<T> {
    /// Gives the last block back to the system, if there is one, with what is in it.
    pub fn shrink(&mut self)
        ensures { self.new ≡ take (length self.old - 4096) self.old }
    {
        if let Some(last) = self.blocks.pop() {
            self.places -= BLOCK_PLACES;
            drop(last);
        }
    }
}
