//! Results come in any order, each with its place, and are laid back by place.
ghost use Rattle.std.specs.Prelude.{◌≡◌, ◌<◌, ◌≤◌, [], length, map, IfOk, Some, slice_set, vec_len, vec_capacity};
ghost use Rattle.sb_workers.specs.Results.{AreEmpty, AreFull, CoverPlaces, HoldByPlace, IsReady, ListsByPlace};

use crate::work::Placed;
use std::alloc::{AllocError, Global};

/// A slot for the result of each place, and room for the list of them.
#[derive(Drop)]
pub struct Rack<D: Drop> {
    pub(crate) slots: Vec<Option<D>>,
    pub(crate) results: Vec<D>,
}

impl<D: Drop> Rack<D> {
    /// Slots and room for so many results.
    pub(crate) fn new(alloc: Global, count: usize) -> Result<Rack<D>, AllocError>
        ensures { IfOk result (λ rack. IsReady count rack) }
    {
        let results = Vec::with_capacity(alloc, count)?;
        let slots = empty_slots(alloc, count)?;
        Ok(Rack { slots, results })
    }

    /// The list of these results, in the order of their places.
    pub(crate) fn list(self, done: Vec<Placed<D>>) -> Vec<D>
        requires ready { IsReady (vec_len self.slots) self }
        requires covered { CoverPlaces (vec_len self.slots) done.items }
        ensures len { length result.items ≡ vec_len self.slots }
        ensures lists { ListsByPlace done.items result.items }
    {
        let Rack { slots, results } = self;
        let slots = lay(slots, done);
        in_a_row(slots, results)
    }
}

/// So many slots.
fn empty_slots<D: Drop>(alloc: Global, count: usize) -> Result<Vec<Option<D>>, AllocError>
    ensures len { IfOk result (λ slots. vec_len slots ≡ count) }
    ensures empty { IfOk result (λ slots. AreEmpty slots.items) }
{
    let mut slots = Vec::with_capacity(alloc, count)?;
    for _place in 0..count {
        slots.push_reserved(None);
    }
    Ok(slots)
}

/// Puts a result into the slot of its place.
fn put<D: Drop>(slots: &mut Vec<Option<D>>, placed: Placed<D>)
    requires { placed.place < vec_len slots.old }
    ensures len { vec_len slots.new ≡ vec_len slots.old }
    ensures put { slots.new.items ≡ slice_set slots.old.items placed.place (Some placed.item) }
{
    let Placed { place, item } = placed;
    slots[place] = Some(item);
}

/// Each result in the slot of its place.
fn lay<D: Drop>(mut slots: Vec<Option<D>>, done: Vec<Placed<D>>) -> Vec<Option<D>>
    requires empty { AreEmpty slots.items }
    requires covered { CoverPlaces (vec_len slots) done.items }
    ensures len { vec_len result ≡ vec_len slots }
    ensures held { HoldByPlace done.items result.items }
{
    for placed in done {
        put(&mut slots, placed);
    }
    slots
}

/// What the slots hold.
fn in_a_row<D: Drop>(slots: Vec<Option<D>>, mut results: Vec<D>) -> Vec<D>
    requires full { AreFull slots.items }
    requires room { (results.items ≡ []) × (vec_len slots ≤ vec_capacity results) }
    ensures { map Some result.items ≡ slots.items }
{
    for slot in slots {
        match slot {
            Some(found) => results.push_reserved(found),
            None => unreachable!(),
        }
    }
    results
}
