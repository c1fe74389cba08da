//! A change enters a place and the lists, and leaves them.
ghost use Rattle.std.specs.Prelude.{◌≡◌, ℕ, ◌+◌, ◌-◌, ◌^◌, ◌<◌, ◌≤◌, Some, None, length, get_or, slice_set, vec_capacity, OnOk, OnErr, MatchBool};
ghost use Rattle.sb_rawlog.specs.declared.node.Which.TheVariants.{Op, Tuple, Session};
ghost use Rattle.sb_rawlog.specs.Heads.{node_before, put_first, IsInLog, Leaves};
ghost use Rattle.sb_rawlog.specs.Places.{AreFree, CanSpareBlock, Claims, GivesBack, HoldSame, Rewinds, Sheds, room_in};

use crate::bucket::{op_bucket, session_bucket, tuple_bucket};
use crate::heads::Heads;
use crate::lists::unlink;
use crate::node::{Back, Links, Node, Which};
use sb_arena::{Arena, BLOCK_PLACES};
use sb_value::Change;
use std::alloc::AllocError;

/// So many places stay, some 16 MB of them, however few are in use.
const KEPT_PLACES: usize = 49_152;

/// Takes a free place: one that was given back, or else the next of those that were never used.
pub(crate) fn claim(free: &mut Vec<usize>, used: &mut usize) -> usize
    requires { length free.old.items ≡ 0 → used.old < 2 ^ 64 - 1 }
    ensures place { Claims free.old.items used.old free.new.items used.new result }
    ensures capacity { vec_capacity free.new ≡ vec_capacity free.old }
{
    match free.pop() {
        Some(place) => place,
        None => {
            let place = *used;
            *used += 1;
            place
        }
    }
}

/// Puts the change into the place, in front of its three lists.
#[inline(always)]
pub(crate) fn enter(
    arena: &mut Arena<Node<Change>>,
    heads: &mut Heads,
    place: usize,
    time: u64,
    back: Back,
    change: Change,
)
    requires ops { 0 < length heads.old.ops.items }
    requires tuples { 0 < length heads.old.tuples.items }
    requires sessions { length heads.old.sessions.items ≡ 2048 }
    requires within { place < length arena.old }
    requires free { get_or arena.old place None ≡ None }
    ensures arena { arena.new ≡ slice_set arena.old place (Some (node_before heads.old time back change)) }
    ensures ops { heads.new.ops.items ≡ put_first heads.old Op change place }
    ensures tuples { heads.new.tuples.items ≡ put_first heads.old Tuple change place }
    ensures sessions { heads.new.sessions.items ≡ put_first heads.old Session change place }
{
    let op = op_bucket(&change, heads.ops.len());
    let tuple = tuple_bucket(&change, heads.tuples.len());
    let session = session_bucket(&change);
    let links = Links {
        op: heads.ops[op],
        tuple: heads.tuples[tuple],
        session: heads.sessions[session],
    };
    let node = Node {
        time,
        links,
        back,
        item: change,
    };
    arena.put(place, node);
    heads.ops[op] = Some(place);
    heads.tuples[tuple] = Some(place);
    heads.sessions[session] = Some(place);
}

/// Takes the change out of the place and its three lists.
#[inline(always)]
pub(crate) fn take_out(arena: &mut Arena<Node<Change>>, heads: &mut Heads, place: usize) -> Change
    requires { IsInLog arena.old heads.old place }
    ensures { Leaves arena.old arena.new heads.old heads.new place result }
{
    let Some(node) = arena.get(place) else {
        unreachable!()
    };
    let op = op_bucket(&node.item, heads.ops.len());
    let tuple = tuple_bucket(&node.item, heads.tuples.len());
    let session = session_bucket(&node.item);
    heads.ops[op] = unlink(arena, Which::Op, heads.ops[op], place);
    heads.tuples[tuple] = unlink(arena, Which::Tuple, heads.tuples[tuple], place);
    heads.sessions[session] = unlink(arena, Which::Session, heads.sessions[session], place);
    let Node { item, .. } = arena.take(place);
    item
}

/// Gives the place back: to those that were never used, where it is the last that was, and else to the list.
pub(crate) fn give_back(free: &mut Vec<usize>, used: &mut usize, place: usize)
    requires within { place < used.old }
    requires roomy { length free.old.items < vec_capacity free.old }
    ensures place { GivesBack free.old.items used.old free.new.items used.new place }
    ensures capacity { vec_capacity free.new ≡ vec_capacity free.old }
{
    if place == *used - 1 {
        *used = place;
        return;
    }
    free.push_reserved(place);
}

/// Forgets which places were given back, if all are free: they are handed out from the first on.
fn rewind(free: &mut Vec<usize>, used: &mut usize)
    ensures places { Rewinds free.old.items used.old free.new.items used.new }
    ensures capacity { vec_capacity free.new ≡ vec_capacity free.old }
{
    if free.len() == *used {
        free.clear();
        *used = 0;
    }
}

/// Adds free places, at least `more`, all of which can be given back without memory.
fn grow(
    arena: &mut Arena<Node<Change>>,
    free: &mut Vec<usize>,
    more: usize,
) -> Result<(), AllocError>
    requires fewer { length free.old.items ≤ length arena.old }
    requires roomy { length arena.old ≤ vec_capacity free.old }
    ensures same { HoldSame arena.old arena.new }
    ensures longer { length arena.old ≤ length arena.new }
    ensures free { free.new.items ≡ free.old.items }
    ensures roomy { length arena.new ≤ vec_capacity free.new }
    ensures ok { OnOk result (length arena.old + more ≤ length arena.new) }
{
    let Some(wanted) = arena.places().checked_add(more) else {
        return Err(AllocError);
    };
    // The last block may have some more.
    let Some(most) = wanted.checked_add(BLOCK_PLACES) else {
        return Err(AllocError);
    };
    free.reserve(most - free.len())?;
    'growth: while arena.places() < wanted {
        arena.grow()?;
    }
    Ok(())
}

/// True if the last block can go: far more places are free than the `n` that are needed, and none of it was used.
fn can_spare_block(places: usize, used: usize, given_back: usize, n: usize) -> bool
    requires { (given_back ≤ used) × (used ≤ places) }
    ensures { MatchBool result (CanSpareBlock places used given_back n) (CanSpareBlock places used given_back n → ⊥) }
{
    if places <= KEPT_PLACES {
        return false;
    }
    let left = places - BLOCK_PLACES;
    let in_use = used - given_back;
    if used > left || in_use > places / 4 || n > left - in_use {
        return false;
    }
    true
}

/// Sees that the list has room for so many places and no more, where it is short enough to be moved.
fn trim(free: &mut Vec<usize>, places: usize)
    requires roomy { places ≤ vec_capacity free.old }
    ensures free { free.new.items ≡ free.old.items }
    ensures roomy { places ≤ vec_capacity free.new }
{
    if free.len() <= BLOCK_PLACES {
        free.shrink_to(places);
    }
}

/// Gives one block back to the system where far more places are free than the `n` that are needed.
fn shed(arena: &mut Arena<Node<Change>>, free: &mut Vec<usize>, used: usize, n: usize)
    requires within { (length free.old.items ≤ used) × (used ≤ length arena.old) }
    requires unused { (p : ℕ) → used ≤ p → get_or arena.old p None ≡ None }
    requires spare { n + used ≤ length free.old.items + length arena.old }
    requires roomy { length arena.old ≤ vec_capacity free.old }
    ensures places { Sheds (length arena.old) used (length free.old.items) n (length arena.new) }
    ensures same { HoldSame arena.old arena.new }
    ensures free { free.new.items ≡ free.old.items }
    ensures within { used ≤ length arena.new }
    ensures spare { n + used ≤ length free.new.items + length arena.new }
    ensures roomy { length arena.new ≤ vec_capacity free.new }
{
    if can_spare_block(arena.places(), used, free.len(), n) {
        arena.shrink();
        trim(free, arena.places());
    }
}

/// Sees that at least `n` places are free, and that all places can be given back without memory.
pub(crate) fn add_places(
    arena: &mut Arena<Node<Change>>,
    free: &mut Vec<usize>,
    used: &mut usize,
    n: usize,
) -> Result<(), AllocError>
    requires free { AreFree free.old.items used.old arena.old }
    requires fewer { length free.old.items ≤ used.old }
    requires empty { length free.old.items ≡ used.old → (p : ℕ) → get_or arena.old p None ≡ None }
    requires roomy { length arena.old ≤ vec_capacity free.old }
    ensures same { HoldSame arena.old arena.new }
    ensures free { AreFree free.new.items used.new arena.new }
    ensures in_use { used.new + length free.old.items ≡ used.old + length free.new.items }
    ensures roomy { length arena.new ≤ vec_capacity free.new }
    ensures ok { OnOk result (n ≤ room_in free.new.items used.new arena.new) }
    ensures err { OnErr result (room_in free.old.items used.old arena.old ≤ room_in free.new.items used.new arena.new) }
{
    rewind(free, used);
    let spare = free.len() + (arena.places() - *used);
    if n > spare {
        return grow(arena, free, n - spare);
    }
    Ok(())
}

/// Gives one block back to the system where far more places are free than the `n` that are to stay so.
pub(crate) fn spare_places(
    arena: &mut Arena<Node<Change>>,
    free: &mut Vec<usize>,
    used: &mut usize,
    n: usize,
)
    requires free { AreFree free.old.items used.old arena.old }
    requires fewer { length free.old.items ≤ used.old }
    requires empty { length free.old.items ≡ used.old → (p : ℕ) → get_or arena.old p None ≡ None }
    requires roomy { length arena.old ≤ vec_capacity free.old }
    requires spare { n ≤ room_in free.old.items used.old arena.old }
    ensures same { HoldSame arena.old arena.new }
    ensures free { AreFree free.new.items used.new arena.new }
    ensures in_use { used.new + length free.old.items ≡ used.old + length free.new.items }
    ensures roomy { length arena.new ≤ vec_capacity free.new }
    ensures spare { n ≤ room_in free.new.items used.new arena.new }
    ensures sheds { Sheds (length arena.old) used.new (length free.new.items) n (length arena.new) }
{
    rewind(free, used);
    shed(arena, free, *used, n);
}
