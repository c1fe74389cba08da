//! The helpers: threads that do jobs beside the calling one.
ghost use Rattle.std.specs.Prelude.{◌≡◌, ◌-◌, ◌<◌, ◌≤◌, true, [], IfOk, vec_len, vec_capacity};
ghost use Rattle.crossbeam_deque.specs.Handles.{stealer_deque, worker_deque, worker_view};
ghost use Rattle.sb_workers.specs.Rule.{known};
ghost use Rattle.sb_workers.specs.Seats.{AreHelpers, HasMoreParts, IsCaller, IsHelper, SameEnd};

use crate::caller::Caller;
use crate::rule::{Looked, Owner, Part, Seat, Thief};
use crate::turns::steal;
use crate::work::{Placed, Work};
use std::alloc::{AllocError, Global};
use std::sync::Wait;

/// What a helper has: where its memory comes from, its seat, and places for what it does.
#[derive(Drop)]
pub struct Helper<J: Drop, D: Drop> {
    pub(crate) alloc: Global,
    pub(crate) seat: Seat<J>,
    pub(crate) done: Vec<Placed<D>>,
}

/// So many helpers, each with places for all jobs, and places for them to come back to.
pub(crate) fn hire<J: Drop, D: Drop, W: Work<J, D>>(
    alloc: Global,
    mut owner: Owner<J>,
    count: usize,
    jobs: usize,
) -> Result<(Owner<J>, Vec<Helper<J, D>>, Vec<Helper<J, D>>), AllocError>
    requires fresh { worker_view owner ≡ known 1024 true [] [] }
    requires few { count < 1024 }
    ensures owner { IfOk result (λ r. (worker_view r.0 ≡ known (1024 - count) true [] []) × SameEnd owner r.0) }
    ensures helpers { IfOk result (λ r. AreHelpers W.does (worker_deque owner) r.1.items × (vec_len r.1 ≡ count)) }
    ensures back { IfOk result (λ r. (r.2.items ≡ []) × (count ≤ vec_capacity r.2)) }
{
    let back = Vec::with_capacity(alloc, count)?;
    let mut helpers = Vec::with_capacity(alloc, count)?;
    for _hired in 0..count {
        let done = Vec::with_capacity(alloc, jobs)?;
        let seat = owner.another::<Part>();
        helpers.push_reserved(Helper { alloc, seat, done });
    }
    Ok((owner, helpers, back))
}

/// How many bytes a helper's heap grows by when it begins.
const HEAP: usize = 1 << 24;

/// Lets the heap of this thread grow in one step. The C library would let it grow by a page at a time, each by
/// a call of the system that all threads wait for. So large a block is had beside the heap; once one was given
/// back, the next one is had inside.
fn widen_heap(alloc: Global) {
    for _ in 0..2 {
        let _block = Vec::<u8>::with_capacity(alloc, HEAP);
    }
}

/// A helper does what it can.
pub(crate) fn help<J: Drop, D: Drop, W: Work<J, D>, R: Wait>(
    rt: &R,
    work: &W,
    thief: &Thief<J>,
    helper: Helper<J, D>,
) -> Helper<J, D>
    requires { IsHelper W.does (stealer_deque thief.now) helper }
    ensures { IsHelper W.does (stealer_deque thief.now) result }
{
    let Helper { alloc, seat, done } = helper;
    widen_heap(alloc);
    let (seat, done) = steal(rt, work, thief, seat, done);
    Helper { alloc, seat, done }
}

/// The calling thread takes in what one helper has done.
fn take_one<J: Drop, D: Drop, W: Work<J, D>>(
    caller: Caller<J, D>,
    helper: Helper<J, D>,
) -> Caller<J, D>
    requires caller { IsCaller W.does caller }
    requires helper { IsHelper W.does (worker_deque caller.owner) helper }
    ensures parts { HasMoreParts 1 caller.owner result.owner }
    ensures caller { IsCaller W.does result }
{
    let Caller {
        mut owner,
        mut done,
    } = caller;
    let Helper {
        seat,
        done: mut theirs,
        ..
    } = helper;
    owner.absorb::<Part>(seat);
    owner.len_as::<Looked>();
    let Ok(()) = done.append(&mut theirs) else {
        unreachable!()
    };
    Caller { owner, done }
}

/// The calling thread takes in what the helpers have done.
pub(crate) fn take_in<J: Drop, D: Drop, W: Work<J, D>>(
    mut caller: Caller<J, D>,
    mut helpers: Vec<Helper<J, D>>,
) -> Caller<J, D>
    requires caller { IsCaller W.does caller }
    requires helpers { AreHelpers W.does (worker_deque caller.owner) helpers.items }
    ensures parts { HasMoreParts (vec_len helpers) caller.owner result.owner }
    ensures caller { IsCaller W.does result }
{
    while let Some(helper) = helpers.pop() {
        caller = take_one::<J, D, W>(caller, helper);
    }
    caller
}
