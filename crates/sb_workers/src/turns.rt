//! What the owner and a helper do with the deque.
ghost use Rattle.crossbeam_deque.specs.Handles.{view, stealer_deque, worker_view};
ghost use Rattle.sb_workers.specs.Results.{AreDone};
ghost use Rattle.sb_workers.specs.Rule.{AllOut};
ghost use Rattle.sb_workers.specs.Seats.{IsCaller, IsSeat, SameOwner};

use crate::caller::Caller;
use crate::rule::{Popped, Seat, Stolen, Thief};
use crate::work::{Placed, Work, done_at};
use crossbeam_deque::Steal;
use std::sync::Wait;

/// The calling thread does what it finds, until the deque is empty.
pub(crate) fn drain<J: Drop, D: Drop, W: Work<J, D>, R: Wait>(
    rt: &R,
    work: &W,
    caller: Caller<J, D>,
) -> Caller<J, D>
    requires { IsCaller W.does caller }
    ensures same { SameOwner caller.owner result.owner }
    ensures caller { IsCaller W.does result }
    ensures all { AllOut (worker_view result.owner) }
{
    let Caller {
        mut owner,
        mut done,
    } = caller;
    for _ in rt.forever() {
        match owner.pop_as::<Popped>() {
            Some(task) => done.push_reserved(done_at(rt, work, task)),
            None => return Caller { owner, done },
        }
    }
    unreachable!()
}

/// A helper does what it can steal, until it finds nothing.
pub(crate) fn steal<J: Drop, D: Drop, W: Work<J, D>, R: Wait>(
    rt: &R,
    work: &W,
    thief: &Thief<J>,
    mut seat: Seat<J>,
    mut done: Vec<Placed<D>>,
) -> (Seat<J>, Vec<Placed<D>>)
    requires seat { IsSeat (stealer_deque thief.now) seat }
    requires done { AreDone W.does (view seat).given done.items }
    ensures seat { IsSeat (stealer_deque thief.now) result.0 }
    ensures done { AreDone W.does (view result.0).given result.1.items }
{
    for _ in rt.forever() {
        if done.len() == done.capacity() {
            return (seat, done);
        }
        match thief.steal_as::<Stolen>(&mut seat) {
            Steal::Success(task) => done.push_reserved(done_at(rt, work, task)),
            Steal::Empty => return (seat, done),
            Steal::Retry => {}
        }
    }
    unreachable!()
}
