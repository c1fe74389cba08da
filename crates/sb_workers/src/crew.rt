//! All workers at one deque: the calling thread, which owns it, and its helpers.
ghost use Rattle.std.specs.Prelude.{◌≡◌, ◌+◌, ◌<◌, ◌≤◌, ◌^◌, true, [], length, IfOk, IfErr, vec_len};
ghost use Rattle.std.specs.List.{AllZip};
ghost use Rattle.std.specs.Thread.{IsSync};
ghost use Rattle.crossbeam_deque.specs.Handles.{stealer_deque, worker_capacity, worker_deque, worker_flavor, worker_index, worker_view};
ghost use Rattle.sb_workers.specs.Results.{AllDone};
ghost use Rattle.sb_workers.specs.Rule.{known, tasks_from};
ghost use Rattle.sb_workers.specs.Seats.{IsCrew, IsCrewBack, IsHelper};

use crate::caller::Caller;
use crate::helper::{Helper, help, hire, take_in};
use crate::results::Rack;
use crate::rule::{Owner, Pushed, Thief};
use crate::turns::drain;
use crate::work::{Placed, Work};
use std::alloc::Global;
use std::sync::Wait;
use std::thread;
use std::thread::Threads;

/// More jobs than these would have no memory for their places.
const MOST_JOBS: usize = 1 << 32;

/// Pushes the jobs in order, each with its place.
fn fill<J: Drop>(mut owner: Owner<J>, jobs: Vec<J>) -> Owner<J>
    requires fresh { worker_view owner ≡ known (worker_view owner).parts true [] [] }
    requires room { (worker_index owner ≡ 0) × (length jobs.items ≤ worker_capacity owner) }
    requires few { length jobs.items < 2 ^ 62 }
    ensures same { (worker_deque result ≡ worker_deque owner) × (worker_flavor result ≡ worker_flavor owner) }
    ensures view { worker_view result ≡ known (worker_view owner).parts true (tasks_from 0 jobs.items) [] }
{
    let mut place = 0;
    for job in jobs {
        match owner.push_as::<Pushed>(Placed { place, item: job }) {
            Ok(()) => place += 1,
            Err(_) => unreachable!(),
        }
    }
    owner
}

/// The calling thread and each helper, on a thread of its own, do what they find. A helper whose thread
/// can't be started comes after the others.
fn crew<J: Drop + Send, D: Drop + Send, W: Work<J, D> + Sync, R: Threads + Wait + Sync>(
    rt: &R,
    work: &W,
    thief: &Thief<J>,
    caller: Caller<J, D>,
    mut helpers: Vec<Helper<J, D>>,
    back: Vec<Helper<J, D>>,
) -> (Caller<J, D>, Vec<Helper<J, D>>)
    requires { IsCrew W.does (stealer_deque thief.now) caller helpers back }
    ensures { IsCrewBack W.does (stealer_deque thief.now) caller helpers back result }
{
    let Some(helper) = helpers.pop() else {
        return (drain(rt, work, caller), back);
    };
    let (helper, (caller, mut back)) = thread::join(
        rt,
        move || -> Helper<J, D>
            requires { IsHelper W.does (stealer_deque thief.now) helper }
            ensures { IsHelper W.does (stealer_deque thief.entry.now) result }
        { help(rt, work, thief, helper) },
        move || -> (Caller<J, D>, Vec<Helper<J, D>>)
            requires { IsSync R.row × IsSync W.row × IsCrew W.does (stealer_deque thief.now) caller helpers back }
            ensures { IsCrewBack W.does (stealer_deque thief.entry.now) caller helpers back result }
        { crew(rt, work, thief, caller, helpers, back) },
    );
    back.push_reserved(helper);
    (caller, back)
}

/// All tasks in the deque done, in any order. In the end the calling thread has all parts and finds the
/// deque empty.
fn do_all<J: Drop + Send, D: Drop + Send, W: Work<J, D> + Sync, R: Threads + Wait + Sync>(
    rt: &R,
    work: &W,
    thief: &Thief<J>,
    caller: Caller<J, D>,
    helpers: Vec<Helper<J, D>>,
    back: Vec<Helper<J, D>>,
) -> Vec<Placed<D>>
    requires thief { stealer_deque thief.now ≡ worker_deque caller.owner }
    requires crew { IsCrew W.does (worker_deque caller.owner) caller helpers back }
    requires parts { (worker_view caller.owner).parts + vec_len helpers ≡ 1024 }
    requires back { back.items ≡ [] }
    ensures { AllDone W.does (worker_view caller.owner).pushed result.items }
{
    let (caller, back) = crew(rt, work, thief, caller, helpers, back);
    let caller = take_in::<J, D, W>(caller, back);
    let Caller { done, .. } = drain(rt, work, caller);
    done
}

/// The results of all jobs, done by so many workers: the calling thread and helpers. Where memory runs
/// out no job is done.
pub fn run<J: Drop + Send, D: Drop + Send, W: Work<J, D> + Sync, R: Threads + Wait + Sync>(
    rt: &R,
    alloc: Global,
    jobs: Vec<J>,
    workers: usize,
    work: &W,
) -> Result<Vec<D>, Vec<J>>
    requires { (0 < workers) × (workers ≤ 16) }
    ensures done { IfOk result (λ results. AllZip W.does jobs.items results.items) }
    ensures back { IfErr result (λ back. back.items ≡ jobs.items) }
{
    let count = jobs.len();
    if count > MOST_JOBS {
        return Err(jobs);
    }
    let Ok(owner) = Owner::<J>::fifo_as(alloc, count) else {
        return Err(jobs);
    };
    let Ok(stealer) = owner.stealer() else {
        return Err(jobs);
    };
    let Ok(done) = Vec::with_capacity(alloc, count) else {
        return Err(jobs);
    };
    let Ok(rack) = Rack::new(alloc, count) else {
        return Err(jobs);
    };
    let Ok((owner, helpers, back)) = hire::<J, D, W>(alloc, owner, workers - 1, count) else {
        return Err(jobs);
    };
    let owner = fill(owner, jobs);
    let caller = Caller { owner, done };
    let done = do_all(rt, work, &stealer, caller, helpers, back);
    Ok(rack.list(done))
}
