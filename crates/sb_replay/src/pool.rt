//! Jobs of sessions: each is a line that its session is called with.
ghost use Rattle.std.specs.Prelude.{◌≡◌, ◌<◌, ◌≤◌, IfErr, IfOk};
ghost use Rattle.std.specs.List.{AllZip};
ghost use Rattle.sb_replay.specs.Pool.{CallsOnce, IsDone};

use sb_desk::{CallError, Calling, Gate};
use sb_workers::{Work, run};
use std::alloc::Global;
use std::sync::Wait;
use std::thread::Threads;

/// A line that a session is to be called with.
#[derive(Drop)]
pub struct Job<S> {
    pub session: S,
    pub line: Vec<u8>,
}

/// A job that was done. Its answer is the session's last one.
#[derive(Drop)]
pub struct Done<S> {
    pub session: S,
    pub line: Vec<u8>,
    pub result: Result<(), CallError>,
}

/// Memory ran out before any job was begun.
#[derive(Drop)]
pub struct PoolError<S> {
    pub jobs: Vec<Job<S>>,
}

/// One call of the session, whose answer is then its last one.
fn call_once<S: Calling, G: Gate, R: Wait>(
    rt: &R,
    alloc: Global,
    session: &mut S,
    line: &[u8],
    gate: &G,
) -> Result<(), CallError>
    ensures { CallsOnce (S.seen session.old) line.now result (S.seen session.new) }
{
    session.step(rt, alloc, line, gate)
}

/// Jobs are done by calls, with this gate inside the cells' locks.
#[derive(Drop)]
struct Gated<'g, G> {
    alloc: Global,
    gate: &'g G,
}

impl<'g, S: Calling, G: Gate> Work<Job<S>, Done<S>> for Gated<'g, G> {
    ghost use Rattle.sb_replay.specs.Pool.{IsDone};

    ghost does = { IsDone S.seen };

    fn work<R: Wait>(&self, rt: &R, job: Job<S>) -> Done<S> {
        let Job { mut session, line } = job;
        let result = call_once(rt, self.alloc, &mut session, &line, self.gate);
        Done {
            session,
            line,
            result,
        }
    }
}

/// Workers for the calls of many sessions.
pub struct Pool;

impl Pool {
    /// Calls each job's session with its line, once, on so many threads: the calling one and others, as far as they can
    /// be started. Error: out of memory; the jobs are given back.
    pub fn run<S: Calling + Send, G: Gate + Sync, R: Threads + Wait + Sync>(
        rt: &R,
        alloc: Global,
        jobs: Vec<Job<S>>,
        workers: usize,
        gate: &G,
    ) -> Result<Vec<Done<S>>, PoolError<S>>
        requires workers { (0 < workers) × (workers ≤ 16) }
        ensures done { IfOk result (λ all. AllZip (IsDone S.seen) jobs.items all.items) }
        ensures back { IfErr result (λ e. e.jobs.items ≡ jobs.items) }
    {
        let gated = Gated { alloc, gate };
        match run(rt, alloc, jobs, workers, &gated) {
            Ok(done) => Ok(done),
            Err(jobs) => Err(PoolError { jobs }),
        }
    }
}
