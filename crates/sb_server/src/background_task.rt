//! Jobs in threads of their own, and what the thread that began them does meanwhile.
ghost use Rattle.std.specs.Prelude.{◌≡◌, ◌++◌, ◌∷◌, [], IfOk, Ok, Vec};
ghost use Rattle.std.specs.Global.{Global as ItsGlobal};
ghost use Rattle.std.specs.List.{AllZip};
ghost use Rattle.std.specs.Thread.{IsSend, IsSync};

use sb_workers::Work;
use std::alloc::{AllocError, Global};
use std::sync::Wait;
use std::sync::atomic::{AtomicUsize, Ordering};
use std::thread::{self, Parker, Threads};
use std::time::Duration;

/// The period of a background task, in milliseconds.
const PERIOD: u64 = 1_000;

/// A background task waits for the first job for so many periods.
const LOOKS: usize = 10;

/// More than the jobs of a server. The count of those that have begun is at least this where they begin too late.
const TOO_LATE: usize = 1 << 32;

/// How many jobs have begun, and how many still run. A background task waits for their end. Where a thread can't be
/// started, its job waits for the end of the background task.
#[derive(Drop)]
pub struct ShutdownSignal {
    jobs: usize,
    begun: AtomicUsize,
    left: AtomicUsize,
    /// How many periods the background task has waited.
    looks: AtomicUsize,
    parker: Parker,
}

impl ShutdownSignal {
    /// A signal for this number of jobs.
    pub(crate) fn new(jobs: usize) -> ShutdownSignal
        ensures { result.jobs ≡ jobs }
    {
        ShutdownSignal {
            jobs,
            begun: AtomicUsize::new(0),
            left: AtomicUsize::new(jobs),
            looks: AtomicUsize::new(0),
            parker: Parker::new(),
        }
    }

    /// Notes that a job begins.
    fn arrive(&self) {
        self.begun.fetch_add(1, Ordering::SeqCst);
    }

    /// True if all jobs have begun in time.
    pub(crate) fn are_all_here(&self) -> bool {
        self.begun.load(Ordering::SeqCst) == self.jobs
    }

    /// True if no job had begun when the background task gave them up.
    pub(crate) fn is_too_late(&self) -> bool {
        self.begun.load(Ordering::SeqCst) >= TOO_LATE
    }

    /// Notes that a job has ended.
    fn leave(&self) {
        self.left.fetch_sub(1, Ordering::SeqCst);
        if !self.goes_on() {
            self.parker.unpark();
        }
    }

    /// Waits at most a period. False if no job runs any more, or if one lacks its thread.
    pub fn lasts<R: Wait>(&self, rt: &R) -> bool {
        if self.goes_on() {
            self.parker.park_timeout(rt, Duration::from_millis(PERIOD));
        }
        self.note_look();
        self.goes_on()
    }

    /// Gives the jobs up if none has begun for too long. Those that begin later know it.
    fn note_look(&self) {
        if self.looks.fetch_add(1, Ordering::SeqCst) >= LOOKS {
            let _or_one_has_begun = self
                .begun
                .compare_exchange(0, TOO_LATE, Ordering::SeqCst, Ordering::SeqCst);
        }
    }

    /// True if all jobs run, or may still begin. Jobs wait for each other before they serve, so where one ends and
    /// another hasn't begun, that one lacks its thread.
    fn goes_on(&self) -> bool {
        let left = self.left.load(Ordering::SeqCst);
        left > 0 && (self.are_all_here() || (left == self.jobs && !self.is_too_late()))
    }
}

/// What the thread that started a server does while other threads serve.
pub trait BackgroundTask {
    /// Runs until the server has ended, or lacks a thread: as long as the signal lasts.
    fn run<R: Wait>(&self, rt: &R, over: &ShutdownSignal);
}

/// No background task.
pub struct NoBackgroundTask;

impl BackgroundTask for NoBackgroundTask {
    fn run<R: Wait>(&self, _rt: &R, _over: &ShutdownSignal) {}
}

/// Runs each job in a thread of its own, and a background task in this one. Each thread is sent one job, since nothing
/// can be proved of a thread that starts others for what it was sent.
pub(crate) fn run_beside<
    J: Drop + Send,
    D: Drop + Send,
    W: Work<J, D> + Sync,
    G: BackgroundTask,
    R: Threads + Wait + Sync,
>(
    rt: &R,
    alloc: Global,
    mut jobs: Vec<J>,
    work: &W,
    background_task: &G,
    over: &ShutdownSignal,
) -> Result<Vec<D>, AllocError>
    ensures { IfOk result (λ results. AllZip W.does jobs.items results.items) }
{
    let Some(job) = jobs.pop() else {
        background_task.run(rt, over);
        return Ok(Vec::new(alloc));
    };
    let (last, others) = thread::join(
        rt,
        move || -> D
            requires { IsSync R.row × IsSync W.row }
            ensures { W.does job result }
        {
            over.arrive();
            let done = work.work(rt, job);
            over.leave();
            done
        },
        move || -> Result<Vec<D>, AllocError>
            requires { IsSync R.row × IsSync W.row × IsSend J.row × IsSend D.row }
            ensures { IfOk result (λ results. AllZip W.does jobs.items results.items) }
        { run_beside(rt, alloc, jobs, work, background_task, over) },
    );
    with_last(others, last)
}

/// These results with one more behind them.
fn with_last<D: Drop>(others: Result<Vec<D>, AllocError>, last: D) -> Result<Vec<D>, AllocError>
    ensures { IfOk result (λ all. (front : Vec D ItsGlobal)
        × (others ≡ Ok front) × (all.items ≡ front.items ++ last ∷ [])) }
{
    let mut all = others?;
    all.push(last)?;
    Ok(all)
}
