//! What is done with a job.
ghost use Rattle.sb_workers.specs.Results.{IsDone};

use std::sync::Wait;

/// How jobs are done.
pub trait Work<J, D> {
    ghost does: { J → D → Type 0 };

    fn work<R: Wait>(&self, rt: &R, job: J) -> D
        ensures { does job result };
}

/// A job or its result, with the job's place among all jobs.
#[derive(Drop)]
pub struct Placed<T: Drop> {
    pub place: usize,
    pub item: T,
}

/// The result of a job, at the job's place.
pub(crate) fn done_at<J: Drop, D: Drop, W: Work<J, D>, R: Wait>(
    rt: &R,
    work: &W,
    task: Placed<J>,
) -> Placed<D>
    ensures { IsDone W.does task result }
{
    let Placed { place, item } = task;
    Placed {
        place,
        item: work.work(rt, item),
    }
}
