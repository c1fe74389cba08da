//! What a server has counted, as samples of Prometheus.

use crate::activity::{causes, write_seconds};
use crate::fragment::Fragment;
use crate::markup::Markup;
use crate::page::Page;
use crate::view::{Activity, Histogram, JournalNumbers, Refused, Rollbacks, WorkerNumbers};
use std::alloc::AllocError;

/// The numbers that each worker has: the head of their family, and their samples.
const FAMILIES: [(Markup, Markup); 4] = [
    (Markup::WorkerTakenFamily, Markup::WorkerTakenSample),
    (Markup::WorkerOpenFamily, Markup::WorkerOpenSample),
    (Markup::WorkerLinesFamily, Markup::WorkerLinesSample),
    (Markup::WorkerBusyFamily, Markup::WorkerBusySample),
];

/// The marks of the sample of a cause.
const CAUSE: [Markup; 3] = [Markup::RollbacksSample, Markup::SampleEnd, Markup::NewLine];

/// Writes all that was counted.
pub(crate) fn write_activity(
    page: &mut Page<'_>,
    activity: Activity<'_>,
) -> Result<(), AllocError> {
    page.counts(&[
        (Markup::ConsiderationsSample, activity.considerations),
        (Markup::RenewalsSample, activity.renewals.done),
        (Markup::RenewalsFailedSample, activity.renewals.failed),
    ])?;
    if let Some(journal) = activity.journal {
        write_journal(page, journal)?;
    }
    page.mark(Markup::NewLine)?;
    write_rollbacks(page, activity.rollbacks)?;
    write_refusals(page, activity.refusals)?;
    write_times(page, activity.times)?;
    for family in &FAMILIES {
        write_family(page, *family, activity.workers)?;
    }
    Ok(())
}

fn write_journal(page: &mut Page<'_>, journal: JournalNumbers) -> Result<(), AllocError> {
    page.count(Markup::JournalCommitsSample, journal.commits)?;
    page.mark(Markup::JournalSecondsSample)?;
    write_seconds(page, journal.micros)?;
    page.counts(&[
        (Markup::JournalAgeSample, journal.age),
        (Markup::JournalRoomSample, u64::from(journal.lacks_room)),
    ])
}

fn write_rollbacks(page: &mut Page<'_>, rollbacks: Rollbacks) -> Result<(), AllocError> {
    page.mark(Markup::RollbacksFamily)?;
    for (cause, count) in causes(rollbacks).as_slice() {
        page.pair(CAUSE, Fragment::Text(cause.as_bytes()), *count)?;
    }
    Ok(())
}

fn write_refusals(page: &mut Page<'_>, refusals: &[Refused]) -> Result<(), AllocError> {
    if refusals.is_empty() {
        return Ok(());
    }
    page.mark(Markup::RefusalsFamily)?;
    for refused in refusals {
        page.count(Markup::RefusalsSample, refused.number)?;
        page.mark(Markup::NameLabel)?;
        page.text(refused.name.as_bytes())?;
        page.count(Markup::SampleEnd, refused.count)?;
        page.mark(Markup::NewLine)?;
    }
    Ok(())
}

/// Writes how many lines took no longer than each limit.
fn write_times(page: &mut Page<'_>, times: Histogram<'_>) -> Result<(), AllocError> {
    page.mark(Markup::TimesFamily)?;
    let mut count: u64 = 0;
    for bucket in times.buckets {
        count = count.saturating_add(bucket.count);
        page.mark(Markup::TimesBucket)?;
        write_seconds(page, bucket.micros)?;
        page.count(Markup::SampleEnd, count)?;
        page.mark(Markup::NewLine)?;
    }
    count = count.saturating_add(times.others);
    page.mark(Markup::TimesBucket)?;
    page.text(b"+Inf")?;
    page.count(Markup::SampleEnd, count)?;
    page.mark(Markup::NewLine)?;
    page.mark(Markup::TimesSum)?;
    write_seconds(page, times.micros)?;
    page.mark(Markup::NewLine)?;
    page.count(Markup::TimesCount, count)?;
    page.mark(Markup::NewLine)
}

/// Writes the samples of a family, one for each worker. The last one is the door.
fn write_family(
    page: &mut Page<'_>,
    family: (Markup, Markup),
    workers: &[WorkerNumbers],
) -> Result<(), AllocError> {
    let (head, sample) = family;
    page.mark(head)?;
    for (place, worker) in workers.iter().enumerate() {
        page.mark(sample)?;
        if place + 1 == workers.len() {
            page.mark(Markup::Door)?;
        } else {
            page.number(place as u64)?;
        }
        page.mark(Markup::SampleEnd)?;
        write_number(page, sample, *worker)?;
        page.mark(Markup::NewLine)?;
    }
    Ok(())
}

fn write_number(
    page: &mut Page<'_>,
    sample: Markup,
    worker: WorkerNumbers,
) -> Result<(), AllocError> {
    match sample {
        Markup::WorkerTakenSample => page.number(worker.taken),
        Markup::WorkerOpenSample => page.number(worker.taken.saturating_sub(worker.closed)),
        Markup::WorkerLinesSample => page.number(worker.lines),
        _ => write_seconds(page, worker.busy),
    }
}
