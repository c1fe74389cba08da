//! What a server has counted, on its page.

use crate::fragment::Fragment;
use crate::markup::Markup;
use crate::page::Page;
use crate::view::{Activity, Refused, Rollbacks, RunningStepView, SlowView, WorkerNumbers};
use sb_host::RunningConsideration;
use std::alloc::AllocError;

/// The marks of a row of two cells.
const ROW: [Markup; 3] = [Markup::Row, Markup::NumberCell, Markup::RowEnd];

/// Microseconds.
const SECOND: u64 = 1_000_000;

/// Writes the sums of what all workers have counted.
pub(crate) fn write_sums(page: &mut Page<'_>, activity: Activity<'_>) -> Result<(), AllocError> {
    page.counts(&[
        (Markup::FactLines, lines_of(activity.workers)),
        (Markup::FactConsiderations, activity.considerations),
        (Markup::FactRollbacks, rollbacks_of(activity.rollbacks)),
        (Markup::FactRefusals, refusals_of(activity.refusals)),
        (Markup::FactRenewals, activity.renewals.done),
    ])
}

fn lines_of(workers: &[WorkerNumbers]) -> u64 {
    let mut sum: u64 = 0;
    for worker in workers {
        sum = sum.saturating_add(worker.lines);
    }
    sum
}

fn rollbacks_of(rollbacks: Rollbacks) -> u64 {
    rollbacks
        .command
        .saturating_add(rollbacks.rule)
        .saturating_add(rollbacks.error)
        .saturating_add(rollbacks.limit)
        .saturating_add(rollbacks.end)
}

fn refusals_of(refusals: &[Refused]) -> u64 {
    let mut sum: u64 = 0;
    for refused in refusals {
        sum = sum.saturating_add(refused.count);
    }
    sum
}

/// Writes seconds with six places behind the point.
pub(crate) fn write_seconds(page: &mut Page<'_>, micros: u64) -> Result<(), AllocError> {
    page.number(micros / SECOND)?;
    page.mark(Markup::Point)?;
    page.number(micros / 100_000 % 10)?;
    page.number(micros / 10_000 % 10)?;
    page.number(micros / 1_000 % 10)?;
    page.number(micros / 100 % 10)?;
    page.number(micros / 10 % 10)?;
    page.number(micros % 10)
}

/// Writes what the workers have done. The last one is the door.
pub(crate) fn write_workers(
    page: &mut Page<'_>,
    workers: &[WorkerNumbers],
) -> Result<(), AllocError> {
    page.mark(Markup::WorkersHead)?;
    for (place, worker) in workers.iter().enumerate() {
        write_worker(page, place, place + 1 == workers.len(), *worker)?;
    }
    page.mark(Markup::TableEnd)
}

fn write_worker(
    page: &mut Page<'_>,
    place: usize,
    is_door: bool,
    worker: WorkerNumbers,
) -> Result<(), AllocError> {
    if is_door {
        page.mark(Markup::DoorCell)?;
    } else {
        page.count(Markup::Row, place as u64)?;
    }
    page.cells(&[
        worker.taken.saturating_sub(worker.closed),
        worker.taken,
        worker.lines,
    ])?;
    page.mark(Markup::NumberCell)?;
    write_seconds(page, worker.busy)?;
    page.mark(Markup::RowEnd)
}

/// Writes rollbacks by what did them.
pub(crate) fn write_rollbacks(page: &mut Page<'_>, rollbacks: Rollbacks) -> Result<(), AllocError> {
    page.mark(Markup::CausesHead)?;
    for (cause, count) in causes(rollbacks).as_slice() {
        page.pair(ROW, Fragment::Text(cause.as_bytes()), *count)?;
    }
    page.mark(Markup::TableEnd)
}

/// What rolls back, and how often it did.
pub(crate) fn causes(rollbacks: Rollbacks) -> [(&'static str, u64); 5] {
    [
        ("command", rollbacks.command),
        ("rule", rollbacks.rule),
        ("error", rollbacks.error),
        ("limit", rollbacks.limit),
        ("end", rollbacks.end),
    ]
}

/// Writes how often each refusal was given, if some were.
pub(crate) fn write_refusals(page: &mut Page<'_>, refusals: &[Refused]) -> Result<(), AllocError> {
    if refusals.is_empty() {
        return Ok(());
    }
    page.mark(Markup::RefusalsHead)?;
    for refused in refusals {
        page.count(Markup::Row, refused.number)?;
        page.mark(Markup::Cell)?;
        page.text(refused.name.as_bytes())?;
        page.count(Markup::NumberCell, refused.count)?;
        page.mark(Markup::RowEnd)?;
    }
    page.mark(Markup::TableEnd)
}

/// Writes the lines that took longest, if there are some.
pub(crate) fn write_slowest<'v>(
    page: &mut Page<'v>,
    lines: &'v [SlowView<'v>],
) -> Result<(), AllocError> {
    if lines.is_empty() {
        return Ok(());
    }
    page.mark(Markup::SlowestHead)?;
    for line in lines {
        page.count(Markup::Row, line.tenant)?;
        page.count(Markup::Cell, line.session)?;
        page.mark(Markup::NumberCell)?;
        write_seconds(page, line.micros)?;
        page.mark(Markup::PreCell)?;
        page.text(line.line)?;
        page.mark(Markup::PreRowEnd)?;
    }
    page.mark(Markup::TableEnd)
}

/// Writes the steps that run for long, if there are some.
pub(crate) fn write_running<'v>(
    page: &mut Page<'v>,
    steps: &'v [RunningStepView],
) -> Result<(), AllocError> {
    if steps.is_empty() {
        return Ok(());
    }
    page.mark(Markup::RunningHead)?;
    for step in steps {
        page.count(Markup::TenantLink, step.tenant)?;
        page.count(Markup::LinkText, step.tenant)?;
        page.mark(Markup::LinkEnd)?;
        page.count(Markup::Cell, step.session)?;
        page.cells(&[step.seconds, step.considered])?;
        write_consideration(page, &step.newest)?;
    }
    page.mark(Markup::TableEnd)
}

/// Writes the cells of a rule and of its line, which are empty where there is no consideration.
fn write_consideration<'v>(
    page: &mut Page<'v>,
    newest: &'v Option<RunningConsideration>,
) -> Result<(), AllocError> {
    page.mark(Markup::Cell)?;
    if let Some(consideration) = newest {
        page.text(consideration.rule.as_slice())?;
    }
    page.mark(Markup::PreCell)?;
    if let Some(consideration) = newest {
        page.text(consideration.line.as_slice())?;
    }
    page.mark(Markup::PreRowEnd)
}
