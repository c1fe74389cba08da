//! What the workers of a server have counted, as pages show it.
ghost use Rattle.std.specs.Prelude.{IfOk};
ghost use Rattle.sb_status.specs.Pages.{IsPage};
ghost use Rattle.sb_status.specs.declared.text.Escaping.TheVariants as escaping;

use crate::refusal_names::refusal_name;
use crate::renewal_board::RenewalBoard;
use sb_server::{Cause, Count, LIMITS, ServerMetrics, SlowLine};
use sb_status::{
    Activity, Bucket, Histogram, HostNumbers, HostView, JournalNumbers, Refused, RenewalNumbers,
    Rollbacks, RunningStepView, SlowView, TenantNumbers, WorkerNumbers, host_page, metrics,
};
use std::alloc::{AllocError, Global};
use std::sync::Wait;

/// Nanoseconds.
const MICROSECOND: u64 = 1_000;

/// What was counted, copied from a board.
#[derive(Drop)]
pub(crate) struct Counted {
    workers: Vec<WorkerNumbers>,
    considerations: u64,
    rollbacks: Rollbacks,
    refusals: Vec<Refused>,
    renewals: RenewalNumbers,
    buckets: Vec<Bucket>,
    others: u64,
    micros: u64,
    slowest: Vec<SlowLine>,
}

/// A host with its tenants, and what was counted.
#[derive(Drop)]
pub(crate) struct Overview {
    pub(crate) tenants: Vec<TenantNumbers>,
    pub(crate) host: HostNumbers<'static>,
    pub(crate) counted: Counted,
    pub(crate) running: Vec<RunningStepView>,
    pub(crate) journal: Option<JournalNumbers>,
}

impl Overview {
    /// Its page.
    pub(crate) fn page(&self, alloc: Global) -> Result<Vec<u8>, AllocError>
        ensures { IfOk result (λ page. IsPage escaping.Html page.items) }
    {
        let slowest = self.counted.slowest(alloc)?;
        host_page(alloc, self.view(slowest.as_slice()))
    }

    /// Its samples.
    pub(crate) fn samples(&self, alloc: Global) -> Result<Vec<u8>, AllocError>
        ensures { IfOk result (λ samples. IsPage escaping.Label samples.items) }
    {
        metrics(alloc, self.view(&[]))
    }

    /// All of it, with these lines.
    fn view<'v>(&'v self, slowest: &'v [SlowView<'v>]) -> HostView<'v> {
        HostView {
            host: self.host,
            activity: Activity {
                workers: self.counted.workers.as_slice(),
                considerations: self.counted.considerations,
                rollbacks: self.counted.rollbacks,
                refusals: self.counted.refusals.as_slice(),
                renewals: self.counted.renewals,
                times: self.counted.times(),
                slowest,
                running: self.running.as_slice(),
                journal: self.journal,
            },
            tenants: self.tenants.as_slice(),
        }
    }
}

impl Counted {
    pub(crate) fn read<T: Wait>(
        rt: &T,
        alloc: Global,
        server_metrics: &ServerMetrics,
        renewal_board: &RenewalBoard,
    ) -> Result<Counted, AllocError> {
        let mut counted = Counted {
            workers: Vec::new(alloc),
            considerations: server_metrics.count(Count::Considerations),
            rollbacks: rollbacks_of(server_metrics),
            refusals: Vec::new(alloc),
            renewals: RenewalNumbers {
                done: renewal_board.done(),
                failed: renewal_board.failed(),
            },
            buckets: Vec::new(alloc),
            others: server_metrics.count(Count::Step(LIMITS.len())),
            micros: server_metrics.count(Count::Steps) / MICROSECOND,
            slowest: server_metrics.slowest(rt, alloc)?,
        };
        match counted.fill(server_metrics) {
            Ok(()) => Ok(counted),
            Err(error) => Err(error),
        }
    }

    /// Adds what there may be more of.
    fn fill(&mut self, server_metrics: &ServerMetrics) -> Result<(), AllocError> {
        add_workers(&mut self.workers, server_metrics)?;
        add_refusals(&mut self.refusals, server_metrics)?;
        add_buckets(&mut self.buckets, server_metrics)
    }

    /// The lines that took longest.
    fn slowest(&self, alloc: Global) -> Result<Vec<SlowView<'_>>, AllocError> {
        let mut views = Vec::new(alloc);
        for line in self.slowest.as_slice() {
            views.push(SlowView {
                tenant: u64::from(line.named.tenant),
                session: u64::from(line.named.session),
                micros: line.nanos / MICROSECOND,
                line: line.text(),
            })?;
        }
        Ok(views)
    }

    /// How long lines took.
    fn times(&self) -> Histogram<'_> {
        Histogram {
            buckets: self.buckets.as_slice(),
            others: self.others,
            micros: self.micros,
        }
    }
}

fn add_workers(
    workers: &mut Vec<WorkerNumbers>,
    server_metrics: &ServerMetrics,
) -> Result<(), AllocError> {
    for place in 0..server_metrics.places() {
        // what has ended is read first, so that it is never more than what began
        let closed = server_metrics.count_at(place, Count::Closed);
        workers.push(WorkerNumbers {
            taken: server_metrics.count_at(place, Count::Connections),
            closed,
            lines: server_metrics.count_at(place, Count::Lines),
            busy: server_metrics.count_at(place, Count::Busy) / MICROSECOND,
        })?;
    }
    Ok(())
}

fn rollbacks_of(server_metrics: &ServerMetrics) -> Rollbacks {
    Rollbacks {
        command: server_metrics.count(Count::Rollback(Cause::Command)),
        rule: server_metrics.count(Count::Rollback(Cause::Rule)),
        error: server_metrics.count(Count::Rollback(Cause::Error)),
        limit: server_metrics.count(Count::Rollback(Cause::Limit)),
        end: server_metrics.count(Count::Rollback(Cause::End)),
    }
}

/// Those that were given.
fn add_refusals(
    refusals: &mut Vec<Refused>,
    server_metrics: &ServerMetrics,
) -> Result<(), AllocError> {
    for number in 0..=u8::MAX {
        let count = server_metrics.count(Count::Refusal(number));
        if count > 0 {
            refusals.push(Refused {
                number: u64::from(number),
                name: refusal_name(number),
                count,
            })?;
        }
    }
    Ok(())
}

fn add_buckets(
    buckets: &mut Vec<Bucket>,
    server_metrics: &ServerMetrics,
) -> Result<(), AllocError> {
    for (place, limit) in LIMITS.iter().enumerate() {
        buckets.push(Bucket {
            micros: *limit / MICROSECOND,
            count: server_metrics.count(Count::Step(place)),
        })?;
    }
    Ok(())
}
