//! What is counted and timed of the lines of a connection.

use crate::counts::{Cause, Count};
use crate::server_metrics::ServerMetrics;
use sb_connection::{Answered, ConnectionEvent, Said, SessionName, Slow, Watch};
use sb_desk::AttachError;
use sb_tenant::Reply;
use sb_value::Refusal;
use sb_wire::WireRefusal;
use std::cell::Cell;
use std::rt::Clock;
use std::sync::Wait;
use std::time::{Duration, Instant};

/// Where a worker counts, and who is told of slow lines.
#[derive(Drop)]
pub(crate) struct MetricsContext<'w, V, C> {
    pub(crate) watch: &'w V,
    pub(crate) clock: &'w C,
    pub(crate) server_metrics: &'w ServerMetrics,
    /// The worker's.
    pub(crate) place: usize,
    /// A line that takes so long is slow.
    pub(crate) slow: Option<Duration>,
    /// When the worker woke, if lines are timed.
    pub(crate) woke: Option<Instant>,
}

/// Hears what the lines of the client at a port are answered.
#[derive(Drop)]
pub(crate) struct ReplyMetrics<'e, 'w, V, C> {
    metrics_context: &'e MetricsContext<'w, V, C>,
    port: u16,
    /// When the line that is answered next began.
    since: Cell<Option<Instant>>,
    /// When the turn of the connection began, if the system told it.
    began: Option<Instant>,
}

impl<'e, 'w, V: Watch, C: Clock> ReplyMetrics<'e, 'w, V, C> {
    pub(crate) fn new(
        metrics_context: &'e MetricsContext<'w, V, C>,
        port: u16,
    ) -> ReplyMetrics<'e, 'w, V, C> {
        let since = match metrics_context.woke {
            // where steps are counted by their times, what was done before isn't theirs
            Some(_) if metrics_context.server_metrics.is_set() => Instant::now(
                metrics_context.clock,
            ).ok(),
            woke => woke,
        };
        ReplyMetrics {
            metrics_context,
            port,
            since: Cell::new(since),
            began: Instant::now(metrics_context.clock).ok(),
        }
    }

    /// How many nanoseconds have gone by since the last line was answered, if lines are timed.
    fn lap(&self) -> Option<u64> {
        let since = self.since.get()?;
        let Ok(now) = Instant::now(self.metrics_context.clock) else {
            return None;
        };
        self.since.set(Some(now));
        u64::try_from(now.duration_since(since).as_nanos()).ok()
    }

    fn add(&self, what: Count, more: u64) {
        self.metrics_context
            .server_metrics
            .add(self.metrics_context.place, what, more);
    }

    /// Counts what a line was answered.
    fn count(&self, answered: Answered<'_>) {
        self.add(Count::Lines, 1);
        match answered.said {
            Said::Refusal(why) => self.add(Count::Refusal(why.number()), 1),
            Said::Reply(Reply::No(why)) => self.add(Count::Refusal(why.number()), 1),
            Said::Reply(reply) => self.count_reply(answered, reply),
        }
    }

    /// Counts the considerations of a reply, and a rollback.
    fn count_reply(&self, answered: Answered<'_>, reply: &Reply) {
        match reply {
            Reply::Done(trace) => self.add(Count::Considerations, trace.as_slice().len() as u64),
            Reply::ByRule(_, trace) => self.count_rollback(Cause::Rule, trace.as_slice().len()),
            Reply::ByError(_, _, trace) => self.count_rollback(
                Cause::Error,
                trace.as_slice().len(),
            ),
            Reply::ByLimit(trace) => self.count_rollback(Cause::Limit, trace.as_slice().len()),
            Reply::Ok if answered.transacted && !answered.transacts => {
                self.count_rollback(Cause::Command, 0);
            }
            _ => {}
        }
    }

    fn count_rollback(&self, cause: Cause, considered: usize) {
        self.add(Count::Considerations, considered as u64);
        self.add(Count::Rollback(cause), 1);
    }

    /// Notes that a session has just been answered.
    fn note_last(&self, named: SessionName) {
        if let Some(now) = self.since.get() {
            self.metrics_context.server_metrics.note_last(named, now);
        }
    }

    /// Notes how long a line took, and tells of a slow one.
    fn note_time<T: Wait>(&self, rt: &T, answered: Answered<'_>, nanos: u64) {
        if self.metrics_context.server_metrics.is_set() {
            self.add(Count::of_step(nanos), 1);
            self.add(Count::Steps, nanos);
            self.metrics_context
                .server_metrics
                .note_line(rt, answered.named, answered.line(), nanos);
            self.note_last(answered.named);
        }
        let Some(slow) = self.metrics_context.slow else {
            return;
        };
        if u128::from(nanos) >= slow.as_nanos() {
            let slow = Slow {
                named: answered.named,
                line: answered.line(),
                millis: nanos / NANOS,
            };
            self.metrics_context.watch.on_slow_line(self.port, slow);
        }
    }
}

/// The turn of a connection ends after so many milliseconds.
const TURN: u64 = 2;

/// The nanoseconds of a millisecond.
const NANOS: u64 = 1_000_000;

/// The number of the refusal that a first line is answered, if it is.
fn refusal_of(event: &ConnectionEvent) -> Option<u8> {
    match event {
        ConnectionEvent::Unnamed(why) => Some(why.number()),
        ConnectionEvent::Barred(_) => Some(WireRefusal::BadKey.number()),
        ConnectionEvent::TurnedAway { why, .. } => Some(match why {
            AttachError::NoTenant => WireRefusal::NoTenant.number(),
            AttachError::NoSession => WireRefusal::NoSession.number(),
            AttachError::AlreadyOpen => Refusal::AlreadyOpen.number(),
            AttachError::TrailFull => Refusal::TrailFull.number(),
            AttachError::NotBegun => WireRefusal::NotBegun.number(),
        }),
        _ => None,
    }
}

impl<'e, 'w, V: Watch, C: Clock> Watch for ReplyMetrics<'e, 'w, V, C> {
    fn on_event(&self, event: ConnectionEvent) {
        if let Some(number) = refusal_of(&event) {
            self.add(Count::Refusal(number), 1);
        }
        if let ConnectionEvent::Attached(named) = event {
            self.note_last(named);
        }
        self.metrics_context.watch.on_client_event(self.port, event);
    }

    fn on_client_event(&self, port: u16, event: ConnectionEvent) {
        self.metrics_context.watch.on_client_event(port, event);
    }

    fn on_reply<T: Wait>(&self, rt: &T, answered: Answered<'_>) {
        if self.metrics_context.server_metrics.is_set() {
            self.count(answered);
        }
        if let Some(nanos) = self.lap() {
            self.note_time(rt, answered, nanos);
        }
    }

    fn on_slow_line(&self, port: u16, slow: Slow<'_>) {
        self.metrics_context.watch.on_slow_line(port, slow);
    }

    fn is_turn_over(&self) -> bool {
        let (Some(began), Ok(now)) = (self.began, Instant::now(self.metrics_context.clock)) else {
            return false;
        };
        now.duration_since(began) >= Duration::from_millis(TURN)
    }
}
