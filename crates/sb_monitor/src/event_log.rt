//! What an operator reads on standard error.

use crate::session_board::SessionBoard;
use jiff::Timestamp;
use libc::net as system;
use libc::types::pollfd;
use log::sink::Console;
use log::{Level, LevelFilter, Logged, log};
use sb_server::{Answered, ConnectionEvent, Slow, Watch};
use sb_words::{Log, Severity};
use std::fmt::Display;
use std::rt::Clock;
use std::sync::Wait;
use std::sync::atomic::{AtomicU64, Ordering};
use std::time::Instant;

const STANDARD_ERROR: i32 = 2;

/// The most bytes of a slow line that are logged.
const MOST_TOLD: usize = 200;

/// Writes a line with its time to standard error for each event that is severe enough. If standard error would block,
/// the line is dropped and counted, so that no thread waits for a reader.
#[derive(Drop)]
pub struct EventLog<'r, T> {
    rt: &'r T,
    least: Severity,
    dropped: AtomicU64,
    /// The second in which a slow line was logged last, counted from the start.
    slow: AtomicU64,
    /// How many slow lines were left out since.
    untold: AtomicU64,
    began: Option<Instant>,
    /// Where the sessions of its clients are counted.
    session_board: Option<&'r SessionBoard>,
}

impl<'r, T: Eprint + Clock> EventLog<'r, T> {
    /// A log of what is as severe as this.
    pub fn new(rt: &'r T, least: Severity) -> EventLog<'r, T> {
        EventLog::of(rt, least, None)
    }

    /// The log of a server whose clients' sessions are counted here.
    pub fn of_server(
        rt: &'r T,
        least: Severity,
        session_board: &'r SessionBoard,
    ) -> EventLog<'r, T> {
        EventLog::of(rt, least, Some(session_board))
    }

    fn of(rt: &'r T, least: Severity, session_board: Option<&'r SessionBoard>) -> EventLog<'r, T> {
        EventLog {
            rt,
            least,
            dropped: AtomicU64::new(0),
            slow: AtomicU64::new(0),
            untold: AtomicU64::new(0),
            began: Instant::now(rt).ok(),
            session_board,
        }
    }

    /// The system.
    pub(crate) fn rt(&self) -> &'r T {
        self.rt
    }

    /// Counts what happened to a client, and returns what its line says besides.
    fn count(&self, event: &ConnectionEvent) -> &'static str {
        let Some(session_board) = self.session_board else {
            return "";
        };
        session_board.note(event);
        if session_board.lacks_sessions(event) {
            ", as all eight sessions are open"
        } else {
            ""
        }
    }

    /// True if no slow line was logged in this second yet.
    fn may_tell_slow(&self) -> bool {
        let second = match (self.began, Instant::now(self.rt)) {
            (Some(began), Ok(now)) => now.duration_since(began).as_secs().saturating_add(1),
            _ => u64::MAX,
        };
        self.slow.swap(second, Ordering::SeqCst) != second
    }

    fn write_now<D: Display>(&self, level: Level, text: &D) {
        let log = Logged::new(self.rt, LevelFilter::Info, Console(self.rt));
        match Timestamp::now(self.rt) {
            Ok(now) => log!(log; target: "starhost", level, "{now:.3} {text}"),
            Err(_) => log!(log; target: "starhost", level, "{text}"),
        }
    }
}

impl<'r, T: Eprint + Clock> Log for EventLog<'r, T> {
    /// Writes a line if it is severe enough and standard error takes it. The number of dropped lines is written before
    /// it.
    fn write<D: Display>(&self, severity: Severity, text: &D) {
        if !severity.is_told_at(self.least) {
            return;
        }
        if !has_room() {
            self.dropped.fetch_add(1, Ordering::SeqCst);
            return;
        }
        let dropped = self.dropped.swap(0, Ordering::SeqCst);
        if dropped > 0 {
            self.write_now(Level::Warn, &format_args!("{dropped} lines were dropped"));
        }
        self.write_now(level_of(severity), text);
    }
}

impl<'r, T: Eprint + Clock> Watch for EventLog<'r, T> {
    fn on_event(&self, event: ConnectionEvent) {
        self.write(severity_of(&event), &event);
    }

    fn on_client_event(&self, port: u16, event: ConnectionEvent) {
        let remark = self.count(&event);
        self.write(
            severity_of(&event),
            &format_args!("port {port}: {event}{remark}"),
        );
    }

    fn is_turn_over(&self) -> bool {
        false
    }

    fn on_reply<R: Wait>(&self, _rt: &R, _answered: Answered<'_>) {}

    /// Logs at most one slow line a second, with the number of those left out since.
    fn on_slow_line(&self, port: u16, slow: Slow<'_>) {
        if !self.may_tell_slow() {
            self.untold.fetch_add(1, Ordering::SeqCst);
            return;
        }
        let untold = self.untold.swap(0, Ordering::SeqCst);
        if untold > 0 {
            self.write(
                Severity::Warning,
                &format_args!("{untold} slow lines more weren't told"),
            );
        }
        let Slow {
            named,
            line,
            millis,
        } = slow;
        let text = line[..line.len().min(MOST_TOLD)].escape_ascii();
        self.write(
            Severity::Warning,
            &format_args!("port {port}: slow: {named}: {millis} ms: {text}"),
        );
    }
}

fn severity_of(event: &ConnectionEvent) -> Severity {
    if event.is_warning() {
        Severity::Warning
    } else {
        Severity::Info
    }
}

fn level_of(severity: Severity) -> Level {
    match severity {
        Severity::Error => Level::Error,
        Severity::Warning => Level::Warn,
        Severity::Info => Level::Info,
    }
}

/// True if standard error takes a line without blocking. A pipe with room has enough for a line of each worker.
fn has_room() -> bool {
    let mut waits = [pollfd {
        fd: STANDARD_ERROR,
        events: system::POLLOUT,
        revents: 0,
    }];
    system::poll(&mut waits, 0) > 0
}
