//! Where connections come in: the listener, and how many are taken.
ghost use Rattle.std.specs.Prelude.{◌≡◌, ◌⊎◌, ◌↔◌, ◌==◌, if◌then◌else◌, false, is_some, IsSome, IsTrue, None, Some};
ghost use Rattle.sb_server.specs.Doors.{StandsOpen, one_less};

use libc::net as system;
use sb_connection::{ConnectionEvent, Watch};
use std::io::{self, ErrorKind};
use std::net::{TcpListener, TcpStream};
use std::os::fd::AsRawFd;
use std::time::{Duration, Instant};

/// After a fault the listener is tried again in so many milliseconds, and in twice as many after each further one.
const FIRST_PAUSE: u64 = 10;

const LONGEST_PAUSE: u64 = 1_000;

/// Numbers of the system: no descriptor is left to the process, or to the system.
const EMFILE: i32 = 24;

const ENFILE: i32 = 23;

/// The most connections that wait at the listener.
const BACKLOG: i32 = 4_096;

/// An accepted client.
#[derive(Drop)]
pub(crate) struct Client {
    pub(crate) stream: TcpStream,
    pub(crate) port: u16,
}

/// The listener with its state.
#[derive(Drop)]
pub(crate) struct Door<'s> {
    listener: &'s TcpListener,
    /// How many more connections are accepted. None: any number.
    left: Option<u64>,
    /// A connection may wait.
    is_due: bool,
    /// The last accept found no descriptor.
    is_short: bool,
    /// The last accept failed.
    fault: Option<Pause>,
}

/// The pause after a failed accept.
#[derive(Clone, Copy)]
struct Pause {
    since: Option<Instant>,
    millis: u64,
}

impl<'s> Door<'s> {
    /// A listener that accepts so many connections, or any number if `count` is 0.
    pub(crate) fn new(listener: &'s TcpListener, count: u64) -> Door<'s>
        ensures { result.left ≡ (if count == 0 then None else Some count) }
    {
        Door {
            listener,
            left: if count == 0 { None } else { Some(count) },
            is_due: true,
            is_short: false,
            fault: None,
        }
    }

    /// The listener's descriptor.
    pub(crate) fn descriptor(&self) -> i32 {
        self.listener.as_raw_fd()
    }

    /// True if one more connection is to be taken.
    pub(crate) fn is_open(&self) -> bool
        ensures { IsTrue result ↔ StandsOpen self.now.left }
    {
        match self.left {
            Some(left) => left > 0,
            None => true,
        }
    }

    /// Accepts no more connections. The port is closed.
    pub(crate) fn close(&mut self)
        ensures { self.new.left ≡ Some 0 }
    {
        self.left = Some(0);
        let _closed = system::shutdown(self.descriptor(), system::SHUT_RD);
    }

    /// A connection may wait.
    pub(crate) fn note(&mut self)
        ensures { self.new.left ≡ self.old.left }
    {
        self.is_due = true;
    }

    /// True if the last accept failed.
    pub(crate) fn has_fault(&self) -> bool
        ensures { result ≡ is_some self.now.fault }
    {
        self.fault.is_some()
    }

    /// How long the thread may wait for events before the listener is tried again. None: any time.
    pub(crate) fn patience(&self) -> Option<Duration>
        ensures { result ≡ None → StandsOpen self.now.left → (self.now.fault ≡ None) × (self.now.is_due ≡ false) }
    {
        if !self.is_open() {
            return None;
        }
        match self.fault {
            Some(pause) => Some(Duration::from_millis(pause.millis)),
            None if self.is_due => Some(Duration::ZERO),
            None => None,
        }
    }

    /// True if the listener may be tried.
    fn may_try(&self, now: Option<Instant>) -> bool
        ensures { IsTrue result → StandsOpen self.now.left }
    {
        if !self.is_open() {
            return false;
        }
        let Some(pause) = self.fault else {
            return self.is_due;
        };
        match (pause.since, now) {
            (Some(since), Some(now)) => {
                now.duration_since(since) >= Duration::from_millis(pause.millis)
            }
            _ => true,
        }
    }

    /// Accepts the next connection, if one waits and more are wanted.
    pub(crate) fn take<V: Watch>(&mut self, watch: &V, now: Option<Instant>) -> Option<Client>
        ensures taken { IsSome result → StandsOpen self.old.left × (self.new.left ≡ one_less self.old.left) }
        ensures others { (self.new.left ≡ self.old.left) ⊎ (self.new.left ≡ one_less self.old.left) }
    {
        if !self.may_try(now) {
            return None;
        }
        match accept(self.listener) {
            Ok(client) => {
                self.fault = None;
                self.is_short = false;
                self.use_up();
                Some(client)
            }
            Err(error) => {
                self.note_fault(watch, &error, now);
                None
            }
        }
    }

    /// Notes why no connection was accepted. Without a descriptor the listener is tried once more at once.
    fn note_fault<V: Watch>(&mut self, watch: &V, error: &io::Error, now: Option<Instant>)
        ensures { (self.new.left ≡ self.old.left) ⊎ (self.new.left ≡ one_less self.old.left) }
    {
        match error.kind() {
            ErrorKind::WouldBlock => {
                self.fault = None;
                self.is_due = false;
            }
            ErrorKind::Interrupted => {}
            _ if lacks_descriptor(error) && !self.is_short => self.is_short = true,
            _ => {
                self.pause(watch, error, now);
                self.use_up();
            }
        }
    }

    /// True if the last accept found no descriptor.
    pub(crate) fn is_short(&self) -> bool {
        self.is_short
    }

    /// Lets as many connections wait at the listener as the system allows.
    pub(crate) fn widen(&self) {
        // where that fails, as many wait as before
        let _status = system::listen(self.descriptor(), BACKLOG);
    }

    /// Counts an accepted or failed connection. The port is closed behind the last one.
    fn use_up(&mut self)
        ensures { self.new.left ≡ one_less self.old.left }
    {
        let Some(left) = self.left else {
            return;
        };
        if left <= 1 {
            self.close();
        } else {
            self.left = Some(left - 1);
        }
    }

    /// Leaves the listener alone for a while. The fault is logged once, until an accept succeeds.
    fn pause<V: Watch>(&mut self, watch: &V, error: &io::Error, now: Option<Instant>)
        ensures fault { IsSome self.new.fault }
        ensures others { self.new.left ≡ self.old.left }
    {
        let millis = match self.fault {
            Some(pause) => LONGEST_PAUSE.min(pause.millis.saturating_mul(2)),
            None => {
                watch.on_event(not_accepted(error));
                FIRST_PAUSE
            }
        };
        self.fault = Some(Pause { since: now, millis });
    }
}

/// Accepts a connection whose reads and writes do not block.
fn accept(listener: &TcpListener) -> io::Result<Client> {
    let (stream, peer) = listener.accept()?;
    stream.set_nodelay(true)?;
    stream.set_nonblocking(true)?;
    Ok(Client {
        stream,
        port: peer.port(),
    })
}

/// True if the process or the system has no descriptor left.
fn lacks_descriptor(error: &io::Error) -> bool {
    matches!(error.raw_os_error(), Some(EMFILE | ENFILE))
}

/// The event of a connection that isn't accepted.
pub(crate) fn not_accepted(error: &io::Error) -> ConnectionEvent {
    ConnectionEvent::NotAccepted {
        why: error.kind(),
        code: error.raw_os_error(),
    }
}
