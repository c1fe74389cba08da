//! A stop that a server takes for the end of its standard input.

use os::duplicate;
use std::io::{self, ErrorKind};
use std::net::{Net, Shutdown};
use std::os::fd::AsRawFd as _;
use std::os::unix::net::UnixStream;
use std::sync::atomic::{AtomicI32, Ordering};

const INPUT: i32 = 0;

/// Nothing is watched.
const NOTHING: i32 = -1;

/// Bytes of the input are read and dropped, so many at a time.
const PIECE: usize = 4096;

/// The end of an input that stands in the place of the standard input. A server that runs until its input ends stops
/// there.
#[derive(Drop)]
pub struct StopSwitch {
    /// It has the descriptor of the standard input.
    _input: UnixStream,
    other_end: UnixStream,
    /// The standard input as it was given, if its end is to stop the server and it hasn't ended.
    given: AtomicI32,
}

impl StopSwitch {
    /// Takes the place of the standard input, whose own end stops the server if `watches_input`. Nothing else may have
    /// been opened before. Error: the system's.
    pub fn take_place<T: Net>(rt: &T, watches_input: bool) -> io::Result<StopSwitch> {
        let given = if watches_input {
            duplicate(INPUT)
        } else {
            NOTHING
        };
        let _closed = libc::close(INPUT);
        let (input, other_end) = UnixStream::pair(rt)?;
        if input.as_raw_fd() != INPUT {
            return Err(io::Error::from(ErrorKind::AlreadyExists));
        }
        let stop_switch = StopSwitch {
            _input: input,
            other_end,
            given: AtomicI32::new(given),
        };
        if watches_input && given < 0 {
            stop_switch.stop();
        }
        Ok(stop_switch)
    }

    /// Ends the input. False if the system refuses.
    pub(crate) fn stop(&self) -> bool {
        self.other_end.shutdown(Shutdown::Write).is_ok()
    }

    /// The descriptor whose end stops the server, or a negative number.
    pub(crate) fn watched(&self) -> i32 {
        self.given.load(Ordering::SeqCst)
    }

    /// Drops what has come of the standard input. If it has ended, so does the server.
    pub(crate) fn look(&self) {
        let mut piece = [0u8; PIECE];
        if libc::read(self.watched(), &mut piece) <= 0 {
            self.given.store(NOTHING, Ordering::SeqCst);
            let _told = self.stop();
        }
    }
}
