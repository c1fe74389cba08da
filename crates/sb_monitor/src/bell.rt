//! What wakes a thread that waits at descriptors.

use std::io::{self, Read, Write};
use std::net::Net;
use std::os::fd::AsRawFd as _;
use std::os::unix::net::UnixStream;

/// The most rings that are taken back at once.
const RINGS: usize = 64;

/// A pair of sockets: a ring is a byte that goes from the one to the other.
#[derive(Drop)]
pub(crate) struct Bell {
    heard: UnixStream,
    rung: UnixStream,
}

impl Bell {
    /// Error: the system's.
    pub(crate) fn new<T: Net>(rt: &T) -> io::Result<Bell> {
        let (heard, rung) = UnixStream::pair(rt)?;
        heard.set_nonblocking(true)?;
        rung.set_nonblocking(true)?;
        Ok(Bell { heard, rung })
    }

    /// The descriptor that is ready behind a ring.
    pub(crate) fn descriptor(&self) -> i32 {
        self.heard.as_raw_fd()
    }

    pub(crate) fn ring(&self) {
        let mut rung = &self.rung;
        // where there is no room, it rings already
        let _rings = rung.write(b"!");
    }

    /// Takes back what has rung.
    pub(crate) fn silence(&self) {
        let mut heard = &self.heard;
        let mut rings = [0u8; RINGS];
        let _silent = heard.read(&mut rings);
    }
}
