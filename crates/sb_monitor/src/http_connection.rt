//! A connection of the status port: its request as it comes, and its answer as it goes. No call waits for the client.
ghost use Rattle.std.specs.Prelude.{◌≡◌, ◌≤◌, IfOk, length, vec_len};

use sb_status::{Incoming, NO_MEMORY, read_request};
use std::alloc::{AllocError, Global};
use std::io::{self, ErrorKind, Read, Write};
use std::net::{Shutdown, TcpStream};
use std::os::fd::AsRawFd as _;
use std::time::{Duration, Instant};

/// How long the first bytes may take, in milliseconds.
const FIRST: u64 = 500;

/// How long a request may take, and its answer, in milliseconds each.
const ALL: u64 = 2_000;

/// An answer, and how many of its bytes the client's side has taken.
#[derive(Drop)]
struct Answer {
    bytes: Vec<u8>,
    gone: usize,
    ghost within: { gone ≤ vec_len bytes },
}

/// How far a connection is.
#[derive(Drop)]
enum Progress {
    /// These bytes of its request have come.
    Asking(Vec<u8>),
    Answering(Answer),
    /// Its answer is gone. What it still sends is dropped, so that it gets the answer.
    Leaving,
}

/// How a connection goes on.
#[derive(Clone, Copy)]
pub(crate) enum Next {
    Waits,
    /// Its request is there, and is to be answered.
    Asks,
    /// It has no more to do.
    Ends,
}

/// A connection, by what has come of its request and has gone of its answer.
#[derive(Drop)]
pub(crate) struct HttpConnection {
    stream: TcpStream,
    /// When it came, or was answered.
    since: Option<Instant>,
    progress: Progress,
}

impl HttpConnection {
    /// A connection that came at this time. Error: the system refuses calls that don't wait.
    pub(crate) fn new(
        alloc: Global,
        stream: TcpStream,
        now: Option<Instant>,
    ) -> io::Result<HttpConnection> {
        stream.set_nonblocking(true)?;
        Ok(HttpConnection {
            stream,
            since: now,
            progress: Progress::Asking(Vec::new(alloc)),
        })
    }

    pub(crate) fn descriptor(&self) -> i32 {
        self.stream.as_raw_fd()
    }

    /// True if its request isn't whole.
    pub(crate) fn is_asking(&self) -> bool {
        matches!(self.progress, Progress::Asking(_))
    }

    /// True if a part of its answer waits.
    pub(crate) fn is_answering(&self) -> bool {
        matches!(self.progress, Progress::Answering(_))
    }

    /// True if it takes longer than it may.
    pub(crate) fn is_late(&self, now: Instant) -> bool {
        let Some(since) = self.since else {
            return false;
        };
        let most = match &self.progress {
            Progress::Asking(head) if head.is_empty() => FIRST,
            _ => ALL,
        };
        now.duration_since(since) > Duration::from_millis(most)
    }

    /// What has come of its request, if it isn't answered.
    pub(crate) fn request(&self) -> &[u8] {
        match &self.progress {
            Progress::Asking(head) => head.as_slice(),
            _ => &[],
        }
    }

    /// Goes on as far as the client lets it, by reads into this buffer.
    pub(crate) fn go_on(&mut self, piece: &mut [u8]) -> Next {
        match &mut self.progress {
            Progress::Asking(head) => match receive(&self.stream, head, piece) {
                Ok(next) => next,
                Err(_) => self.lack_memory(),
            },
            Progress::Answering(answer) => match answer.send(&self.stream) {
                Next::Ends => self.leave(),
                next => next,
            },
            Progress::Leaving => drop_some(&self.stream, piece),
        }
    }

    /// Begins its answer, of which as much goes as the client takes at once.
    pub(crate) fn answer(
        &mut self,
        answer: Result<Vec<u8>, AllocError>,
        now: Option<Instant>,
    ) -> Next {
        self.since = now;
        let Ok(bytes) = answer else {
            return self.lack_memory();
        };
        let mut answer = Answer { bytes, gone: 0 };
        if let Next::Ends = answer.send(&self.stream) {
            return self.leave();
        }
        self.progress = Progress::Answering(answer);
        Next::Waits
    }

    /// Lets go of what its client hasn't taken.
    pub(crate) fn drop_answer(&mut self) {
        let _next = self.leave();
    }

    /// Tells that there is no memory.
    fn lack_memory(&mut self) -> Next {
        let _told_as_far_as_it_goes = write_some(&self.stream, NO_MEMORY.as_bytes());
        self.leave()
    }

    /// Ends what is sent.
    fn leave(&mut self) -> Next {
        self.progress = Progress::Leaving;
        match self.stream.shutdown(Shutdown::Write) {
            Ok(()) => Next::Waits,
            Err(_) => Next::Ends,
        }
    }
}

impl Answer {
    /// Sends as much as the client takes. Ends: all is gone, or nothing goes any more.
    fn send(&mut self, stream: &TcpStream) -> Next {
        while self.gone < self.bytes.len() {
            match write_some(stream, &self.bytes.as_slice()[self.gone..]) {
                Ok(count) if count > 0 => self.gone += count,
                Err(error) if is_waiting(&error) => return Next::Waits,
                _ => return Next::Ends,
            }
        }
        Next::Ends
    }
}

/// Reads some bytes behind those that have come. Error: there is no memory for them.
fn receive(stream: &TcpStream, head: &mut Vec<u8>, piece: &mut [u8]) -> Result<Next, AllocError> {
    match read_some(stream, piece) {
        Ok(count) if count > 0 => {
            head.extend_from_slice(&piece[..count])?;
            match read_request(head.as_slice()) {
                Incoming::Partial => Ok(Next::Waits),
                _ => Ok(Next::Asks),
            }
        }
        Err(error) if is_waiting(&error) => Ok(Next::Waits),
        _ => Ok(Next::Ends),
    }
}

/// Reads some bytes, and drops them. Ends: the client has closed.
fn drop_some(stream: &TcpStream, piece: &mut [u8]) -> Next {
    match read_some(stream, piece) {
        Ok(count) if count > 0 => Next::Waits,
        Err(error) if is_waiting(&error) => Next::Waits,
        _ => Next::Ends,
    }
}

fn read_some(mut stream: &TcpStream, piece: &mut [u8]) -> io::Result<usize>
    ensures { IfOk result (λ count. count ≤ length piece.new) }
{
    stream.read(piece)
}

fn write_some(mut stream: &TcpStream, rest: &[u8]) -> io::Result<usize>
    ensures { IfOk result (λ count. count ≤ length rest.now) }
{
    stream.write(rest)
}

/// True if the client lets a call wait.
fn is_waiting(error: &io::Error) -> bool {
    matches!(error.kind(), ErrorKind::WouldBlock | ErrorKind::Interrupted)
}
