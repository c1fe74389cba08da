//! The beginning of a server: it listens, and tells its port.
ghost use Rattle.std.specs.Prelude.{◌≡◌, IfErr, IfOk, OnOk};
ghost use Rattle.sb_monitor.specs.Listening.{FailsToListen, TellsPort, listening_line};

use libc::net::{self as system, listen as listen_longer};
use libc::types::pollfd;
use sb_wire::{Sink, StreamError, push_labelled, write_and_flush};
use sb_words::{Log, Severity};
use std::alloc::{AllocError, Global};
use std::io;
use std::net::{Net, SocketAddr, TcpListener, TcpStream};
use std::os::fd::AsRawFd as _;

/// The most connections that wait to be accepted, if the system allows so many.
const QUEUE: i32 = 4096;

/// Why a server doesn't listen.
#[derive(Clone, Copy, Debug)]
pub enum ListenError {
    /// The line with the port wasn't written, or memory ran out.
    Stream(StreamError),
    /// The server can't listen at its port.
    CannotListen,
}

/// Listens at this address, or at any free port of it. Writes the port. Error: nothing listens there, which is logged, or
/// the line wasn't written.
pub fn listen<T: Net<Listener = TcpListener, Stream = TcpStream>, O: Log, W: Sink>(
    rt: &T,
    alloc: Global,
    address: SocketAddr,
    log: &O,
    writer: &mut W,
) -> Result<TcpListener, ListenError>
    ensures ok { OnOk result (TellsPort (W.contents writer.old) (W.contents writer.new)) }
    ensures err { IfErr result (FailsToListen W.refuses W.contents writer.old writer.new) }
{
    let listener = match TcpListener::bind(rt, address) {
        Ok(listener) => listener,
        Err(error) => return Err(told(log, address, &error)),
    };
    // where the system keeps to its first queue, the port listens all the same
    let _queue = listen_longer(listener.as_raw_fd(), QUEUE);
    let bound = match listener.local_addr() {
        Ok(bound) => bound,
        Err(error) => return Err(told(log, address, &error)),
    };
    let Ok(line) = first_line(alloc, bound.port()) else {
        return Err(ListenError::Stream(StreamError::NoMemory));
    };
    match write_and_flush(writer, line.as_slice()) {
        Ok(()) => Ok(listener),
        Err(error) => Err(ListenError::Stream(error)),
    }
}

/// True if a port that was listened at is closed.
pub fn is_closed(listener: &TcpListener) -> bool {
    let mut waits = [pollfd {
        fd: listener.as_raw_fd(),
        events: 0,
        revents: 0,
    }];
    system::poll(&mut waits, 0) > 0
}

/// Tells why nothing listens there.
fn told<O: Log>(log: &O, address: SocketAddr, why: &io::Error) -> ListenError
    ensures { result ≡ ListenError.CannotListen }
{
    tell_cannot_listen(log, address.port(), why);
    ListenError::CannotListen
}

/// Logs why the server can't listen at this port.
pub(crate) fn tell_cannot_listen<O: Log>(log: &O, port: u16, why: &io::Error) {
    log.write(
        Severity::Error,
        &format_args!("can't listen at port {port}: {why}"),
    );
}

/// The first line of a server.
fn first_line(alloc: Global, port: u16) -> Result<Vec<u8>, AllocError>
    ensures { IfOk result (λ line. line.items ≡ listening_line port) }
{
    let mut line = Vec::new(alloc);
    push_labelled(&mut line, b"listening ", u64::from(port))?;
    line.push(b'\n')?;
    Ok(line)
}
