//! A connection whose first line isn't known yet.
ghost use Rattle.std.specs.Prelude.{◌≡◌, [], false, IfOk, IfSome};
ghost use Rattle.sb_connection.specs.Conversation.{hosting_by};
ghost use Rattle.sb_connection.specs.Routes.{Routes};
ghost use Rattle.sb_connection.specs.Traffic.{gave, no_traffic, took};
ghost use Rattle.sb_server.specs.Carried.{Hears};
ghost use Rattle.sb_server.specs.ReplyMetrics.{HeardBy};
ghost use Rattle.sb_server.specs.Sockets.{traffic};

use crate::door::Client;
use crate::socket::Socket;
use mio::{Interest, Registry, Token};
use sb_connection::{Destination, Stream, route_of};
use std::alloc::{AllocFailed, Global};
use std::io::{self, ErrorKind};

/// A connection whose first line is not complete yet.
pub(crate) struct PendingConnection {
    pub(crate) socket: Socket,
    /// The client's port.
    pub(crate) port: u16,
    /// All bytes so far.
    pub(crate) bytes: Vec<u8>,
    /// For how many seconds the first line has been missing, about.
    pub(crate) age: u32,
    /// In how many pieces what came so far was read.
    pieces: u32,
    /// The socket is registered for events.
    pub(crate) is_watched: bool,
    /// The last bytes that were read are lost for want of memory.
    pub(crate) is_cut: bool,
    ghost whole: { Hears is_cut (gave (traffic socket)) bytes.items },
    ghost fresh: { took (traffic socket) ≡ [] },
}

impl Drop for PendingConnection {
    fn drop(self) {
        let Self {
            socket: _,
            port: _,
            bytes: _,
            age: _,
            pieces: _,
            is_watched: _,
            is_cut: _,
        } = self;
    }
}

/// What is known of a pending connection.
#[derive(Clone, Copy)]
pub(crate) enum HandshakeRead {
    Destination(Destination),
    /// The client closed it without sending a byte.
    Left,
    Fault(ErrorKind),
    NoMemory,
}

/// The settings by which first lines are read.
#[derive(Clone, Copy)]
pub(crate) struct HandshakeSettings {
    /// The number of the host's first tenant, as lines name it.
    pub(crate) first: u32,
    pub(crate) tenants: u32,
    /// A first line brings a key.
    pub(crate) keyed: bool,
}

/// In so many pieces a first line is read as it comes.
const MOST_PIECES: u32 = 8;

/// The most reads of a pending connection in one turn.
const MOST_READS: usize = 16;

impl PendingConnection {
    /// The connection of a client that was just accepted. Without memory the client is given back.
    pub(crate) fn of(
        alloc: Global,
        client: Client,
    ) -> Result<Box<PendingConnection>, AllocFailed<PendingConnection>>
        ensures { IfOk result (λ pending_connection. pending_connection.value.port ≡ client.port) }
    {
        let Client { stream, port } = client;
        let pending_connection = PendingConnection::new(alloc, Socket::new(stream), port);
        Box::new(alloc, pending_connection)
    }

    fn new(alloc: Global, socket: Socket, port: u16) -> PendingConnection
        requires { traffic socket ≡ no_traffic }
        ensures { result.port ≡ port }
    {
        PendingConnection {
            socket,
            port,
            bytes: Vec::new(alloc),
            age: 0,
            pieces: 0,
            is_watched: false,
            is_cut: false,
        }
    }

    /// Its socket, and what came.
    pub(crate) fn into_parts(self) -> (Socket, Vec<u8>)
        ensures { (result.0 ≡ self.socket) × (result.1 ≡ self.bytes) }
    {
        let Self {
            socket,
            port: _,
            bytes,
            age: _,
            pieces: _,
            is_watched: _,
            is_cut: _,
        } = self;
        (socket, bytes)
    }

    /// Reads until the first line is complete or the socket has no more.
    pub(crate) fn read_first_line(
        &mut self,
        buffer: &mut Vec<u8>,
        by: HandshakeSettings,
    ) -> HandshakeRead
        ensures { HeardBy (hosting_by by.keyed by.first by.tenants) self.new.bytes.items self.new.is_cut result }
    {
        self.pieces = self.pieces.saturating_add(1);
        for _read in 0..MOST_READS {
            if let Some(heard) = self.read_once(buffer, by) {
                return heard;
            }
        }
        HandshakeRead::Destination(Destination::Unknown)
    }

    /// Reads once. None: read again.
    fn read_once(&mut self, buffer: &mut Vec<u8>, by: HandshakeSettings) -> Option<HandshakeRead>
        ensures { IfSome result (HeardBy (hosting_by by.keyed by.first by.tenants) self.new.bytes.items self.new.is_cut) }
    {
        if self.is_cut {
            return Some(HandshakeRead::NoMemory);
        }
        match self.read(buffer) {
            Ok(_) if self.is_cut => Some(HandshakeRead::NoMemory),
            Ok(0) if self.bytes.is_empty() => Some(HandshakeRead::Left),
            Ok(count) => match self.route(count == 0, by) {
                Destination::Unknown => None,
                known => Some(HandshakeRead::Destination(known)),
            },
            Err(error) => match error.kind() {
                ErrorKind::WouldBlock => Some(HandshakeRead::Destination(Destination::Unknown)),
                ErrorKind::Interrupted => None,
                why => Some(HandshakeRead::Fault(why)),
            },
        }
    }

    /// Where the connection goes, by its bytes so far and whether more may come.
    fn route(&self, has_ended: bool, by: HandshakeSettings) -> Destination
        ensures { Routes (hosting_by by.keyed by.first by.tenants) self.now.bytes.items has_ended result }
    {
        route_of(
            self.bytes.as_slice(),
            has_ended,
            by.first,
            by.tenants,
            by.keyed,
        )
    }

    /// Reads once, and keeps what came.
    fn read(&mut self, buffer: &mut Vec<u8>) -> io::Result<usize>
        requires { self.old.is_cut ≡ false }
    {
        let answer = self.socket.read(buffer);
        if let Ok(count) = answer {
            self.is_cut = self.bytes.extend_from_slice(&buffer[..count]).is_err();
        }
        answer
    }

    /// True if the first line comes in more pieces than a client needs.
    pub(crate) fn is_dripping(&self) -> bool {
        self.pieces > MOST_PIECES
    }

    /// One look more.
    pub(crate) fn grow_older(&mut self) {
        self.age = self.age.saturating_add(1);
    }

    /// Has it reported under this token.
    pub(crate) fn watch(&mut self, registry: &Registry, token: Token) -> io::Result<()> {
        self.is_watched = true;
        self.socket.register(registry, token, Interest::READABLE)
    }

    /// Has it reported no more.
    pub(crate) fn unwatch(&mut self, registry: &Registry) {
        if self.is_watched {
            self.is_watched = false;
            self.socket.deregister(registry);
        }
    }
}
