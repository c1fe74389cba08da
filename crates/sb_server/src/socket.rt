//! A client's socket, with what its calls were answered.
ghost use Rattle.std.specs.Prelude.{◌≡◌};
ghost use Rattle.sb_connection.specs.Traffic.{no_traffic};
ghost use Rattle.sb_server.specs.Sockets.{traffic};

use http_server::Log;
use mio::net::TcpStream;
use mio::{Interest, Registry, Token};
use sb_connection::Stream;
use std::io::{self, Read, Write};
use std::net;

/// A socket whose calls do not block.
pub(crate) struct Socket {
    stream: TcpStream,
    /// Each read: the buffer behind it, and its result.
    reads: Log<Vec<u8>, io::Result<usize>>,
    /// Each write: the output, how much of it was sent before, and the result.
    writes: Log<Vec<u8>, (usize, io::Result<usize>)>,
}

impl Drop for Socket {
    fn drop(self) {
        let Self {
            stream: _,
            reads: _,
            writes: _,
        } = self;
    }
}

impl Socket {
    /// A socket before its first call. It is set not to block.
    pub(crate) fn new(stream: net::TcpStream) -> Socket
        ensures { traffic result ≡ no_traffic }
    {
        Socket {
            stream: TcpStream::from_std(stream),
            reads: Log::new(),
            writes: Log::new(),
        }
    }

    /// Registers the socket for events under this token.
    pub(crate) fn register(
        &mut self,
        registry: &Registry,
        token: Token,
        interest: Interest,
    ) -> io::Result<()>
        ensures { traffic self.new ≡ traffic self.old }
    {
        registry.register(&mut self.stream, token, interest)
    }

    /// Ends the registration.
    pub(crate) fn deregister(&mut self, registry: &Registry)
        ensures { traffic self.new ≡ traffic self.old }
    {
        let _gone = registry.deregister(&mut self.stream);
    }
}

impl Stream for Socket {
    ghost use Rattle.sb_server.specs.Sockets.{traffic};

    ghost traffic = { traffic };

    fn read(&mut self, buffer: &mut Vec<u8>) -> io::Result<usize> {
        let answer = (&self.stream).read(buffer.as_mut_slice());
        self.reads = self.reads.and(buffer, &answer);
        answer
    }

    fn write(&mut self, output: &Vec<u8>, gone: usize) -> io::Result<usize> {
        let answer = (&self.stream).write(&output.as_slice()[gone..]);
        let call = (gone, answer);
        self.writes = self.writes.and(output, &call);
        call.1
    }
}
