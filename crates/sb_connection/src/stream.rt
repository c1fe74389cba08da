//! What a connection is served over.
ghost use Rattle.std.specs.Prelude.{◌≡◌, ◌≤◌, drop, vec_len};
ghost use Rattle.std.specs.Io.{ReadsAtMost, WritesAtMost};
ghost use Rattle.sb_connection.specs.Traffic.{Traffic, after_read, after_write};

use std::io;

/// Bytes in both directions. No call blocks: it returns `WouldBlock` instead.
pub trait Stream {
    // what its calls were answered
    ghost traffic: { Self → Traffic };

    /// Reads once. 0: the client sends no more.
    fn read(&mut self, buffer: &mut Vec<u8>) -> io::Result<usize>
        ensures room { vec_len buffer.new ≡ vec_len buffer.old }
        ensures bound { ReadsAtMost result buffer.new.items }
        ensures traffic { traffic self.new ≡ after_read (traffic self.old) buffer.new.items result };

    /// Writes once, beginning behind the first `gone` bytes of the output.
    fn write(&mut self, output: &Vec<u8>, gone: usize) -> io::Result<usize>
        requires { gone ≤ vec_len output.now }
        ensures bound { WritesAtMost result (drop gone output.now.items) }
        ensures traffic { traffic self.new ≡ after_write (traffic self.old) (drop gone output.now.items) result };
}
