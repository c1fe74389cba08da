//! The ends of a stream: a reader and a writer that tell when a call may fail.
ghost use Rattle.std.specs.Prelude.{◌≡◌, ◌<◌, ℕ, length, OnErr, MatchResult, ⊤};
ghost use Rattle.std.specs.Io.{ReadsAtMost, WritesAtMost};
ghost use Rattle.std.specs.Io.KnownBytes.{Keeps, ReadConsumes, WriteAppends};

use std::io::{self, Read, Write};

/// A reader of which it is known when a read may fail.
pub trait Source: Read {
    // in this state a read may fail
    ghost fails: { Self → Type 0 };

    /// Reads as `read` does.
    fn read_some(&mut self, buf: &mut [u8]) -> io::Result<usize>
        ensures bound { ReadsAtMost result buf.new }
        ensures bytes { ReadConsumes (Self.remaining self.old) (Self.remaining self.new) result buf.new }
        ensures fails { OnErr result (fails self.old) };
}

/// A writer of which it is known when it may take nothing.
pub trait Sink: Write {
    // in this state a call may fail, or a write take no byte
    ghost refuses: { Self → Type 0 };

    /// Writes as `write` does.
    fn write_some(&mut self, buf: &[u8]) -> io::Result<usize>
        ensures bound { WritesAtMost result buf.now }
        ensures bytes { WriteAppends (Self.contents self.old) (Self.contents self.new) result buf.now }
        ensures refuses { MatchResult result
            (λ n. n ≡ 0 → 0 < length buf.now → refuses self.old) (λ _. refuses self.old) };

    /// Flushes as `flush` does.
    fn flush_all(&mut self) -> io::Result<()>
        ensures bytes { Keeps (Self.contents self.old) (Self.contents self.new) }
        ensures refuses { OnErr result (refuses self.old) };
}

impl Source for &[u8] {
    ghost fails = { λ _. ⊥ };

    fn read_some(&mut self, buf: &mut [u8]) -> io::Result<usize> {
        self.read(buf)
    }
}

/// Memory may run out.
impl Sink for Vec<u8> {
    ghost refuses = { λ _. ⊤ };

    fn write_some(&mut self, buf: &[u8]) -> io::Result<usize> {
        self.write(buf)
    }

    fn flush_all(&mut self) -> io::Result<()> {
        self.flush()
    }
}

/// A reader or a writer of which any call may fail, as of a file or a terminal.
#[derive(Drop)]
pub struct Fallible<S> {
    pub inner: S,
}

impl<R: Read> Read for Fallible<R> {
    ghost remaining = { λ r. R.remaining r.inner };

    fn read(&mut self, buf: &mut [u8]) -> io::Result<usize> {
        self.inner.read(buf)
    }
}

impl<R: Read> Source for Fallible<R> {
    ghost fails = { λ _. ⊤ };

    fn read_some(&mut self, buf: &mut [u8]) -> io::Result<usize> {
        self.read(buf)
    }
}

impl<W: Write> Write for Fallible<W> {
    ghost contents = { λ w. W.contents w.inner };

    fn write(&mut self, buf: &[u8]) -> io::Result<usize> {
        self.inner.write(buf)
    }

    fn flush(&mut self) -> io::Result<()> {
        self.inner.flush()
    }
}

impl<W: Write> Sink for Fallible<W> {
    ghost refuses = { λ _. ⊤ };

    fn write_some(&mut self, buf: &[u8]) -> io::Result<usize> {
        self.write(buf)
    }

    fn flush_all(&mut self) -> io::Result<()> {
        self.flush()
    }
}
