//! The ends of a stream: a reader that gives pieces, and a writer; both may fail.

use crate::header::Header;
use std::io::{self, Read, Write};

/// Bytes, of which a read gives a few. Behind so many of them, reads fail.
#[derive(Drop)]
pub struct Failing<'a> {
    rest: &'a [u8],
    piece: usize,
    fails: bool,
}

impl<'a> Failing<'a> {
    pub fn new(header: Header, input: &'a [u8]) -> Failing<'a> {
        let given = input.len().min(header.fails as usize);
        Failing {
            rest: &input[..given],
            piece: header.pieces as usize,
            fails: given < input.len(),
        }
    }
}

impl<'a> Read for Failing<'a> {
    fn read(&mut self, buf: &mut [u8]) -> io::Result<usize> {
        if self.fails && self.rest.is_empty() {
            return Err(io::Error::from(io::ErrorKind::ConnectionReset));
        }
        let most = self.piece.min(buf.len());
        self.rest.read(&mut buf[..most])
    }
}

/// A writer that has room for so many bytes.
#[derive(Drop)]
pub struct Narrow<'a> {
    out: &'a mut Vec<u8>,
    room: usize,
}

impl<'a> Narrow<'a> {
    pub fn new(header: Header, out: &'a mut Vec<u8>) -> Narrow<'a> {
        Narrow {
            out,
            room: header.room as usize,
        }
    }
}

impl<'a> Write for Narrow<'a> {
    fn write(&mut self, buf: &[u8]) -> io::Result<usize> {
        let count = self.room.min(buf.len());
        self.out.extend_from_slice(&buf[..count])?;
        self.room -= count;
        Ok(count)
    }

    fn flush(&mut self) -> io::Result<()> {
        Ok(())
    }
}
