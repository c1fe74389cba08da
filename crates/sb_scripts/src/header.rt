//! What a header says of its block.

use crate::fault::ScriptFault;
use crate::repeat::{cut, number};

/// What the lines of a block are.
#[derive(Clone, Copy, PartialEq, Eq)]
pub enum BlockKind {
    /// Lines of a stream on a cell.
    Stream,
    /// Texts that are read as commands.
    Syntax,
    /// Numbers of the refusals that come where memory runs out.
    Memory,
    /// Lines of a session of a tenant by itself.
    Tenant,
    /// Lines of a stream, with what the tenants share.
    Shared,
}

/// How often a stream is played.
#[derive(Clone, Copy, PartialEq, Eq)]
pub enum Each {
    Once,
    /// For each smaller number of bytes behind which reads fail.
    Fails,
    /// For each smaller room of the writer.
    Room,
    /// For each read that may fail.
    Reads,
    /// For each byte that may not be taken.
    Writes,
}

#[derive(Clone, Copy)]
pub struct Header {
    pub lines: BlockKind,
    pub each: Each,
    pub tenants: u32,
    pub bound: u32,
    /// The budget of a step, if it has one.
    pub work: Option<u32>,
    /// The buckets of the log, if they aren't the usual ones.
    pub buckets: Option<u32>,
    /// The most bytes that a read gives.
    pub pieces: u32,
    /// How many bytes at the end aren't sent.
    pub cut: u32,
    /// Behind so many bytes, reads fail.
    pub fails: u32,
    /// For how many bytes the writer has room.
    pub room: u32,
}

impl Header {
    /// The settings of a header's line. Error: BadHeader.
    pub fn read(line: &[u8]) -> Result<Header, ScriptFault> {
        let mut header = Header {
            lines: BlockKind::Stream,
            each: Each::Once,
            tenants: 1,
            bound: 1000,
            work: None,
            buckets: None,
            pieces: u32::MAX,
            cut: 0,
            fails: u32::MAX,
            room: u32::MAX,
        };
        for word in line.split(|byte| *byte == b' ') {
            if let Some((setting, value)) = cut(word, b'=') {
                header.set(setting, value)?;
            }
        }
        Ok(header)
    }

    fn set(&mut self, setting: &[u8], value: &[u8]) -> Result<(), ScriptFault> {
        if setting == b"lines".as_slice() {
            self.lines = read_lines(value)?;
            return Ok(());
        }
        if setting == b"each".as_slice() {
            self.each = read_each(value)?;
            return Ok(());
        }
        let Some(number) = number(value) else {
            return Err(ScriptFault::BadHeader);
        };
        match setting {
            b"tenants" => self.tenants = number,
            b"bound" => self.bound = number,
            b"work" => self.work = Some(number),
            b"buckets" => self.buckets = Some(number),
            b"pieces" => self.pieces = number,
            b"cut" => self.cut = number,
            b"fails" => self.fails = number,
            b"room" => self.room = number,
            _ => return Err(ScriptFault::BadHeader),
        }
        Ok(())
    }
}

fn read_lines(value: &[u8]) -> Result<BlockKind, ScriptFault> {
    let kinds = [
        (b"syntax".as_slice(), BlockKind::Syntax),
        (b"memory".as_slice(), BlockKind::Memory),
        (b"tenant".as_slice(), BlockKind::Tenant),
        (b"shared".as_slice(), BlockKind::Shared),
    ];
    match kinds.iter().find(|(name, _)| *name == value) {
        Some((_, kind)) => Ok(*kind),
        None => Err(ScriptFault::BadHeader),
    }
}

fn read_each(value: &[u8]) -> Result<Each, ScriptFault> {
    let kinds = [
        (b"fails".as_slice(), Each::Fails),
        (b"room".as_slice(), Each::Room),
        (b"reads".as_slice(), Each::Reads),
        (b"writes".as_slice(), Each::Writes),
    ];
    match kinds.iter().find(|(name, _)| *name == value) {
        Some((_, each)) => Ok(*each),
        None => Err(ScriptFault::BadHeader),
    }
}
