//! A block as a stream on a fresh cell.

use crate::block::ScriptBlock;
use crate::ends::{Failing, Narrow};
use crate::fault::ScriptFault;
use crate::header::{Each, Header};
use crate::repeat::push_times;
use sb_cell::Cell;
use sb_tenant::Bound;
use sb_wire::{Fallible, StreamError, Summary, run_stream};
use std::alloc::Global;

/// The most tenants of a cell.
const MOST_TENANTS: u32 = 256;

/// The most considerations at an assertion point.
const MOST_BOUND: u32 = 1000;

/// The most buckets of a log.
const MOST_BUCKETS: u32 = 65_536;

/// Plays these lines once, or for each failure that the header says.
pub fn play_stream(
    alloc: Global,
    block: ScriptBlock<'_>,
    out: &mut Vec<u8>,
) -> Result<(), ScriptFault> {
    let header = block.header;
    match header.each {
        Each::Once => play_once(alloc, block, out),
        Each::Fails => {
            for fails in 0..header.fails {
                play_once(alloc, block.below(Header { fails, ..header }), out)?;
            }
            Ok(())
        }
        Each::Room => {
            for room in 0..header.room {
                play_once(alloc, block.below(Header { room, ..header }), out)?;
            }
            Ok(())
        }
        Each::Reads => play_reads(alloc, block, out),
        Each::Writes => play_writes(alloc, block, out),
    }
}

/// Plays these lines with the first read failing, with the second, and so on to the last. Plays in a
/// row that are answered the same are one with their number.
fn play_reads(alloc: Global, block: ScriptBlock<'_>, out: &mut Vec<u8>) -> Result<(), ScriptFault> {
    let ScriptBlock { header, lines } = block;
    let mut last = Vec::new(alloc);
    let mut times: u32 = 0;
    let mut fails: u32 = 0;
    for _ in lines.chunks(header.pieces.max(1) as usize) {
        let mut text = Vec::new(alloc);
        play_once(alloc, block.below(Header { fails, ..header }), &mut text)?;
        if text.as_slice() != last.as_slice() {
            push_times(last.as_slice(), times, b" reads)\n", out)?;
            last = text;
            times = 0;
        }
        times = times.saturating_add(1);
        fails = fails.saturating_add(header.pieces);
    }
    push_times(last.as_slice(), times, b" reads)\n", out)
}

/// Plays these lines, and again with each smaller room for the answer. A play that wrote just so much
/// of the answer is counted, any other shown.
fn play_writes(
    alloc: Global,
    block: ScriptBlock<'_>,
    out: &mut Vec<u8>,
) -> Result<(), ScriptFault> {
    let mut whole = Vec::new(alloc);
    play_once(alloc, block, &mut whole)?;
    let mut times: u32 = 0;
    for room in 0..whole.len() {
        if ends_behind(alloc, block, &whole[..room], out)? {
            times = times.saturating_add(1);
        }
    }
    push_times(whole.as_slice(), times, b" writes failed)\n", out)
}

/// True if a play that has room for this much of the answer writes just that. If not, what it wrote is
/// added.
fn ends_behind(
    alloc: Global,
    block: ScriptBlock<'_>,
    begun: &[u8],
    out: &mut Vec<u8>,
) -> Result<bool, ScriptFault> {
    let narrow = Header {
        room: u32::try_from(begun.len()).unwrap_or(u32::MAX),
        ..block.header
    };
    let mut wanted = Vec::from_slice(alloc, begun)?;
    push_end(Err(StreamError::WriteFault), &mut wanted)?;
    let mut text = Vec::new(alloc);
    play_once(alloc, block.below(narrow), &mut text)?;
    if text.as_slice() == wanted.as_slice() {
        return Ok(true);
    }
    out.extend_from_slice(text.as_slice())?;
    Ok(false)
}

/// Adds the replies to these lines, and the fault that ends them, if one does.
fn play_once(alloc: Global, block: ScriptBlock<'_>, out: &mut Vec<u8>) -> Result<(), ScriptFault> {
    let mut cell = fresh_cell(alloc, block.header)?;
    play_on(alloc, &mut cell, block, out)
}

fn play_on(
    alloc: Global,
    cell: &mut Cell,
    block: ScriptBlock<'_>,
    out: &mut Vec<u8>,
) -> Result<(), ScriptFault> {
    let ScriptBlock { header, lines } = block;
    let sent = lines.len().saturating_sub(header.cut as usize);
    let mut reader = Fallible {
        inner: Failing::new(header, &lines[..sent]),
    };
    let mut writer = Fallible {
        inner: Narrow::new(header, out),
    };
    let mut summary = Summary::new();
    let ended = run_stream(alloc, &mut reader, &mut writer, cell, &mut summary);
    push_end(ended, out)
}

/// A cell with the tenants, the bound and the buckets that a header says. Error: out of memory.
pub fn fresh_cell(alloc: Global, header: Header) -> Result<Cell, ScriptFault> {
    if header.tenants > MOST_TENANTS || header.bound > MOST_BOUND {
        return Err(ScriptFault::BadHeader);
    }
    let tenants = header.tenants;
    let bound = Bound {
        considerations: header.bound,
        work: header.work,
    };
    match header.buckets {
        None => Ok(Cell::new(alloc, 0, 1, tenants, bound)?),
        Some(buckets) if buckets > 0 && buckets <= MOST_BUCKETS => {
            Ok(Cell::with_buckets(alloc, 0, 1, tenants, bound, buckets as usize)?)
        }
        Some(_) => Err(ScriptFault::BadHeader),
    }
}

/// Adds the fault that ended a stream. Error: out of memory.
pub fn push_end(ended: Result<(), StreamError>, out: &mut Vec<u8>) -> Result<(), ScriptFault> {
    let error = match ended {
        Ok(()) => return Ok(()),
        Err(StreamError::NoMemory) => return Err(ScriptFault::Stream(StreamError::NoMemory)),
        Err(error) => error,
    };
    if !out.is_empty() && !out.ends_with(b"\n".as_slice()) {
        out.push(b'\n')?;
    }
    out.extend_from_slice(error.line())?;
    Ok(())
}
