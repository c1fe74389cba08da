//! A block as lines of a session of a lone tenant. What the wire doesn't tell is shown: each
//! answer's number, and at the end how many entries the trail has, with their last ones.

use crate::fault::ScriptFault;
use crate::repeat::push_number;
use sb_cell::{Cell, StepError};
use sb_tenant::{Answer, Bound, END, Entry, OPEN};
use sb_value::SessionId;
use sb_wire::{StreamError, write_bare_reply};
use std::alloc::Global;

/// The tenant's number.
const LONE: u32 = 255;

/// So many of a trail's last entries are shown.
const SHOWN: usize = 4;

/// Adds the numbers and the answers, and the end of the trail. Error: out of memory.
pub fn play_tenant(alloc: Global, lines: &[u8], out: &mut Vec<u8>) -> Result<(), ScriptFault> {
    let mut cell = Cell::new(alloc, LONE, LONE + 1, LONE + 1, Bound::without_budget(0))?;
    play_lines(alloc, &mut cell, lines, out)
}

fn play_lines(
    alloc: Global,
    cell: &mut Cell,
    lines: &[u8],
    out: &mut Vec<u8>,
) -> Result<(), ScriptFault> {
    for line in lines.split(|byte| *byte == b'\n') {
        if !line.is_empty() {
            play_line(alloc, cell, line, out)?;
        }
    }
    match cell.trail(LONE) {
        Some(trail) => push_trail(trail, out),
        None => Err(ScriptFault::Stream(StreamError::NoMemory)),
    }
}

fn play_line(
    alloc: Global,
    cell: &mut Cell,
    line: &[u8],
    out: &mut Vec<u8>,
) -> Result<(), ScriptFault> {
    let answer = answer(alloc, cell, line);
    push_answer(&answer, out)
}

/// The answer to a line. Sessions open and end by the calls for it, where they can.
fn answer(alloc: Global, cell: &mut Cell, line: &[u8]) -> Result<Answer, StepError> {
    if !cell.hosts(LONE) {
        return Err(StepError::NoTenant);
    }
    let session = SessionId::new(0);
    let is_open = cell.is_open(LONE, session);
    if line == OPEN && !is_open && !cell.is_full(LONE) {
        cell.open(alloc, LONE, session)
    } else if line == END && is_open {
        Ok(cell.end(LONE, session))
    } else {
        cell.step(alloc, LONE, 0, line)
    }
}

fn push_answer(answer: &Result<Answer, StepError>, out: &mut Vec<u8>) -> Result<(), ScriptFault> {
    let Ok(answer) = answer else {
        return Err(ScriptFault::Stream(StreamError::NoMemory));
    };
    match answer.number {
        Some(number) => push_number(u64::from(number), out)?,
        None => out.push(b'-')?,
    }
    out.push(b' ')?;
    write_bare_reply(out, &answer.reply)?;
    Ok(())
}

fn push_trail(trail: &[Entry], out: &mut Vec<u8>) -> Result<(), ScriptFault> {
    push_number(trail.len() as u64, out)?;
    out.extend_from_slice(b" entries\n")?;
    for entry in trail.iter().skip(trail.len().saturating_sub(SHOWN)) {
        push_number(u64::from(entry.session.number()), out)?;
        out.push(b' ')?;
        out.extend_from_slice(entry.line.as_slice())?;
        out.extend_from_slice(b": ")?;
        write_bare_reply(out, &entry.reply)?;
    }
    Ok(())
}
