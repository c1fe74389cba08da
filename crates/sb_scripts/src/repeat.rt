//! Repeated lines and texts, written out or folded.

use crate::fault::ScriptFault;
use itoa::Buffer;
use memchr::memchr;
use std::alloc::AllocError;
use std::str;

/// The words that are no names.
const RESERVED: &str =
    "open end begin commit rollback process rules ruleset rule create drop alter table on when if then precedes follows nopriority activate deactivate addrules delrules insert into values delete from update set select where and or not in exists count sum int text inserted deleted updated old-updated new-updated";

/// So many equal lines are written each; more are one with their number.
const FOLDED_FROM: u32 = 9;

/// What stands before the first such byte, and behind it.
pub fn cut(bytes: &[u8], at: u8) -> Option<(&[u8], &[u8])> {
    let place = memchr(at, bytes)?;
    Some((&bytes[..place], &bytes[place + 1..]))
}

pub fn number(digits: &[u8]) -> Option<u32> {
    str::from_utf8(digits).ok()?.parse::<u32>().ok()
}

pub fn push_number(number: u64, out: &mut Vec<u8>) -> Result<(), AllocError> {
    let mut buffer = Buffer::new();
    out.extend_from_slice(buffer.format(number).as_bytes())
}

/// Which of the lines that a line of a script stands for is written.
#[derive(Clone, Copy)]
struct Turn<'a> {
    /// How many were written before it.
    at: u32,
    /// Its reserved word.
    word: &'a [u8],
}

/// Adds the lines that a line of a script stands for. Error: BadRepeat, or out of memory.
pub fn push_lines(line: &[u8], out: &mut Vec<u8>) -> Result<(), ScriptFault> {
    if let Some(starred) = line.strip_prefix(b"*".as_slice()) {
        let Some((digits, rest)) = cut(starred, b' ') else {
            return Err(ScriptFault::BadRepeat);
        };
        push_starred(number(digits).ok_or(ScriptFault::BadRepeat)?, rest, out)
    } else if let Some(rest) = line.strip_prefix(b"%".as_slice()) {
        push_reserved(rest, out)
    } else {
        push_line(line, Turn { at: 0, word: b"" }, out)
    }
}

/// Adds a line so many times.
fn push_starred(times: u32, line: &[u8], out: &mut Vec<u8>) -> Result<(), ScriptFault> {
    for at in 0..times {
        push_line(line, Turn { at, word: b"" }, out)?;
    }
    Ok(())
}

/// Adds a line once for each reserved word.
fn push_reserved(line: &[u8], out: &mut Vec<u8>) -> Result<(), ScriptFault> {
    for word in RESERVED.as_bytes().split(|byte| *byte == b' ') {
        push_line(line, Turn { at: 0, word }, out)?;
    }
    Ok(())
}

/// Adds a line with what stands in braces written out.
fn push_line(line: &[u8], turn: Turn<'_>, out: &mut Vec<u8>) -> Result<(), ScriptFault> {
    let mut parts = line.split(|byte| *byte == b'{');
    if let Some(first) = parts.next() {
        out.extend_from_slice(first)?;
    }
    for part in parts {
        let Some((form, rest)) = cut(part, b'}') else {
            return Err(ScriptFault::BadRepeat);
        };
        push_form(form, turn, out)?;
        out.extend_from_slice(rest)?;
    }
    out.push(b'\n')?;
    Ok(())
}

/// Adds what a form in braces stands for.
fn push_form(form: &[u8], turn: Turn<'_>, out: &mut Vec<u8>) -> Result<(), ScriptFault> {
    if form == b"#".as_slice() {
        push_number(u64::from(turn.at), out)?;
    } else if form == b"%".as_slice() {
        out.extend_from_slice(turn.word)?;
    } else if let Some(digits) = form.strip_prefix(b"byte ".as_slice()) {
        push_byte(digits, 0, out)?;
    } else if let Some(digits) = form.strip_prefix(b"bytes ".as_slice()) {
        push_byte(digits, turn.at, out)?;
    } else {
        push_repeated(form, out)?;
    }
    Ok(())
}

/// Adds the byte of that number, or one so far behind it.
fn push_byte(digits: &[u8], behind: u32, out: &mut Vec<u8>) -> Result<(), ScriptFault> {
    let first = number(digits).ok_or(ScriptFault::BadRepeat)?;
    match u8::try_from(first.saturating_add(behind)) {
        Ok(byte) => Ok(out.push(byte)?),
        Err(_) => Err(ScriptFault::BadRepeat),
    }
}

/// Adds a repeated text, `40|TEXT`.
fn push_repeated(form: &[u8], out: &mut Vec<u8>) -> Result<(), ScriptFault> {
    let Some((digits, text)) = cut(form, b'|') else {
        return Err(ScriptFault::BadRepeat);
    };
    for _ in 0..number(digits).ok_or(ScriptFault::BadRepeat)? {
        out.extend_from_slice(text)?;
    }
    Ok(())
}

/// Adds a text and how often it came, if it came at all. Error: out of memory.
pub fn push_times(
    text: &[u8],
    times: u32,
    what: &[u8],
    out: &mut Vec<u8>,
) -> Result<(), ScriptFault> {
    if times > 0 {
        out.extend_from_slice(text)?;
        out.push(b'(')?;
        push_number(u64::from(times), out)?;
        out.extend_from_slice(what)?;
    }
    Ok(())
}

/// Adds the lines of a text, with many equal ones as one. Error: out of memory.
pub fn push_folded(text: &[u8], out: &mut Vec<u8>) -> Result<(), ScriptFault> {
    let Some(lines) = text.strip_suffix(b"\n".as_slice()) else {
        return Ok(());
    };
    let mut last: &[u8] = &[];
    let mut times: u32 = 0;
    for line in lines.split(|byte| *byte == b'\n') {
        if line != last {
            push_run(last, times, out)?;
            last = line;
            times = 0;
        }
        times = times.saturating_add(1);
    }
    push_run(last, times, out)
}

/// Adds so many equal lines.
fn push_run(line: &[u8], times: u32, out: &mut Vec<u8>) -> Result<(), ScriptFault> {
    let written = if times > FOLDED_FROM { 1 } else { times };
    for _ in 0..written {
        out.extend_from_slice(line)?;
        out.push(b'\n')?;
    }
    if times > written {
        out.push(b'(')?;
        push_number(u64::from(times), out)?;
        out.extend_from_slice(b" times)\n")?;
    }
    Ok(())
}
