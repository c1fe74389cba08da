//! A block as texts that are read as commands and no more. A text that is no command also says where it stops being one.
ghost use Rattle.std.specs.Prelude.{◌≤◌, length};
ghost use Rattle.sb_syntax.specs.Text.{text_limit};

use crate::fault::ScriptFault;
use crate::repeat::push_number;
use sb_syntax::{ParseError, parse};
use sb_tenant::Reply;
use sb_value::Refusal;
use sb_wire::{LINE_LIMIT, StreamError, WireRefusal, write_bare_refusal, write_bare_reply};
use std::alloc::Global;

/// Adds the answers to these lines. Error: out of memory.
pub fn play_syntax(alloc: Global, lines: &[u8], out: &mut Vec<u8>) -> Result<(), ScriptFault> {
    for line in lines.split(|byte| *byte == b'\n') {
        if line.len() > LINE_LIMIT {
            write_bare_refusal(out, WireRefusal::TooLong)?;
        } else if !line.is_empty() {
            answer(alloc, line, out)?;
        }
    }
    Ok(())
}

fn answer(alloc: Global, line: &[u8], out: &mut Vec<u8>) -> Result<(), ScriptFault>
    requires { length line.now ≤ text_limit }
{
    match parse(alloc, line) {
        Ok(_) => write_bare_reply(out, &Reply::Ok)?,
        Err(ParseError::NoMemory) => return Err(ScriptFault::Stream(StreamError::NoMemory)),
        Err(ParseError::Syntax { place }) => {
            write_bare_reply(out, &Reply::No(Refusal::Syntax))?;
            out.extend_from_slice(b"at ")?;
            push_number(place as u64, out)?;
            out.push(b'\n')?;
        }
    }
    Ok(())
}
