//! A block as numbers of the refusals that come where memory runs out, which no line can ask for.

use crate::fault::ScriptFault;
use sb_tenant::Reply;
use sb_value::Refusal;
use sb_wire::{WireRefusal, write_bare_refusal, write_bare_reply};

/// Adds the lines of the refusals with these numbers.
pub fn play_memory(numbers: &[u8], out: &mut Vec<u8>) -> Result<(), ScriptFault> {
    for number in numbers.split(|byte| *byte == b'\n') {
        match number {
            b"" => {}
            b"91" => write_bare_reply(out, &Reply::No(Refusal::NoMemory))?,
            b"92" => write_bare_refusal(out, WireRefusal::NotBegun)?,
            _ => return Err(ScriptFault::BadHeader),
        }
    }
    Ok(())
}
