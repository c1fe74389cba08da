//! An input, read to its end.
ghost use Rattle.std.specs.Prelude.{◌≡◌, ◌*◌, ℕ, List, IfOk, IfErr, IfSome, length};
ghost use Rattle.std.specs.Io.KnownBytes.{Consumes};
ghost use Rattle.sb_replay.specs.Scripts.{FailsToRead, HoldsScript};

use crate::error::ScriptError;
use crate::script::{RankedCommands, ScriptState};
use sb_wire::{Piece, Responder, Source, StreamError, answer_stream};
use std::alloc::{AllocError, Global};

/// Reads an input to its end, and gives the commands of each session, in the order of tenants and sessions. Error: a
/// read failed, BadLine with its number and why, or out of memory.
pub fn read_script<R: Source>(
    alloc: Global,
    reader: &mut R,
    tenants: u32,
) -> Result<Vec<Vec<Vec<u8>>>, ScriptError>
    ensures count { IfOk result (λ rows. length rows.items ≡ 8 * tenants) }
    ensures ok { IfOk result (λ rows. IfSome (R.remaining reader.old) (λ input. HoldsScript tenants input rows.items)) }
    ensures err { IfErr result (λ e. (seen : List ℕ) × Consumes (R.remaining reader.old) (R.remaining reader.new) seen
        × FailsToRead R.fails R.remaining tenants seen reader.new e) }
{
    let Ok(mut script) = RankedCommands::new(alloc, tenants) else {
        return Err(ScriptError::NoMemory);
    };
    let mut progress = ScriptState::Going { lines: 0 };
    let mut answers: Vec<u8> = Vec::new(alloc);
    match answer_stream(
        alloc,
        reader,
        &mut answers,
        &ScriptLines,
        &mut script,
        &mut progress,
    ) {
        Ok(()) => script.understood(progress),
        Err(StreamError::ReadFault) => Err(ScriptError::ReadFault),
        Err(_) => Err(ScriptError::NoMemory),
    }
}

/// Lines are commands of a script, and no text answers them.
struct ScriptLines;

impl Responder<RankedCommands, ScriptState> for ScriptLines {
    ghost use Rattle.sb_replay.specs.Scripts.{Reads, is_over};

    ghost responds = { λ _. Reads };

    ghost over = { is_over };

    fn respond(
        &self,
        alloc: Global,
        piece: Piece<'_>,
        _out: &mut Vec<u8>,
        first: &mut RankedCommands,
        second: &mut ScriptState,
    ) -> Result<(), AllocError> {
        *second = first.read(alloc, piece, *second);
        Ok(())
    }

    fn is_over(&self, _first: &RankedCommands, _second: &ScriptState) -> bool {
        false
    }
}
