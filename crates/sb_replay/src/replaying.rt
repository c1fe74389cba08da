//! A replay, from its input to its output.
ghost use Rattle.std.specs.Prelude.{◌≡◌, ◌<◌, ◌≤◌, ◌++◌, ℕ, List, [], IfErr, IfSome, OnErr, OnOk};
ghost use Rattle.std.specs.Io.KnownBytes.{Appends};
ghost use Rattle.sb_wire.specs.Stream.{MayFail};
ghost use Rattle.sb_replay.specs.Replay.{Fails, Replays};

use crate::closing::play_all;
use crate::error::{ReplayError, unread};
use crate::finishing::finish;
use crate::reading::read_script;
use sb_host::laws::steps_fix_the_order;
use sb_host::{Host, Naming};
use sb_wire::{Sink, Source, write_and_flush};
use std::alloc::Global;
use std::sync::Wait;
use std::thread::Threads;

/// Replays an input: reads it to its end, opens each session that it names, calls all sessions round by round with
/// their commands on so many threads, closes them, finishes the host, and only then writes what they were answered.
/// Error: a read or a write failed, BadLine, a session that wasn't opened (Attach), receipts that aren't the trails'
/// (Finish), or out of memory.
pub fn replay<R: Source, W: Sink, N: Naming + Send + Sync, T: Threads + Wait + Sync>(
    rt: &T,
    alloc: Global,
    reader: &mut R,
    writer: &mut W,
    host: Host<N>,
    workers: usize,
) -> Result<(), ReplayError>
    requires workers { (0 < workers) × (workers ≤ 16) }
    ensures ok { OnOk result (IfSome (R.remaining reader.old) (λ input. (text : List ℕ)
        × Appends (W.contents writer.old) (W.contents writer.new) text × Replays host N.bound input text)) }
    ensures err { let fails = Fails R.fails R.remaining W.refuses W.contents host N.bound in
        IfErr result (λ e. fails reader.old reader.new writer.old writer.new e) }
{
    let rows = match read_script(alloc, reader, host.tenants()) {
        Ok(rows) => rows,
        Err(error) => return Err(unread(error)),
    };
    let closed = match play_all(rt, alloc, &host, rows, workers) {
        Ok(closed) => closed,
        Err(error) => return Err(error),
    };
    let text = match finish(alloc, host, closed) {
        Ok(text) => text,
        Err(error) => return Err(error),
    };
    // for the proof: receipts that are the entries in some order, with rising numbers, are the entries in order
    steps_fix_the_order();
    write_out(writer, text.as_slice())
}

/// Writes the text, and flushes it.
fn write_out<W: Sink>(writer: &mut W, text: &[u8]) -> Result<(), ReplayError>
    ensures writes { (written left : List ℕ) × (text.now ≡ written ++ left)
        × Appends (W.contents writer.old) (W.contents writer.new) written
        × OnOk result (left ≡ []) }
    ensures refused { OnErr result (MayFail W.refuses W.contents writer.new) }
    ensures fault { IfErr result (λ e. e ≡ ReplayError.WriteFault) }
{
    match write_and_flush(writer, text) {
        Ok(()) => Ok(()),
        Err(_) => Err(ReplayError::WriteFault),
    }
}
