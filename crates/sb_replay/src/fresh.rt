//! A replay on a host of its own.
ghost use Rattle.std.specs.Prelude.{◌≡◌, ◌<◌, ◌≤◌, List, ℕ, IfErr, IfSome, OnOk};
ghost use Rattle.std.specs.Io.KnownBytes.{Appends};
ghost use Rattle.sb_host.specs.Opening.{AreNames};
ghost use Rattle.sb_replay.specs.Replay.{Fails, Replays};

use crate::error::ReplayError;
use crate::replaying::replay;
use sb_host::{Host, Naming, Opened};
use sb_tenant::Bound;
use sb_wire::{Sink, Source};
use std::alloc::Global;
use std::marker::Brand;
use std::sync::Wait;
use std::thread::Threads;

/// How large a replay's host is: its tenants, their consideration limit, its cells, and the threads that call its sessions.
#[derive(Clone, Copy, Debug)]
pub struct Size {
    pub tenants: u32,
    pub bound: Bound,
    pub cells: u32,
    pub workers: u32,
}

/// Replays an input on a fresh host of this size. Error: as of `replay`.
pub fn replay_fresh<T: Threads + Wait + Sync, R: Source, W: Sink>(
    rt: &T,
    alloc: Global,
    size: Size,
    reader: &mut R,
    writer: &mut W,
) -> Result<(), ReplayError>
    requires tenants { (0 < size.tenants) × (size.tenants ≤ 256) × (size.bound.considerations ≤ 1000) }
    requires cells { (0 < size.cells) × (size.cells ≤ 16) }
    requires workers { (0 < size.workers) × (size.workers ≤ 16) }
    ensures ok { OnOk result (IfSome (R.remaining reader.old) (λ input. (text : List ℕ)
        × Appends (W.contents writer.old) (W.contents writer.new) text × Replays size.tenants size.bound input text)) }
    ensures err { let fails = Fails R.fails R.remaining W.refuses W.contents size.tenants size.bound in
        IfErr result (λ e. fails reader.old reader.new writer.old writer.new e) }
{
    match Opened::new(alloc, size.tenants, size.cells, size.bound) {
        Ok(opened) => {
            replay_host::<Brand, T, R, W>(rt, alloc, opened, size.workers as usize, reader, writer)
        }
        Err(_) => Err(ReplayError::NoMemory),
    }
}

/// Replays on a host of these parts.
fn replay_host<N: Naming + Send + Sync, T: Threads + Wait + Sync, R: Source, W: Sink>(
    rt: &T,
    alloc: Global,
    opened: Opened,
    workers: usize,
    reader: &mut R,
    writer: &mut W,
) -> Result<(), ReplayError>
    requires named { AreNames N.table N.tenants N.cells N.bound N.name N.parts opened }
    requires workers { (0 < workers) × (workers ≤ 16) }
    ensures ok { OnOk result (IfSome (R.remaining reader.old) (λ input. (text : List ℕ)
        × Appends (W.contents writer.old) (W.contents writer.new) text × Replays opened.tenants opened.bound input text)) }
    ensures err { let fails = Fails R.fails R.remaining W.refuses W.contents opened.tenants opened.bound in
        IfErr result (λ e. fails reader.old reader.new writer.old writer.new e) }
{
    match Host::<N>::new(alloc, opened) {
        Ok(host) => replay(rt, alloc, reader, writer, host, workers),
        Err(_) => Err(ReplayError::NoMemory),
    }
}
