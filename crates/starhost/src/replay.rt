//! A replay, told as the program tells it.
ghost use Rattle.std.specs.Prelude.{◌≡◌, IfErr, OnOk};
ghost use Rattle.sb_replay.specs.Replay.{Fails, Replays};
ghost use Rattle.sb_replay.specs.declared.error.ReplayError.{ReplayError as ItsError};
ghost use Rattle.starhost.specs.Faults.{unplayed_as};
ghost use Rattle.sb_backup.specs.Outputs.{WritesOf};
ghost use Rattle.sb_words.specs.Within.{AreHost};
ghost use Rattle.sb_backup.specs.Bounds.{bound_of};

use crate::fault::ProgramFault;
use crate::host_end::fault_of;
use sb_replay::{ReplayError, Size, replay_fresh};
use sb_tenant::Bound;
use sb_wire::{Sink, Source, StreamError};
use sb_words::HostOptions;
use std::alloc::Global;
use std::sync::Wait;
use std::thread::Threads;

/// Calls the sessions that an input names on a host of its own, and writes what they were answered.
pub(crate) fn replay<T: Threads + Wait + Sync, R: Source, W: Sink>(
    rt: &T,
    alloc: Global,
    hosting: HostOptions,
    reader: &mut R,
    writer: &mut W,
) -> Result<(), ProgramFault>
    requires { AreHost hosting }
    ensures ok { OnOk result (WritesOf R.remaining W.contents reader.old writer.old writer.new
        (Replays hosting.run.tenants (bound_of hosting.run))) }
    ensures err { IfErr result (λ why. (e : ItsError) × (why ≡ unplayed_as e)
        × Fails R.fails R.remaining W.refuses W.contents hosting.run.tenants (bound_of hosting.run)
        reader.old reader.new writer.old writer.new e) }
{
    let size = Size {
        tenants: hosting.run.tenants,
        bound: Bound {
            considerations: hosting.run.bound,
            work: hosting.run.work,
        },
        cells: hosting.cells,
        workers: hosting.workers,
    };
    match replay_fresh(rt, alloc, size, reader, writer) {
        Ok(()) => Ok(()),
        Err(error) => Err(unplayed(error)),
    }
}

/// The fault of a replay that failed.
pub fn unplayed(error: ReplayError) -> ProgramFault
    ensures { result ≡ unplayed_as error }
{
    match error {
        ReplayError::ReadFault => ProgramFault::Stream(StreamError::ReadFault),
        ReplayError::WriteFault => ProgramFault::Stream(StreamError::WriteFault),
        ReplayError::BadLine { line, .. } => ProgramFault::BadLine { line },
        ReplayError::Attach { tenant, session } => ProgramFault::CannotAttach {
            tenant: u64::from(tenant),
            session: u32::from(session.number()),
        },
        ReplayError::Finish(error) => fault_of(0, error),
        ReplayError::NoMemory => ProgramFault::Stream(StreamError::NoMemory),
    }
}
