//! What a server leaves: the receipts of its sessions, and how its files were written.
ghost use Rattle.std.specs.Prelude.{◌≡◌, IfErr, OnOk, is_ok, true};
ghost use Rattle.sb_backup.specs.Outputs.{Writes};
ghost use Rattle.starhost.specs.Ends.{FailsToTell};
ghost use Rattle.starhost.specs.Faults.{unserved_as};
ghost use Rattle.starhost.specs.Plains.{HasEarlier};
ghost use Rattle.starhost.specs.Totals.{TellsTrails};

use crate::fault::ProgramFault;
use crate::host_end::finish;
use sb_durable::JournalFault;
use sb_host::{Host, Naming, Stub};
use sb_server::ServeError;
use sb_wire::{Sink, StreamError};
use std::alloc::Global;

pub(crate) const OUT_OF_MEMORY: ProgramFault = ProgramFault::Stream(StreamError::NoMemory);

/// The result of serving.
#[derive(Drop)]
pub(crate) struct ServerEnd {
    /// The receipts of all sessions.
    pub(crate) stubs: Vec<Stub>,
    /// How the files were written.
    pub(crate) saved: Result<(), ProgramFault>,
}

/// The fault of a server that could not serve.
pub(crate) fn unserved(error: ServeError) -> ProgramFault
    ensures { result ≡ unserved_as error }
{
    match error {
        ServeError::NoMemory => OUT_OF_MEMORY,
        ServeError::NoPlace => ProgramFault::CannotWait,
        ServeError::NoThread => ProgramFault::CannotStart,
        ServeError::PollFailed => ProgramFault::WaitingFailed,
        ServeError::NotKept => ProgramFault::Journal(JournalFault::Failed),
    }
}

/// The end of a server, with receipts that it had before in front of those that were left.
pub(crate) fn with_earlier(
    earlier: Vec<Stub>,
    served: Result<ServerEnd, ProgramFault>,
) -> Result<ServerEnd, ProgramFault>
    ensures { HasEarlier earlier.items served result }
{
    let ServerEnd { mut stubs, saved } = served?;
    let mut all = earlier;
    match all.append(&mut stubs) {
        Ok(()) => Ok(ServerEnd { stubs: all, saved }),
        Err(_) => Err(OUT_OF_MEMORY),
    }
}

/// Finishes the host with the receipts of its sessions. If that succeeds and a file was not written, that is the fault.
pub(crate) fn finish_served<N: Naming, W: Sink>(
    alloc: Global,
    host: Host<N>,
    first_tenant: u32,
    served: ServerEnd,
    writer: &mut W,
) -> Result<(), ProgramFault>
    ensures ok { OnOk result (Writes W.contents writer.old writer.new (TellsTrails N.bound host)) }
    ensures err { is_ok served.saved ≡ true → IfErr result (λ why. FailsToTell W.refuses W.contents N.bound host
        first_tenant served.stubs.items writer.old writer.new why) }
{
    let ServerEnd { stubs, saved } = served;
    match finish(alloc, host, first_tenant, stubs, writer) {
        Ok(()) => saved,
        Err(why) => Err(why),
    }
}
