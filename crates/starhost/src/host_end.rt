//! The end of a server: its host is finished, and the trails are counted.
ghost use Rattle.std.specs.Prelude.{◌≡◌, IfErr, IfOk, OnOk};
ghost use Rattle.starhost.specs.Ends.{FailsToTell};
ghost use Rattle.starhost.specs.Faults.{unfinished_as};
ghost use Rattle.starhost.specs.Totals.{TellsTrails, trails_line};
ghost use Rattle.sb_backup.specs.Outputs.{Writes};

use crate::fault::ProgramFault;
use sb_host::{FinishError, Host, Naming, Report, Stub};
use sb_wire::{Sink, StreamError, write_and_flush, write_totals};
use std::alloc::{AllocError, Global};

/// The line with the numbers of trails and steps.
fn totals(alloc: Global, report: &Report) -> Result<Vec<u8>, AllocError>
    ensures { IfOk result (λ line. line.items ≡ trails_line report.now) }
{
    let Some(steps) = report.steps_made() else {
        return Err(AllocError);
    };
    let mut line = Vec::new(alloc);
    write_totals(&mut line, report.trails.len() as u64, steps)?;
    Ok(line)
}

/// The fault of a finish that failed. The host's tenants have numbers from this one on.
pub(crate) fn fault_of(first_tenant: u32, error: FinishError) -> ProgramFault
    ensures { result ≡ unfinished_as first_tenant error }
{
    match error {
        FinishError::Missing { tenant, session } => ProgramFault::TrailMissing {
            tenant: u64::from(first_tenant) + u64::from(tenant),
            session: u32::from(session.number()),
        },
        FinishError::Mismatch { tenant, session } => ProgramFault::TrailMismatch {
            tenant: u64::from(first_tenant) + u64::from(tenant),
            session: u32::from(session.number()),
        },
        FinishError::NoMemory => ProgramFault::Stream(StreamError::NoMemory),
    }
}

/// Finishes a host with the receipts of its sessions, and writes the numbers of trails and steps.
pub(crate) fn finish<N: Naming, W: Sink>(
    alloc: Global,
    host: Host<N>,
    first_tenant: u32,
    stubs: Vec<Stub>,
    writer: &mut W,
) -> Result<(), ProgramFault>
    ensures ok { OnOk result (Writes W.contents writer.old writer.new (TellsTrails N.bound host)) }
    ensures err { IfErr result (λ why. FailsToTell W.refuses W.contents N.bound host first_tenant stubs.items
        writer.old writer.new why) }
{
    let report = match host.finish(alloc, stubs) {
        Ok(report) => report,
        Err(error) => return Err(fault_of(first_tenant, error)),
    };
    let Ok(line) = totals(alloc, &report) else {
        return Err(ProgramFault::Stream(StreamError::NoMemory));
    };
    match write_and_flush(writer, line.as_slice()) {
        Ok(()) => Ok(()),
        Err(error) => Err(ProgramFault::Stream(error)),
    }
}
