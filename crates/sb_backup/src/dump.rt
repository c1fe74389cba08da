//! A dump: the lines of an input, and the script of one tenant as they leave it.
ghost use Rattle.std.specs.Prelude.{◌≡◌, None, Ok, Some, IfErr, IfOk, IfSome, IsOk, OnOk, length};
ghost use Rattle.std.specs.Io.{WritesAtMost};
ghost use Rattle.std.specs.Io.KnownBytes.{Appends, Keeps, WriteAppends};
ghost use Rattle.sb_cell.specs.Tenants.{tenant_at};
ghost use Rattle.sb_dump.specs.Dumps.{Dumps};
ghost use Rattle.sb_tenant.specs.Tenant.{Tenant as ItsTenant};
ghost use Rattle.sb_backup.specs.Dumps.{DumpsInput, IsUndumped, LeavesTenants, RefusesDump, script_text, undumped_as};
ghost use Rattle.sb_backup.specs.Outputs.{WritesOf};
ghost use Rattle.sb_words.specs.Within.{AreDump, AreRun};
ghost use Rattle.sb_backup.specs.Bounds.{bound_of};

use crate::error::BackupError;
use sb_cell::{Cell, ample_buckets};
use sb_dump::{DumpError, Script, dump};
use sb_tenant::Bound;
use sb_wire::{Sink, Source, StreamError, Summary, run_stream, write_and_flush};
use sb_words::{Dumping, Run};
use std::alloc::{AllocError, Global};
use std::io::{self, Write};

/// A writer that drops all bytes.
#[derive(Drop)]
pub(crate) struct Nowhere;

impl Write for Nowhere {
    ghost contents = { λ _. None };

    fn write(&mut self, buf: &[u8]) -> io::Result<usize>
        ensures bound { WritesAtMost result buf.now }
        ensures bytes { WriteAppends None None result buf.now }
        ensures all { result ≡ Ok (length buf.now) }
    {
        Ok(buf.len())
    }

    fn flush(&mut self) -> io::Result<()>
        ensures bytes { Keeps None None }
        ensures ok { IsOk result }
    {
        Ok(())
    }
}

impl Sink for Nowhere {
    ghost refuses = { λ _. ⊥ };

    fn write_some(&mut self, buf: &[u8]) -> io::Result<usize> {
        self.write(buf)
    }

    fn flush_all(&mut self) -> io::Result<()> {
        self.flush()
    }
}

/// Runs the lines of the input on a new cell without writing replies, and writes the script of one tenant. Error: why it
/// isn't written.
pub fn dump_tenant<R: Source, W: Sink>(
    alloc: Global,
    asked: Dumping,
    reader: &mut R,
    writer: &mut W,
) -> Result<(), BackupError>
    requires { AreDump asked }
    ensures ok { OnOk result (WritesOf R.remaining W.contents reader.old writer.old writer.new
        (DumpsInput asked.run.tenants (bound_of asked.run) asked.tenant)) }
    ensures err { IfErr result (λ why. IfSome (R.remaining reader.old)
        (λ input. RefusesDump asked.run.tenants (bound_of asked.run) asked.tenant input why)) }
{
    let cell = match answered(alloc, asked.run, reader) {
        Ok(cell) => cell,
        Err(error) => return Err(BackupError::Stream(error)),
    };
    let script = match script_of(alloc, &cell, asked) {
        Ok(script) => script,
        Err(why) => return Err(why),
    };
    match write_script(alloc, &script, writer) {
        Ok(()) => Ok(()),
        Err(error) => Err(BackupError::Stream(error)),
    }
}

/// Runs the lines of the input on a new cell, and drops the replies.
pub(crate) fn answered<R: Source>(
    alloc: Global,
    run: Run,
    reader: &mut R,
) -> Result<Cell, StreamError>
    requires { AreRun run }
    ensures { IfOk result (λ cell. IfSome (R.remaining reader.old) (λ input.
        (leaves : LeavesTenants run.tenants (bound_of run) input) × (leaves.cell ≡ cell))) }
{
    let buckets = ample_buckets(run.tenants);
    let bound = Bound {
        considerations: run.bound,
        work: run.work,
    };
    let Ok(mut cell) = Cell::with_buckets(alloc, 0, 1, run.tenants, bound, buckets) else {
        return Err(StreamError::NoMemory);
    };
    let mut summary = Summary::new();
    match run_stream(alloc, reader, &mut Nowhere, &mut cell, &mut summary) {
        Ok(()) => Ok(cell),
        Err(error) => Err(error),
    }
}

/// The script of a tenant of the cell.
fn script_of(alloc: Global, cell: &Cell, asked: Dumping) -> Result<Script, BackupError>
    requires { AreDump asked }
    ensures ok { IfOk result (λ script. (own : ItsTenant) × (tenant_at cell.now asked.tenant ≡ Some own)
        × Dumps (bound_of asked.run) own script) }
    ensures err { IfErr result (IsUndumped cell.now asked.tenant) }
{
    let tenant = match cell.tenant(asked.tenant) {
        Some(tenant) => tenant,
        None => {
            return Err(BackupError::NoTenant {
                tenant: u64::from(asked.tenant),
            });
        }
    };
    let bound = Bound {
        considerations: asked.run.bound,
        work: asked.run.work,
    };
    match dump(alloc, tenant, bound) {
        Ok(script) => Ok(script),
        Err(error) => Err(undumped(u64::from(asked.tenant), error)),
    }
}

/// The error of a tenant without a script.
pub fn undumped(tenant: u64, error: DumpError) -> BackupError
    ensures { result ≡ undumped_as tenant error }
{
    match error {
        DumpError::Busy => BackupError::TenantBusy { tenant },
        DumpError::NotAlike => BackupError::CannotDump { tenant },
        DumpError::NoMemory => BackupError::Stream(StreamError::NoMemory),
    }
}

/// Writes a script, each line with its end, and flushes it.
fn write_script<W: Sink>(alloc: Global, script: &Script, writer: &mut W) -> Result<(), StreamError>
    ensures { OnOk result (Appends (W.contents writer.old) (W.contents writer.new) (script_text script.now)) }
{
    match text_of(alloc, script) {
        Ok(text) => write_and_flush(writer, text.as_slice()),
        Err(_) => Err(StreamError::NoMemory),
    }
}

/// The text of a script: each line with its end. Error: out of memory.
pub fn text_of(alloc: Global, script: &Script) -> Result<Vec<u8>, AllocError>
    ensures { IfOk result (λ text. text.items ≡ script_text script.now) }
{
    let mut text = Vec::new(alloc);
    let lines = script.lines();
    for line in lines {
        text.extend_from_slice(line.as_slice())?;
        text.push(b'\n')?;
    }
    Ok(text)
}
