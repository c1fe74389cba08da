//! Dumps of all tenants that an input opened, to the files of a folder.
ghost use Rattle.std.specs.Prelude.{◌≡◌, ◌≢◌, ◌⊎◌, ◌<◌, ℕ, None, Some, IfErr, IfSome, OnOk};
ghost use Rattle.sb_backup.specs.Dumps.{FirstUnwritten, HasScript, HaveScripts, IsUnwritten, RefusesDumps};
ghost use Rattle.sb_words.specs.Within.{AreRun};
ghost use Rattle.sb_backup.specs.Bounds.{bound_of};

use crate::dump::{answered, undumped};
use crate::error::BackupError;
use crate::folder::found_folder;
use crate::script_files::ScriptFiles;
use sb_cell::Cell;
use sb_dump::dump;
use sb_tenant::Bound;
use sb_wire::Source;
use sb_words::{Log, Run};
use std::alloc::Global;
use std::fs::File;
use std::rt::Files;

/// Runs the lines of the input on a new cell without writing replies, and writes a script for each tenant that was
/// opened. Error: why the first tenant isn't written, or none is.
pub fn dump_all<T: Files<File = File>, O: Log, R: Source>(
    rt: &T,
    alloc: Global,
    log: &O,
    asked: Run,
    into: Option<&str>,
    reader: &mut R,
) -> Result<(), BackupError>
    requires { AreRun asked }
    ensures ok { OnOk result (IfSome (R.remaining reader.old) (HaveScripts asked.tenants (bound_of asked))) }
    ensures err { IfErr result (λ why. IfSome (R.remaining reader.old)
        (λ input. RefusesDumps asked.tenants (bound_of asked) input why)) }
{
    let Some(folder) = found_folder(rt, into, log) else {
        return Err(BackupError::NoFolder);
    };
    let Some(_lock) = folder.lock(rt, log) else {
        return Err(BackupError::NoFolder);
    };
    let cell = match answered(alloc, asked, reader) {
        Ok(cell) => cell,
        Err(error) => return Err(BackupError::Stream(error)),
    };
    let files = ScriptFiles {
        rt,
        alloc,
        bound: Bound {
            considerations: asked.bound,
            work: asked.work,
        },
        folder,
        log,
    };
    match write_each(&files, &cell, asked.tenants) {
        None => Ok(()),
        Some(why) => Err(why),
    }
}

/// Writes the file of each tenant that was opened. After a fault the others are still written, and the first fault is
/// returned.
fn write_each<T: Files, O: Log>(
    files: &ScriptFiles<'_, '_, T, O>,
    cell: &Cell,
    tenants: u32,
) -> Option<BackupError>
    requires { files.now.folder.first ≡ 0 }
    ensures all { result ≡ None → (t : ℕ) → t < tenants → HasScript files.now.bound cell.now t }
    ensures why { IfSome result (FirstUnwritten tenants files.now.bound cell.now) }
{
    let mut first = None;
    for tenant in 0..tenants {
        match write_one(files, cell, tenant) {
            Ok(()) => {}
            Err(why) => {
                files.tell_unsaved(tenant);
                first = earlier(first, why);
            }
        }
    }
    first
}

/// The earlier of two faults.
fn earlier(first: Option<BackupError>, next: BackupError) -> Option<BackupError>
    ensures { ((first ≢ None) × (result ≡ first)) ⊎ ((first ≡ None) × (result ≡ Some next)) }
{
    match first {
        Some(why) => Some(why),
        None => Some(next),
    }
}

/// Writes the file of a tenant, if it was opened.
fn write_one<T: Files, O: Log>(
    files: &ScriptFiles<'_, '_, T, O>,
    cell: &Cell,
    tenant: u32,
) -> Result<(), BackupError>
    requires { files.now.folder.first ≡ 0 }
    ensures ok { OnOk result (HasScript files.now.bound cell.now tenant) }
    ensures err { IfErr result (IsUnwritten cell.now tenant) }
{
    let number = files.folder.number_of(tenant);
    let Some(own) = cell.tenant(tenant) else {
        return Err(BackupError::NoTenant { tenant: number });
    };
    if own.trail().is_empty() {
        return Ok(());
    }
    match dump(files.alloc, own, files.bound) {
        Ok(script) => files.write(number, &script),
        Err(error) => Err(undumped(number, error)),
    }
}
