//! Tenants of a cell, made from the files of a folder.
ghost use Rattle.std.specs.Prelude.{◌≡◌, ◌⊎◌, ◌∷◌, ◌↔◌, [], List, ℕ, false, IfErr, IfOk, IsTrue, OnErr, OnOk};
ghost use Rattle.sb_cell.specs.Tenants.{IsNew};
ghost use Rattle.sb_backup.specs.Loads.{IsLoaded, IsLoadedFrom, IsUnloaded};
ghost use Rattle.sb_backup.specs.LoadedCells.{HasLines, IsPlayed, IsSettled, IsStarted, IsTaken, IsUnsettled, MayEnd, RefusesLine, Sends, TakesLine};
ghost use Rattle.sb_backup.specs.declared.error.BackupError.TheVariants as fault;
ghost use Rattle.sb_tenant.specs.State.{session_at};
ghost use Rattle.sb_tenant.specs.Tenant.{state};
ghost use Rattle.sb_wire.specs.declared.fault.StreamError.TheVariants as stream;
ghost use Rattle.sb_words.specs.Within.{AreRun};
ghost use Rattle.sb_backup.specs.Bounds.{bound_of};

use crate::error::BackupError;
use crate::folder::found_folder;
use crate::line_player::{Sender, play_lines};
use crate::script_source::{FolderScripts, ScriptSource, Unopened};
use sb_cell::{Cell, ample_buckets};
use sb_host::SessionId;
use sb_tenant::{Bound, Reply, Tenant};
use sb_wire::{StreamError, write_bare_reply};
use sb_words::{Log, Run};
use std::alloc::Global;
use std::io::Read;
use std::rt::Files;

/// Why a script was not run to its end.
#[derive(Drop)]
pub(crate) enum Unplayed {
    /// No session could be opened.
    NoSession,
    /// The file can't be read, or memory ran out.
    Stream(StreamError),
    /// A line was refused. Lines are counted from 1.
    Line { line: u64, told: Vec<u8> },
    /// The script stops inside a transaction.
    InTransaction,
    /// The script ends its session.
    Ended,
}

/// True if this is a reply to a line of a valid script.
pub(crate) fn is_taken(reply: &Reply) -> bool
    ensures { IsTrue result ↔ IsTaken reply.now }
{
    match reply {
        Reply::Ok | Reply::Count(_) => true,
        Reply::Done(trace) => trace.as_slice().is_empty(),
        _ => false,
    }
}

/// Why a script may not end here, by the state of the tenant's first session.
pub(crate) fn unsettled(tenant: &Tenant) -> Option<Unplayed>
    ensures { MayEnd (session_at (state tenant.now) 0) result }
{
    let first = SessionId::new(0);
    if tenant.has_transaction(first) {
        return Some(Unplayed::InTransaction);
    }
    if !tenant.is_open(first) {
        return Some(Unplayed::Ended);
    }
    None
}

/// Makes a cell whose tenants have run the scripts of their files. Error: there is no folder or no memory, or a file is
/// bad.
pub fn loaded_cell<T: Files, O: Log>(
    rt: &T,
    alloc: Global,
    log: &O,
    run: Run,
    load: Option<&str>,
) -> Result<Cell, BackupError>
    requires { AreRun run }
    ensures ok { IfOk result (IsLoaded run.tenants (bound_of run)) }
    ensures err { IfErr result (IsUnloaded run.tenants) }
{
    let Some(folder) = found_folder(rt, load, log) else {
        return Err(BackupError::NoFolder);
    };
    let buckets = ample_buckets(run.tenants);
    let bound = Bound {
        considerations: run.bound,
        work: run.work,
    };
    let Ok(mut cell) = Cell::with_buckets(alloc, 0, 1, run.tenants, bound, buckets) else {
        return Err(BackupError::Stream(StreamError::NoMemory));
    };
    let scripts = FolderScripts { rt, folder, log };
    match load_each(alloc, &mut cell, run, &scripts) {
        Ok(()) => Ok(cell),
        Err(why) => Err(why),
    }
}

/// Runs the script of each tenant that has a file.
fn load_each<F: Read + Drop, S: ScriptSource<F>>(
    alloc: Global,
    cell: &mut Cell,
    run: Run,
    scripts: &S,
) -> Result<(), BackupError>
    requires { IsNew 0 1 run.tenants (bound_of run) cell.old }
    ensures ok { OnOk result (IsLoadedFrom (S.files scripts.now) run.tenants (bound_of run) cell.new) }
    ensures err { IfErr result (IsUnloaded run.tenants) }
{
    for tenant in 0..run.tenants {
        match load_one(alloc, cell, scripts, tenant) {
            Ok(()) => {}
            Err(why) => return Err(why),
        }
    }
    Ok(())
}

/// Runs the script of a tenant, if it has a file.
fn load_one<F: Read + Drop, S: ScriptSource<F>>(
    alloc: Global,
    cell: &mut Cell,
    scripts: &S,
    tenant: u32,
) -> Result<(), BackupError>
    ensures ok { OnOk result (IsStarted tenant (S.files scripts.now tenant) cell.old cell.new) }
    ensures err { IfErr result (λ why. (why ≡ fault.Stream stream.NoMemory) ⊎ (why ≡ fault.CannotLoad tenant)) }
{
    match scripts.open(alloc, tenant) {
        Ok(Some(file)) => match play(alloc, cell, tenant, file) {
            Ok(()) => Ok(()),
            Err(why) => {
                scripts.note(tenant, &why);
                Err(BackupError::CannotLoad {
                    tenant: u64::from(tenant),
                })
            }
        },
        Ok(None) => Ok(()),
        Err(Unopened::CannotRead) => Err(BackupError::CannotLoad {
            tenant: u64::from(tenant),
        }),
        Err(Unopened::NoMemory) => Err(BackupError::Stream(StreamError::NoMemory)),
    }
}

/// Runs a script in the first session of a tenant, which is opened before and ended after.
fn play<F: Read + Drop>(
    alloc: Global,
    cell: &mut Cell,
    tenant: u32,
    file: F,
) -> Result<(), Unplayed>
    ensures { OnOk result (IsPlayed tenant (F.remaining file) cell.old cell.new) }
{
    match send_own(alloc, cell, tenant, b"open") {
        Ok(()) => {}
        Err(why) => return Err(why),
    }
    match send_lines(alloc, cell, tenant, file) {
        Ok(()) => {}
        Err(why) => return Err(why),
    }
    send_own(alloc, cell, tenant, b"end")
}

/// Opens the session, or ends it.
fn send_own(alloc: Global, cell: &mut Cell, tenant: u32, line: &[u8]) -> Result<(), Unplayed>
    ensures { OnOk result (Sends tenant (line.now ∷ []) cell.old cell.new) }
{
    match send(alloc, cell, tenant, line) {
        Ok(()) => Ok(()),
        Err(told) => {
            drop(told);
            Err(Unplayed::NoSession)
        }
    }
}

/// Sends the lines of a file. The session must have no transaction at the end.
fn send_lines<F: Read + Drop>(
    alloc: Global,
    cell: &mut Cell,
    tenant: u32,
    file: F,
) -> Result<(), Unplayed>
    ensures { OnOk result ((lines : List (List ℕ)) × HasLines (F.remaining file) lines × Sends tenant lines cell.old cell.new
        × IsSettled tenant cell.new) }
{
    match play_lines(alloc, ToTenant { tenant }, cell, file) {
        Ok(()) => check_end(cell, tenant),
        Err(why) => Err(why),
    }
}

/// True if a script may end here, by the state of the tenant's session.
fn check_end(cell: &Cell, tenant: u32) -> Result<(), Unplayed>
    ensures ok { OnOk result (IsSettled tenant cell.now) }
    ensures err { IfErr result (IsUnsettled tenant cell.now) }
{
    match cell.tenant(tenant) {
        Some(own) => match unsettled(own) {
            Some(why) => Err(why),
            None => Ok(()),
        },
        None => Err(Unplayed::NoSession),
    }
}

/// Sends lines to a tenant in its first session.
#[derive(Drop)]
struct ToTenant {
    tenant: u32,
}

impl Sender<Cell> for ToTenant {
    ghost takes = { λ s. TakesLine s.tenant };

    ghost refuses = { λ s. RefusesLine s.tenant };

    fn send(&self, alloc: Global, line: &[u8], to: &mut Cell) -> Result<(), Vec<u8>> {
        send(alloc, to, self.tenant, line)
    }
}

/// Sends a line to a tenant's first session. Error: the reply that refuses it.
fn send(alloc: Global, cell: &mut Cell, tenant: u32, line: &[u8]) -> Result<(), Vec<u8>>
    ensures ok { OnOk result (TakesLine tenant cell.old line.now cell.new) }
    ensures err { OnErr result (RefusesLine tenant cell.old line.now cell.new) }
{
    match cell.step(alloc, tenant, 0, line) {
        Ok(answer) => match is_taken(&answer.reply) {
            true => Ok(()),
            false => Err(told(alloc, &answer.reply)),
        },
        Err(_) => Err(Vec::new(alloc)),
    }
}

/// The text of a reply. It is empty without memory.
pub(crate) fn told(alloc: Global, reply: &Reply) -> Vec<u8> {
    let mut text = Vec::new(alloc);
    let _told = write_bare_reply(&mut text, reply);
    text
}
