//! The tenants of a host, made from their files.
ghost use Rattle.std.specs.Prelude.{◌≡◌, ◌⊎◌, ◌+◌, ◌++◌, ◌<◌, List, ℕ, None, false, IfErr, IfOk, OnErr, OnOk, option_to_list};
ghost use Rattle.sb_backup.specs.Calls.{IsPlayedIn, IsUnplayedOf, LeaveAll, LeavesFor, RefusesCall, StandsAs, TakesCall};
ghost use Rattle.sb_backup.specs.LoadedCells.{HasLines};
ghost use Rattle.sb_backup.specs.declared.error.BackupError.TheVariants as fault;
ghost use Rattle.sb_wire.specs.declared.fault.StreamError.TheVariants as stream;

use crate::cell_loader::{Unplayed, is_taken, told, unsettled};
use crate::error::BackupError;
use crate::line_player::{Sender, play_lines};
use crate::script_source::{FolderScripts, ScriptSource, Unopened};
use sb_host::{Calling, Lending, NoGate, Reading, Stub};
use sb_tenant::Tenant;
use sb_wire::StreamError;
use sb_words::Log;
use std::alloc::Global;
use std::io::Read;
use std::rt::Files;
use std::sync::Wait;

const OUT_OF_MEMORY: BackupError = BackupError::Stream(StreamError::NoMemory);

/// Calls a session with lines.
#[derive(Drop)]
struct ToSession<'r, T> {
    rt: &'r T,
}

impl<'r, T: Wait, S: Calling> Sender<S> for ToSession<'r, T> {
    ghost takes = { λ _ old own new. TakesCall (S.seen old) own (S.seen new) };

    ghost refuses = { λ _ old own new. RefusesCall (S.seen old) own (S.seen new) };

    fn send(&self, alloc: Global, line: &[u8], to: &mut S) -> Result<(), Vec<u8>> {
        call(self.rt, alloc, line, to)
    }
}

/// Calls the session with a line. Error: the reply that refuses it.
fn call<T: Wait, S: Calling>(
    rt: &T,
    alloc: Global,
    line: &[u8],
    session: &mut S,
) -> Result<(), Vec<u8>>
    ensures ok { OnOk result (TakesCall (S.seen session.old) line.now (S.seen session.new)) }
    ensures err { OnErr result (RefusesCall (S.seen session.old) line.now (S.seen session.new)) }
{
    match session.step(rt, alloc, line, &NoGate) {
        Ok(()) => match session.last() {
            Some(answer) => match is_taken(&answer.reply) {
                true => Ok(()),
                false => Err(told(alloc, &answer.reply)),
            },
            None => unreachable!(),
        },
        Err(_) => Err(Vec::new(alloc)),
    }
}

/// Runs the script of each tenant that has a file, and leaves the receipts of the sessions. Tenants have numbers from
/// `first` on. Error: there is no memory, or a tenant has a bad file.
pub(crate) fn load_all<T: Wait, H: Lending, F: Read + Drop, S: ScriptSource<F>>(
    rt: &T,
    alloc: Global,
    host: H,
    first: u32,
    scripts: &S,
) -> Result<Vec<Stub>, BackupError>
    ensures ok { IfOk result (λ stubs. LeaveAll (S.files scripts.now) (H.tenants host) stubs.items) }
    ensures err { IfErr result (IsUnplayedOf first (H.tenants host)) }
{
    let mut stubs = Vec::new(alloc);
    for tenant in 0..host.tenants() {
        match load_one(rt, alloc, host, first, scripts, tenant) {
            Ok(own) => match add(&mut stubs, own) {
                Ok(()) => {}
                Err(why) => return Err(why),
            },
            Err(why) => return Err(why),
        }
    }
    Ok(stubs)
}

/// Runs the script of each tenant that has a file in a folder, as `load_all` does. Error: NoFolder too, and the reason is
/// logged.
pub fn load_folder<T: Wait + Files, O: Log, H: Lending>(
    alloc: Global,
    host: H,
    scripts: &FolderScripts<'_, '_, T, O>,
) -> Result<Vec<Stub>, BackupError>
    ensures ok { IfOk result (λ stubs. LeaveAll (λ _. None) (H.tenants host) stubs.items) }
    ensures err { IfErr result (λ why. (why ≡ fault.NoFolder) ⊎ IsUnplayedOf scripts.now.folder.first (H.tenants host) why) }
{
    if !scripts.are_found() {
        return Err(BackupError::NoFolder);
    }
    match load_all(scripts.rt, alloc, host, scripts.folder.first, scripts) {
        Ok(stubs) => Ok(stubs),
        Err(why) => Err(why),
    }
}

/// Adds what a tenant's session left, if there was one.
fn add(stubs: &mut Vec<Stub>, own: Option<Stub>) -> Result<(), BackupError>
    ensures ok { OnOk result (stubs.new.items ≡ stubs.old.items ++ option_to_list own) }
    ensures err { IfErr result (λ why. why ≡ fault.Stream stream.NoMemory) }
{
    match own {
        Some(stub) => match stubs.push(stub) {
            Ok(()) => Ok(()),
            Err(_) => Err(OUT_OF_MEMORY),
        },
        None => Ok(()),
    }
}

/// Runs the script of a tenant, if it has a file.
fn load_one<T: Wait, H: Lending, F: Read + Drop, S: ScriptSource<F>>(
    rt: &T,
    alloc: Global,
    host: H,
    first: u32,
    scripts: &S,
    tenant: u32,
) -> Result<Option<Stub>, BackupError>
    ensures ok { IfOk result (LeavesFor tenant (S.files scripts.now tenant)) }
    ensures err { IfErr result (λ why. (why ≡ fault.Stream stream.NoMemory) ⊎ (why ≡ fault.CannotLoad (first + tenant))) }
{
    let unplayed = BackupError::CannotLoad {
        tenant: u64::from(first) + u64::from(tenant),
    };
    match scripts.open(alloc, tenant) {
        Ok(Some(file)) => match play(rt, alloc, host, tenant, file) {
            Ok(stub) => Ok(Some(stub)),
            Err(why) => {
                scripts.note(tenant, &why);
                Err(unplayed)
            }
        },
        Ok(None) => Ok(None),
        Err(Unopened::CannotRead) => Err(unplayed),
        Err(Unopened::NoMemory) => Err(OUT_OF_MEMORY),
    }
}

/// Notes why a script may not end where its session stands so.
#[derive(Drop)]
struct EndCheck {
    why: Option<Unplayed>,
}

impl Reading for EndCheck {
    ghost use Rattle.sb_backup.specs.LoadedCells.{MayEnd};
    ghost use Rattle.sb_tenant.specs.State.{session_at};
    ghost use Rattle.sb_tenant.specs.Tenant.{state};

    ghost reads = { λ _ own new. MayEnd (session_at (state own) 0) new.why };

    fn read(&mut self, tenant: &Tenant) {
        self.why = unsettled(tenant);
    }
}

/// Why a script may not end where a tenant's first session stands now.
fn ending_of<T: Wait, H: Lending>(rt: &T, host: H, tenant: u32) -> Option<Unplayed>
    requires { tenant < H.tenants host }
    ensures { StandsAs tenant result }
{
    let mut ending = EndCheck { why: None };
    let _is_there = host.read(rt, tenant, &mut ending);
    let EndCheck { why } = ending;
    why
}

/// Runs a script in the first session of a tenant.
fn play<T: Wait, H: Lending, F: Read + Drop>(
    rt: &T,
    alloc: Global,
    host: H,
    tenant: u32,
    file: F,
) -> Result<Stub, Unplayed>
    ensures { IfOk result (λ stub. (lines : List (List ℕ)) × HasLines (F.remaining file) lines × IsPlayedIn tenant lines stub
        × StandsAs tenant None) }
{
    let Ok(mut session) = host.attach(rt, alloc, tenant, 0) else {
        return Err(Unplayed::NoSession);
    };
    let played = play_lines(alloc, ToSession { rt }, &mut session, file);
    let ending = ending_of(rt, host, tenant);
    let has_ended = session.ended();
    let stub = session.close(rt);
    match played {
        Ok(()) => {}
        Err(why) => return Err(why),
    }
    if has_ended {
        return Err(Unplayed::Ended);
    }
    match ending {
        Some(why) => Err(why),
        None => Ok(stub),
    }
}
