//! The scripts of a host's tenants.
ghost use Rattle.std.specs.Prelude.{◌≡◌, ◌≤◌};
ghost use Rattle.sb_backup.specs.HostDumps.{IsNotedOf, IsNotedOfSome};

use sb_dump::{DumpError, Script, dump};
use sb_host::{Lending, Reading};
use sb_tenant::{Bound, Tenant};
use std::alloc::Global;
use std::sync::Wait;

/// The script of a tenant, or why there is none.
#[derive(Drop)]
pub enum NotedScript {
    /// No session of it was ever opened.
    Unused,
    /// It has this one.
    Script(Script),
    /// It has no script.
    Lacking(DumpError),
}

/// Makes the script of a tenant under the lock of its cell.
#[derive(Drop)]
pub struct ScriptNotes {
    alloc: Global,
    /// The bound of each step.
    pub bound: Bound,
    /// What was noted.
    pub noted: NotedScript,
    ghost few: { bound.considerations ≤ 1000 },
}

impl ScriptNotes {
    /// Nothing is noted yet.
    pub fn new(alloc: Global, bound: Bound) -> ScriptNotes
        requires { bound.considerations ≤ 1000 }
        ensures { (result.bound ≡ bound) × (result.noted ≡ NotedScript.Unused) }
    {
        ScriptNotes {
            alloc,
            bound,
            noted: NotedScript::Unused,
        }
    }
}

impl Reading for ScriptNotes {
    ghost use Rattle.sb_backup.specs.declared.host_dump.NotedScript.TheVariants as found;

    ghost reads = { λ old own new. old.noted ≡ found.Unused → IsNotedOf old.bound own new.noted };

    fn read(&mut self, tenant: &Tenant) {
        if tenant.trail().is_empty() {
            return;
        }
        self.noted = script_of(self.alloc, tenant, self.bound);
    }
}

/// What a tenant has that was opened.
fn script_of(alloc: Global, tenant: &Tenant, bound: Bound) -> NotedScript
    requires { bound.considerations ≤ 1000 }
    ensures { IsNotedOf bound tenant.now result }
{
    match dump(alloc, tenant, bound) {
        Ok(script) => NotedScript::Script(script),
        Err(error) => NotedScript::Lacking(error),
    }
}

/// The script of a tenant, which is read under the lock of its cell.
pub fn noted_of<T: Wait, H: Lending>(
    rt: &T,
    host: H,
    tenant: u32,
    mut notes: ScriptNotes,
) -> NotedScript
    requires { notes.noted ≡ NotedScript.Unused }
    ensures { IsNotedOfSome notes.bound (H.tenants host) tenant result }
{
    let _is_there = host.read(rt, tenant, &mut notes);
    let ScriptNotes { noted, .. } = notes;
    noted
}
