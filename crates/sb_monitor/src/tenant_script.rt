//! The script of a tenant, as a page shows it.
ghost use Rattle.std.specs.Prelude.{◌≡◌, ◌⊎◌};
ghost use Rattle.sb_backup.specs.HostDumps.{IsNotedOfSome};

use sb_backup::{DumpError, NotedScript, ScriptNotes};
use sb_host::{Lending, Tried};
use sb_status::LockBudget;
use std::rt::Clock;

/// The script of a tenant, unless its cell is busy for too long.
pub(crate) fn noted_in<T: Clock, H: Lending>(
    patience: &mut LockBudget<'_, T>,
    host: H,
    tenant: u32,
    mut notes: ScriptNotes,
) -> NotedScript
    requires { notes.noted ≡ NotedScript.Unused }
    ensures { (result ≡ NotedScript.Lacking DumpError.Busy) ⊎ IsNotedOfSome notes.bound (H.tenants host) tenant result }
{
    if let Tried::Held = patience.read(host, tenant, &mut notes) {
        return NotedScript::Lacking(DumpError::Busy);
    }
    let ScriptNotes { noted, .. } = notes;
    noted
}
