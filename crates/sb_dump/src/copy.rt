//! A copy of a tenant in two steps: its script is written where the tenant is read, and is played elsewhere.
ghost use Rattle.std.specs.Prelude.{◌≡◌, ◌≤◌, ◌↔◌, true, Err, IfOk};
ghost use Rattle.sb_dump.specs.Dumps.{is_busy, played};
ghost use Rattle.sb_dump.specs.declared.dumps.DumpError.TheVariants.{Busy};
ghost use Rattle.sb_tenant.specs.Tenant.{state};

use crate::dumps::{DumpError, write};
use crate::play::{SendFault, play};
use crate::script::Script;
use sb_tenant::{Bound, Tenant, is_busy};
use sb_value::TenantId;
use std::alloc::Global;

/// The script that is meant to make a tenant again. It isn't played. Error: Busy where a session has a transaction, or
/// NoMemory.
pub fn draft_of(alloc: Global, tenant: &Tenant) -> Result<Script, DumpError>
    ensures { (result ≡ Err Busy) ↔ (is_busy (state tenant.now) ≡ true) }
{
    if is_busy(tenant) {
        return Err(DumpError::Busy);
    }
    match write(alloc, tenant) {
        Ok(script) => Ok(script),
        Err(_) => Err(DumpError::NoMemory),
    }
}

/// The tenant of that number and bound that a script makes of a fresh one. Error: NotAlike where a line can't be sent or
/// is refused, or NoMemory.
pub fn made_by(
    alloc: Global,
    id: TenantId,
    bound: Bound,
    script: &Script,
) -> Result<Tenant, DumpError>
    requires { bound.considerations ≤ 1000 }
    ensures { IfOk result (λ own. (own.id ≡ id) × (own.bound ≡ bound) × (state own ≡ played id bound script.now)) }
{
    match play(alloc, id, bound, script.lines()) {
        Ok(cell) => match cell.into_tenants().pop() {
            Some(own) => Ok(own),
            None => Err(DumpError::NotAlike),
        },
        Err(SendFault::Refused) => Err(DumpError::NotAlike),
        Err(SendFault::NoMemory) => Err(DumpError::NoMemory),
    }
}
