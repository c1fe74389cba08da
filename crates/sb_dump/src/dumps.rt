//! A dump of a tenant: its script, which was played.
ghost use Rattle.std.specs.Prelude.{◌≡◌, ◌≤◌, ◌↔◌, true, Err, IfOk};
ghost use Rattle.sb_dump.specs.Dumps.{Dumps, is_busy};
ghost use Rattle.sb_dump.specs.declared.dumps.DumpError.TheVariants.{Busy};
ghost use Rattle.sb_tenant.specs.Tenant.{state};

use crate::copy::draft_of;
use crate::draft::Draft;
use crate::order::{write_order, write_rulesets};
use crate::play::{SendFault, only_tenant, play};
use crate::rules::{write_inactive, write_rules};
use crate::script::Script;
use crate::tables::write_tables;
use sb_tenant::{Bound, Tenant, are_alike};
use std::alloc::{AllocError, Global};

/// Why there is no dump of a tenant.
#[derive(Clone, Copy, Debug, PartialEq, Eq)]
pub enum DumpError {
    /// A session has a transaction.
    Busy,
    /// The tenant that the script makes isn't alike.
    NotAlike,
    NoMemory,
}

/// A script that makes an alike tenant of a fresh one: tables with their rows, rules, their order, rulesets. It was
/// played on a fresh tenant with that bound, and the tenant that it made was compared. Error: Busy where a session has
/// a transaction, NotAlike, or NoMemory.
pub fn dump(alloc: Global, tenant: &Tenant, bound: Bound) -> Result<Script, DumpError>
    requires { bound.considerations ≤ 1000 }
    ensures ok { IfOk result (Dumps bound tenant.now) }
    ensures busy { (result ≡ Err Busy) ↔ (is_busy (state tenant.now) ≡ true) }
{
    let script = draft_of(alloc, tenant)?;
    match play(alloc, tenant.id(), bound, script.lines()) {
        Ok(cell) => match only_tenant(&cell, tenant.id()) {
            Some(copy) if are_alike(copy, tenant) => Ok(script),
            _ => Err(DumpError::NotAlike),
        },
        Err(SendFault::Refused) => Err(DumpError::NotAlike),
        Err(SendFault::NoMemory) => Err(DumpError::NoMemory),
    }
}

/// The lines that are meant to make the tenant.
pub(crate) fn write(alloc: Global, tenant: &Tenant) -> Result<Script, AllocError> {
    let mut draft = Draft::new(alloc);
    let definitions = tenant.definitions();
    write_tables(alloc, &mut draft, tenant.tables())?;
    write_rules(alloc, &mut draft, tenant)?;
    write_order(&mut draft, definitions)?;
    write_rulesets(&mut draft, definitions)?;
    write_inactive(&mut draft, definitions.rules.rules())?;
    Ok(draft.finish())
}
