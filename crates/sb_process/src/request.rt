//! Locks for a session, all at once or none.
ghost use Rattle.std.specs.Prelude.{◌≡◌, ◌⊎◌, ℕ, Some, None, OnOk, IfErr, OnErr};
ghost use Rattle.sb_value.specs.Locks.{first_conflict, with_locks};
ghost use Rattle.sb_value.specs.declared.lock.LockMode.{LockMode};
ghost use Rattle.sb_eval.specs.Statement as spec;
ghost use Rattle.sb_locks.specs.Held.{held};
ghost use Rattle.sb_process.specs.Request.{AreThere, IsLocked};

use crate::lock_list::statement_locks;
use sb_check::Statement;
use sb_locks::Locks;
use sb_tables::Tables;
use sb_value::{LockMode, Refusal, SessionId, TableId};
use std::alloc::Global;

/// Takes all locks of the list, or none: the first table that conflicts is named.
pub(crate) fn request(
    locks: &mut Locks,
    tables: &Tables,
    session: SessionId,
    list: &[(TableId, LockMode)],
) -> Result<(), Refusal>
    requires { AreThere tables.now list.now }
    ensures granted { OnOk result (first_conflict (held locks.old) session list.now ≡ None) }
    ensures taken { OnOk result ((s t : ℕ) (m : LockMode) →
        held locks.new s t m ≡ with_locks (held locks.old) session list.now s t m) }
    ensures refused { IfErr result (λ e. (table : ℕ)
        × (first_conflict (held locks.old) session list.now ≡ Some table) × IsLocked tables.now table e) }
    ensures unchanged { OnErr result (locks.new ≡ locks.old) }
{
    match locks.request(session, list) {
        Ok(()) => Ok(()),
        Err(locked) => Err(Refusal::Locked(*tables.name(locked.table).unwrap())),
    }
}

/// Takes all locks of a statement, or none. An insert of rows needs no list of them.
pub(crate) fn lock(
    alloc: Global,
    locks: &mut Locks,
    tables: &Tables,
    session: SessionId,
    statement: &Statement,
) -> Result<(), Refusal>
    requires { AreThere tables.now (spec.statement_locks statement.now) }
    ensures granted { OnOk result
        (first_conflict (held locks.old) session (spec.statement_locks statement.now) ≡ None) }
    ensures taken { OnOk result ((s t : ℕ) (m : LockMode) →
        held locks.new s t m ≡ with_locks (held locks.old) session (spec.statement_locks statement.now) s t m) }
    ensures refused { IfErr result (λ e. (e ≡ Refusal.NoMemory) ⊎ ((table : ℕ)
        × (first_conflict (held locks.old) session (spec.statement_locks statement.now) ≡ Some table)
        × IsLocked tables.now table e)) }
    ensures unchanged { OnErr result (locks.new ≡ locks.old) }
{
    if let Statement::InsertRows(target, _) = statement {
        return request(locks, tables, session, &[(*target, LockMode::Write)]);
    }
    let Ok(list) = statement_locks(alloc, statement) else {
        return Err(Refusal::NoMemory);
    };
    request(locks, tables, session, list.as_slice())
}
