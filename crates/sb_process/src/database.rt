//! What statements and rules of a tenant change.
ghost use Rattle.std.specs.Prelude.{◌≡◌, ℕ, []};
ghost use Rattle.sb_value.specs.Locks.{no_locks};
ghost use Rattle.sb_value.specs.declared.lock.LockMode.{LockMode};
ghost use Rattle.sb_locks.specs.Held.{held};
ghost use Rattle.sb_process.specs.Represents.{who_in};
ghost use Rattle.sb_process.specs.Transactions.{mark_of, tested_of};

use crate::{MemoryUse, Transactions};
use sb_locks::Locks;
use sb_tables::Tables;
use sb_value::{SessionId, TenantId, Who};
use std::alloc::Global;

/// A tenant's tables, its locks, and what is kept of its transactions beside the log.
pub struct Database {
    pub id: TenantId,
    pub tables: Tables,
    pub locks: Locks,
    pub transactions: Transactions,
    /// What the rows and the open transactions take, by estimates.
    pub memory: MemoryUse,
    /// The work that is left to the step, in units, if it has a budget.
    pub left: Option<u32>,
}

impl Drop for Database {
    fn drop(self) {
        let Self {
            id: _,
            tables: _,
            locks: _,
            transactions: _,
            memory: _,
            left: _,
        } = self;
    }
}

impl Database {
    /// No tables, and no transactions.
    pub fn new(alloc: Global, id: TenantId) -> Database
        ensures id { result.id ≡ id }
        ensures tables { result.tables ≡ [] }
        ensures locks { (s t : ℕ) (m : LockMode) → held result.locks s t m ≡ no_locks s t m }
        ensures marks { (s r : ℕ) → mark_of result.transactions s r ≡ 0 }
        ensures tested { (s r : ℕ) → tested_of result.transactions s r ≡ 0 }
    {
        Database {
            id,
            tables: Tables::new(alloc),
            locks: Locks::new(),
            transactions: Transactions::new(alloc),
            memory: MemoryUse::new(),
            left: None,
        }
    }

    /// A session of this database.
    pub(crate) fn who(&self, session: SessionId) -> Who
        ensures { result ≡ who_in self.now session }
    {
        Who {
            tenant: self.id,
            session,
        }
    }
}
