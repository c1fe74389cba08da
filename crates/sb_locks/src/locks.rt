//! The locks that are held, and requests for more.
ghost use Rattle.std.specs.Prelude.{◌≡◌, ℕ, Bool, not, ◌&&◌, ◌||◌, ◌==◌, Option, length, slice_index, OnOk, IfErr, OnErr};
ghost use Rattle.sb_value.specs.Locks.{no_locks, conflicts, first_conflict, with_locks, released};
ghost use Rattle.sb_value.specs.declared.lock.LockMode.{LockMode};
ghost use Rattle.sb_locks.specs.Held.{Agree, has, held, holds, with_lock};

use sb_value::{LockMode, SessionId, TABLE_LIMIT, TableId};
use std::marker::Model;

/// Another session holds this table.
#[derive(Clone, Copy, Debug, PartialEq, Eq)]
pub struct Locked {
    pub table: TableId,
}

/// The locks of a tenant's sessions: for each table its readers and its writers, a bit for each session.
#[derive(Drop)]
pub struct Locks {
    readers: [u8; TABLE_LIMIT],
    writers: [u8; TABLE_LIMIT],
}

impl Model for Locks {
    ghost use Rattle.sb_locks.specs.Held.{Holders};

    ghost Value = { Holders };

    ghost view = { λ locks. record { readers = locks.readers; writers = locks.writers } };
}

impl Locks {
    /// No locks.
    pub const fn new() -> Locks
        ensures { (s t : ℕ) (m : LockMode) → held result s t m ≡ no_locks s t m }
    {
        Locks {
            readers: [0; TABLE_LIMIT],
            writers: [0; TABLE_LIMIT],
        }
    }

    /// Takes all locks of the list, in order of mention, or none. Error: the first table that another session has
    /// locked in a mode that bars this one.
    pub fn request(
        &mut self,
        session: SessionId,
        request: &[(TableId, LockMode)],
    ) -> Result<(), Locked>
        ensures granted { OnOk result (first_conflict (held self.old) session request.now ≡ None) }
        ensures taken { OnOk result (Agree (held self.new) (with_locks (held self.old) session request.now)) }
        ensures refused { IfErr result (λ e. first_conflict (held self.old) session request.now ≡ Some e.table) }
        ensures unchanged { OnErr result (self.new ≡ self.old) }
    {
        if let Some(table) = self.first_conflict(session, request) {
            return Err(Locked { table });
        }
        for (table, mode) in request {
            self.take(session, *table, *mode);
        }
        Ok(())
    }

    /// Gives up all locks of the session.
    pub fn release(&mut self, session: SessionId)
        ensures { (s t : ℕ) (m : LockMode) → held self.new s t m ≡ released (held self.old) session s t m }
    {
        leave(&mut self.readers, session);
        leave(&mut self.writers, session);
    }

    /// True if the session holds the table in that mode.
    pub fn is_held(&self, session: SessionId, table: TableId, mode: LockMode) -> bool
        ensures { result ≡ held self.now session table mode }
    {
        let holders = match mode {
            LockMode::Read => self.readers[table.index()],
            LockMode::Write => self.writers[table.index()],
        };
        holders >> session.number() & 1 == 1
    }

    /// The first table of the list that conflicts.
    fn first_conflict(&self, session: SessionId, request: &[(TableId, LockMode)]) -> Option<TableId>
        ensures { result ≡ first_conflict (held self.now) session request.now }
    {
        for (table, mode) in request {
            if self.conflicts(session, *table, *mode) {
                return Some(*table);
            }
        }
        None
    }

    /// True if the lock conflicts with one of another session.
    fn conflicts(&self, session: SessionId, table: TableId, mode: LockMode) -> bool
        ensures { result ≡ conflicts (held self.now) session table mode }
    {
        let writers = self.writers[table.index()];
        let holders = match mode {
            LockMode::Read => writers,
            LockMode::Write => writers | self.readers[table.index()],
        };
        holders & !(1 << session.number()) != 0
    }

    /// Adds one lock.
    fn take(&mut self, session: SessionId, table: TableId, mode: LockMode)
        ensures { Agree (held self.new) (with_lock (held self.old) session table mode) }
    {
        match mode {
            LockMode::Read => join(&mut self.readers, table, session),
            LockMode::Write => join(&mut self.writers, table, session),
        }
    }
}

/// Adds the session to the holders of the table.
fn join(tables: &mut [u8], table: TableId, session: SessionId)
    requires { length tables.old ≡ 16 }
    ensures { (s t : ℕ) → holds tables.new s t ≡ (holds tables.old s t || ((s == session) && (table == t))) }
{
    tables[table.index()] |= 1 << session.number();
}

/// Takes the session from the holders of each table.
fn leave(tables: &mut [u8], session: SessionId)
    ensures { (s t : ℕ) → has (slice_index tables.new t) s ≡ (not (s == session) && has (slice_index tables.old t) s) }
{
    let others = !(1 << session.number());
    for holders in tables.iter_mut() {
        *holders &= others;
    }
}
