//! Rollback.
ghost use Rattle.std.specs.Prelude.{◌≡◌, ℕ, List, []};
ghost use Rattle.sb_process.specs.Represents.{EachTransaction, IsTransaction, IsTakenBack, who_in};
ghost use Rattle.sb_rawlog.specs.Sessions.{changes_by, OthersStay};
ghost use Rattle.sb_tables.specs.Held.{Held};
ghost use Rattle.sb_process.specs.Made.{AreMade, NumbersBelow};

use crate::database::Database;
use crate::memory_use::MemoryUse;
use sb_rawlog::ChangeLog;
use sb_tables::{Tables, changes_keep_places};
use sb_value::{SessionId, Who};

impl Database {
    /// Takes all changes of the session's transaction back, and releases its locks.
    pub fn rollback<L: ChangeLog>(&mut self, log: &mut L, session: SessionId)
        requires { IsTransaction self.old session (L.records log.old) (L.clock log.old) }
        ensures back { EachTransaction self.old session (L.records log.old) (L.clock log.old)
            (λ origin setting progress.
            IsTakenBack origin self.old self.new session (L.records log.new) setting progress) }
        ensures numbers { (n : ℕ) → NumbersBelow n self.old.tables → NumbersBelow n self.new.tables }
        ensures others { OthersStay (who_in self.old session) (L.records log.old) (L.records log.new) }
        ensures clock { L.clock log.new ≡ L.clock log.old }
        ensures transactions { self.new.transactions ≡ self.old.transactions }
    {
        let who = self.who(session);
        undo_all(&mut self.tables, &mut self.memory, log, &who);
        self.memory.count_end(session);
        self.locks.release(session);
    }
}

/// Undoes the session's changes, the newest first.
pub(crate) fn undo_all<L: ChangeLog>(
    tables: &mut Tables,
    memory: &mut MemoryUse,
    log: &mut L,
    who: &Who,
)
    requires { (origin : List Held) × AreMade origin (changes_by who.now (L.records log.old)) tables.old }
    ensures tables { (origin : List Held) →
        AreMade origin (changes_by who.now (L.records log.old)) tables.old → AreMade origin [] tables.new }
    ensures none { changes_by who.now (L.records log.new) ≡ [] }
    ensures others { OthersStay who.now (L.records log.old) (L.records log.new) }
    ensures clock { L.clock log.new ≡ L.clock log.old }
{
    // for the proof: a change that was made can be undone
    changes_keep_places();
    while let Some(change) = log.take_newest(*who) {
        memory.count_undone(&change);
        tables.undo(change);
    }
}
