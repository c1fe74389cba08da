//! The beginning of a transaction, and its end by commit.
ghost use Rattle.std.specs.Prelude.{◌≡◌, ◌==◌, ℕ, List};
ghost use Rattle.sb_rawlog.specs.Sessions.{OthersStay};
ghost use Rattle.sb_locks.specs.Held.{held};
ghost use Rattle.sb_tables.specs.Held.{Held};
ghost use Rattle.sb_process.specs.Made.{AreNumbered, NumbersBelow};
ghost use Rattle.sb_process.specs.Represents.{EachTransaction, Represents, IsTransaction, IsKept, IsIdle, begun, is_written, who_in};
ghost use Rattle.sb_process.specs.Transactions.{OtherSessionsStay};
ghost use Rattle.sb_rawlog.specs.Records.{Record};
ghost use Rattle.sb_process.specs.Setting.{Setting};
ghost use Rattle.sb_process.specs.Sharing.{settled_where};

use crate::database::Database;
use sb_locks::Locks;
use sb_rawlog::ChangeLog;
use sb_tables::{Tables, changes_keep_places};
use sb_value::{LockMode, SessionId, TABLE_LIMIT, TableId};

impl Database {
    /// Begins a transaction of the session.
    pub fn begin(&mut self, session: SessionId)
        ensures begun { (origin : List Held) (records : List Record) (clock : ℕ) (setting : Setting) →
            IsIdle origin self.old session records setting →
            Represents origin self.new session records clock setting (begun (held self.old.locks) self.old.left) }
        ensures id { self.new.id ≡ self.old.id }
        ensures tables { self.new.tables ≡ self.old.tables }
        ensures sessions { OtherSessionsStay self.old.transactions self.new.transactions session }
    {
        self.transactions.begin(session);
    }

    /// Keeps all changes of the session's transaction, and releases its locks.
    pub fn commit<L: ChangeLog>(&mut self, log: &mut L, session: SessionId)
        requires { IsTransaction self.old session (L.records log.old) (L.clock log.old) }
        ensures kept { EachTransaction self.old session (L.records log.old) (L.clock log.old)
            (λ origin setting progress. IsKept self.old self.new session (L.records log.new) setting progress) }
        ensures numbers { (n : ℕ) → NumbersBelow n self.old.tables → NumbersBelow n self.new.tables }
        ensures others { OthersStay (who_in self.old session) (L.records log.old) (L.records log.new) }
        ensures clock { L.clock log.new ≡ L.clock log.old }
        ensures transactions { self.new.transactions ≡ self.old.transactions }
    {
        // for the proof: tables with changes made are sound
        changes_keep_places();
        let who = self.who(session);
        settle_all(&mut self.tables, &self.locks, session);
        log.forget(who);
        self.memory.count_end(session);
        self.locks.release(session);
    }
}

/// Drops the deleted rows of the tables that the session has locked for writing.
fn settle_all(tables: &mut Tables, locks: &Locks, session: SessionId)
    ensures { AreNumbered tables.old → tables.new ≡ settled_where (is_written (held locks.now) session) tables.old }
{
    for number in 0..TABLE_LIMIT {
        let table = TableId::new(number as u8);
        if locks.is_held(session, table, LockMode::Write) {
            settle_at(tables, table);
        }
    }
}

/// Drops the deleted rows of the table of that number, if it is there.
#[inline(never)]
fn settle_at(tables: &mut Tables, table: TableId)
    ensures { AreNumbered tables.old → tables.new ≡ settled_where (λ t. t == table) tables.old }
{
    if tables.get(table).is_some() {
        tables.settle(table);
    }
}
