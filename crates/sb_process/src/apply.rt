//! Changes made one after another, for which all memory is there.
ghost use Rattle.std.specs.Prelude.{◌≡◌, ℕ, ◌+◌, ◌-◌, ◌<◌, ◌≤◌, ◌^◌, [], ◌∷◌, ◌++◌, length, IsTrue};
ghost use Rattle.sb_value.specs.declared.lock.LockMode.TheVariants as mode;
ghost use Rattle.sb_value.specs.Table.{fits_kind};
ghost use Rattle.sb_rawlog.specs.Changes.{author};
ghost use Rattle.sb_rawlog.specs.Sessions.{OthersStay};
ghost use Rattle.sb_tables.specs.Held.{has_number, stored_at};
ghost use Rattle.sb_locks.specs.Held.{held};
ghost use Rattle.sb_process.specs.Leaves.{Leaves};
ghost use Rattle.sb_process.specs.Make.{HasPlaceFor, Makes};
ghost use Rattle.sb_process.specs.PreparedChanges.{CanApply, copies_of};
ghost use Rattle.sb_process.specs.Represents.{Represents, who_in};
ghost use Rattle.sb_process.specs.Transactions.{OtherSessionsStay};
ghost use Rattle.sb_process.specs.Work.{EachWork};

use crate::database::Database;
use crate::make::make;
use crate::prepared_changes::PreparedChanges;
use crate::process::Rules;
use sb_rawlog::ChangeLog;
use sb_value::{Change, Row, SessionId, TableId, last_change_triggers, proper_lists_have_lives};

impl Database {
    /// Makes the session's changes of a table, in order.
    pub(crate) fn apply<L: ChangeLog>(
        &mut self,
        log: &mut L,
        rules: &Rules<'_>,
        session: SessionId,
        target: TableId,
        prepared_changes: PreparedChanges,
    )
        requires can { CanApply self.old.tables (who_in self.old session) target prepared_changes.changes.items }
        requires copied { prepared_changes.copies.items ≡ copies_of prepared_changes.changes.items }
        requires locked { IsTrue (held self.old.locks session target mode.Write) }
        requires room { length prepared_changes.changes.items ≤ L.room log.old }
        requires clock { L.clock log.old + length prepared_changes.changes.items < 2 ^ 64 }
        ensures all { EachWork self.old session (L.records log.old) (L.clock log.old) rules.now
            (λ origin setting progress. Represents origin self.new session (L.records log.new) (L.clock log.new) setting
            (record progress { changes = progress.changes ++ prepared_changes.changes.items })) }
        ensures leaves { Leaves (length prepared_changes.changes.items) self.old self.new session
            (L.records log.old) (L.records log.new) (L.clock log.old) (L.clock log.new) }
        ensures clock { L.clock log.new ≡ L.clock log.old + length prepared_changes.changes.items }
    {
        let PreparedChanges {
            changes,
            mut copies,
        } = prepared_changes;
        for change in changes {
            let Some(copy) = copies.pop() else {
                unreachable!()
            };
            self.apply_one(log, rules, session, change, copy);
        }
    }

    /// Makes one change: of its table, of the session's candidates and of the log.
    fn apply_one<L: ChangeLog>(
        &mut self,
        log: &mut L,
        rules: &Rules<'_>,
        session: SessionId,
        change: Change,
        copy: Option<Row>,
    )
        requires by { author change ≡ who_in self.old session }
        requires there { IsTrue (has_number self.old.tables change.table) }
        requires fits { fits_kind change.kind change (stored_at self.old.tables change.table).table }
        requires place { HasPlaceFor change.kind (stored_at self.old.tables change.table) }
        requires copied { copy ≡ change.new }
        requires locked { IsTrue (held self.old.locks session change.table mode.Write) }
        requires room { 0 < L.room log.old }
        requires clock { L.clock log.old < 2 ^ 64 - 1 }
        ensures one { EachWork self.old session (L.records log.old) (L.clock log.old) rules.now
            (λ origin setting progress. Represents origin self.new session (L.records log.new) (L.clock log.new) setting
            (record progress { changes = progress.changes ++ change ∷ [] })) }
        ensures makes { Makes change self.old.tables self.new.tables }
        ensures id { self.new.id ≡ self.old.id }
        ensures locks { self.new.locks ≡ self.old.locks }
        ensures sessions { OtherSessionsStay self.old.transactions self.new.transactions session }
        ensures others { OthersStay (who_in self.old session) (L.records log.old) (L.records log.new) }
        ensures clock { L.clock log.new ≡ L.clock log.old + 1 }
        ensures room { L.room log.new + 1 ≡ L.room log.old }
    {
        // for the proof: a rule that a new change triggers is one that names it
        last_change_triggers();
        proper_lists_have_lives();
        make(&mut self.tables, &change, copy);
        let index = rules.index;
        self.transactions.join(session, index.candidates(&change));
        self.memory.count(session, &change);
        log.append(change);
    }
}
