//! Statements that change tables.
ghost use Rattle.std.specs.Prelude.{◌≡◌, ◌⊎◌, ℕ, ◌+◌, ◌<◌, ◌^◌, IsTrue, IfOk, IfErr, Ok, Err};
ghost use Rattle.sb_value.specs.declared.lock.LockMode.TheVariants as mode;
ghost use Rattle.sb_value.specs.declared.refusal.Refusal.TheVariants as variant;
ghost use Rattle.sb_eval.specs.Laws.{AreMakeable};
ghost use Rattle.sb_eval.specs.Seen.{no_transition};
ghost use Rattle.sb_eval.specs.Statement as spec;
ghost use Rattle.sb_eval.specs.Target.{target};
ghost use Rattle.sb_locks.specs.Held.{held};
ghost use Rattle.sb_tables.specs.Held.{entries, has_number};
ghost use Rattle.sb_process.specs.Made.{AreNumbered, AreStored, NumbersBelow};
ghost use Rattle.sb_process.specs.Leaves.{HasRoom, Leaves};
ghost use Rattle.sb_process.specs.PreparedChanges.{Changes};
ghost use Rattle.sb_process.specs.Represents.{IsTransaction, who_in};
ghost use Rattle.sb_process.specs.Request.{AreThere};
ghost use Rattle.sb_process.specs.Budget.{change_work, within_budget};
ghost use Rattle.sb_process.specs.Consider.{effect_seen, statement_effect};
ghost use Rattle.sb_process.specs.Statement.{Runs};
ghost use Rattle.sb_process.specs.View.{seen_by};
ghost use Rattle.sb_process.specs.Work.{EachWork};

use crate::budget::priced;
use crate::database::Database;
use crate::prepared_changes::prepare;
use crate::process::Rules;
use crate::refusal::refusal_for;
use crate::request::lock;
use crate::view::{Viewer, no_transition};
use sb_check::Statement;
use sb_eval::{changes, changes_are_proper};
use sb_rawlog::ChangeLog;
use sb_tables::changes_keep_places;
use sb_value::{Change, Refusal, SessionId, TableId};
use std::alloc::Global;

/// The changes of a statement, and the table that they are of.
#[derive(Drop)]
struct TableChanges {
    target: TableId,
    changes: Vec<Change>,
}

impl Database {
    /// Makes the changes of a session's statement, once all its locks are taken, and says how many
    /// they are. A refused statement changes nothing, but keeps its locks unless a table conflicts.
    pub fn change<L: ChangeLog>(
        &mut self,
        alloc: Global,
        log: &mut L,
        rules: &Rules<'_>,
        session: SessionId,
        statement: &Statement,
    ) -> Result<usize, Refusal>
        requires transaction { IsTransaction self.old session (L.records log.old) (L.clock log.old) }
        requires there { AreThere self.old.tables (spec.statement_locks statement.now) }
        requires times { L.clock log.old < 2 ^ 63 }
        requires numbers { NumbersBelow (2 ^ 63) self.old.tables }
        ensures changed { EachWork self.old session (L.records log.old) (L.clock log.old) rules.now
            (λ origin setting progress.
            Runs origin self.new session no_transition statement.now result
            (L.records log.new) (L.clock log.new) setting progress) }
        ensures leaves { Leaves 4096 self.old self.new session
            (L.records log.old) (L.records log.new) (L.clock log.old) (L.clock log.new) }
    {
        let none = no_transition(alloc);
        let viewer = Viewer {
            session,
            tables: &none,
        };
        self.run(alloc, log, rules, &viewer, statement)
    }

    /// Runs a statement of a session or of a rule.
    pub(crate) fn run<L: ChangeLog>(
        &mut self,
        alloc: Global,
        log: &mut L,
        rules: &Rules<'_>,
        viewer: &Viewer<'_>,
        statement: &Statement,
    ) -> Result<usize, Refusal>
        requires transaction { IsTransaction self.old viewer.now.session (L.records log.old) (L.clock log.old) }
        requires there { AreThere self.old.tables (spec.statement_locks statement.now) }
        requires room { HasRoom 4096 (L.clock log.old) self.old.tables }
        ensures ran { EachWork self.old viewer.now.session (L.records log.old) (L.clock log.old) rules.now
            (λ origin setting progress.
            Runs origin self.new viewer.now.session viewer.now.tables.now statement.now result
            (L.records log.new) (L.clock log.new) setting progress) }
        ensures leaves { Leaves 4096 self.old self.new viewer.now.session
            (L.records log.old) (L.records log.new) (L.clock log.old) (L.clock log.new) }
    {
        match lock(
            alloc,
            &mut self.locks,
            &self.tables,
            viewer.session,
            statement,
        ) {
            Ok(()) => self.run_granted(alloc, log, rules, viewer, statement),
            Err(refusal) => Err(refusal),
        }
    }

    /// Runs a statement whose locks are all taken. Its work is taken of the budget before it is evaluated, and that of
    /// its changes before they are made. A refused statement takes nothing.
    fn run_granted<L: ChangeLog>(
        &mut self,
        alloc: Global,
        log: &mut L,
        rules: &Rules<'_>,
        viewer: &Viewer<'_>,
        statement: &Statement,
    ) -> Result<usize, Refusal>
        requires transaction { IsTransaction self.old viewer.now.session (L.records log.old) (L.clock log.old) }
        requires there { IsTrue (has_number self.old.tables (target statement.now)) }
        requires locked { IsTrue (held self.old.locks viewer.now.session (target statement.now) mode.Write) }
        requires room { HasRoom 4096 (L.clock log.old) self.old.tables }
        ensures ran { EachWork self.old viewer.now.session (L.records log.old) (L.clock log.old) rules.now
            (λ origin setting progress.
            Changes origin self.new viewer.now.session
            (statement_effect setting viewer.now.tables.now statement.now progress) result
            (L.records log.new) (L.clock log.new) setting progress) }
        ensures leaves { Leaves 4096 self.old self.new viewer.now.session
            (L.records log.old) (L.records log.new) (L.clock log.old) (L.clock log.new) }
    {
        // for the proof: the tables are sound, and the changes of a statement can be made of them
        changes_keep_places();
        changes_are_proper();
        match self.effect(alloc, rules, viewer, statement) {
            Ok((changes, left)) => {
                let effect = TableChanges {
                    target: statement.target(),
                    changes,
                };
                match self.make_all(alloc, log, rules, viewer.session, effect) {
                    Ok(count) => {
                        self.left = left;
                        Ok(count)
                    }
                    Err(refusal) => Err(refusal),
                }
            }
            Err(refusal) => Err(refusal),
        }
    }

    /// The changes of a statement, and what is left of the budget once they are made.
    fn effect(
        &self,
        alloc: Global,
        rules: &Rules<'_>,
        viewer: &Viewer<'_>,
        statement: &Statement,
    ) -> Result<(Vec<Change>, Option<u32>), Refusal>
        ensures ok { IfOk result (λ effect.
            (spec.statement_changes (seen_by self.now.tables viewer.now.tables.now (who_in self.now viewer.now.session))
            statement.now ≡ Ok effect.0.items)
            × (effect_seen (seen_by self.now.tables viewer.now.tables.now (who_in self.now viewer.now.session))
            rules.now.catalog.now statement.now self.now.left ≡ Ok (effect.0.items, effect.1))) }
        ensures err { IfErr result (λ refusal.
            (effect_seen (seen_by self.now.tables viewer.now.tables.now (who_in self.now viewer.now.session))
            rules.now.catalog.now statement.now self.now.left ≡ Err refusal) ⊎ (refusal ≡ variant.NoMemory)) }
    {
        match self.left_after_statement(viewer, statement) {
            Ok(rest) => self.priced_changes(alloc, rules, viewer, statement, rest),
            Err(refusal) => Err(refusal),
        }
    }

    /// The changes of a statement, and what they leave of so much once they are made.
    fn priced_changes(
        &self,
        alloc: Global,
        rules: &Rules<'_>,
        viewer: &Viewer<'_>,
        statement: &Statement,
        left: Option<u32>,
    ) -> Result<(Vec<Change>, Option<u32>), Refusal>
        ensures ok { IfOk result (λ effect.
            (spec.statement_changes (seen_by self.now.tables viewer.now.tables.now (who_in self.now viewer.now.session))
            statement.now ≡ Ok effect.0.items)
            × (within_budget (change_work rules.now.catalog.now (target statement.now)) left
            (spec.statement_changes (seen_by self.now.tables viewer.now.tables.now (who_in self.now viewer.now.session))
            statement.now) ≡ Ok (effect.0.items, effect.1))) }
        ensures err { IfErr result (λ refusal.
            (within_budget (change_work rules.now.catalog.now (target statement.now)) left
            (spec.statement_changes (seen_by self.now.tables viewer.now.tables.now (who_in self.now viewer.now.session))
            statement.now) ≡ Err refusal) ⊎ (refusal ≡ variant.NoMemory)) }
    {
        match self.evaluate(alloc, viewer, statement) {
            Ok(changes) => priced(left, rules.catalog, statement.target(), changes),
            Err(refusal) => Err(refusal),
        }
    }

    /// The changes of a statement over the tables as they are.
    fn evaluate(
        &self,
        alloc: Global,
        viewer: &Viewer<'_>,
        statement: &Statement,
    ) -> Result<Vec<Change>, Refusal>
        ensures ok { IfOk result (λ changes.
            spec.statement_changes (seen_by self.now.tables viewer.now.tables.now (who_in self.now viewer.now.session))
            statement.now ≡ Ok changes.items) }
        ensures err { IfErr result (λ refusal.
            (spec.statement_changes (seen_by self.now.tables viewer.now.tables.now (who_in self.now viewer.now.session))
            statement.now ≡ Err refusal) ⊎ (refusal ≡ variant.NoMemory)) }
    {
        let view = self.view(viewer);
        match changes(alloc, statement, &view) {
            Ok(changes) => Ok(changes),
            Err(error) => Err(refusal_for(error)),
        }
    }

    /// Makes the changes, once all memory that they need is there, and counts them.
    fn make_all<L: ChangeLog>(
        &mut self,
        alloc: Global,
        log: &mut L,
        rules: &Rules<'_>,
        session: SessionId,
        effect: TableChanges,
    ) -> Result<usize, Refusal>
        requires makeable { AreMakeable (entries self.old.tables) (who_in self.old session) effect.target
            effect.changes.items }
        requires there { IsTrue (has_number self.old.tables effect.target) }
        requires numbered { AreNumbered self.old.tables }
        requires stored { AreStored self.old.tables }
        requires locked { IsTrue (held self.old.locks session effect.target mode.Write) }
        requires room { HasRoom 4096 (L.clock log.old) self.old.tables }
        ensures made { EachWork self.old session (L.records log.old) (L.clock log.old) rules.now
            (λ origin setting progress.
            Changes origin self.new session (Ok (effect.changes.items, progress.left)) result
            (L.records log.new) (L.clock log.new) setting progress) }
        ensures leaves { Leaves 4096 self.old self.new session
            (L.records log.old) (L.records log.new) (L.clock log.old) (L.clock log.new) }
    {
        let TableChanges { target, changes } = effect;
        if !self.memory.allows(changes.as_slice()) {
            return Err(Refusal::NoMemory);
        }
        let count = changes.len();
        match prepare(alloc, &mut self.tables, log, target, changes) {
            Ok(prepared_changes) => {
                self.apply(log, rules, session, target, prepared_changes);
                Ok(count)
            }
            Err(_) => Err(Refusal::NoMemory),
        }
    }
}
