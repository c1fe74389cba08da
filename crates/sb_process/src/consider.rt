//! One consideration of a rule.
ghost use Rattle.std.specs.Prelude.{◌≡◌, ◌⊎◌, [], ◌∷◌, ◌*◌, length, IfOk, OnOk, OnErr};
ghost use Rattle.sb_process.specs.Consider as spec;
ghost use Rattle.sb_process.specs.Leaves.{HasRoom, Leaves};
ghost use Rattle.sb_process.specs.Represents.{EachTransaction, Represents};
ghost use Rattle.sb_process.specs.Running.{ComesTo, Acts, Ends, Goes};
ghost use Rattle.sb_process.specs.Setting.{marked, rule_tables};
ghost use Rattle.sb_process.specs.Transactions.{OtherSessionsStay};
ghost use Rattle.sb_process.specs.Work.{AreActionsThere, CanRunRule, EachWork, GoesOn, IsAtWork};

use crate::database::Database;
use crate::process::Rules;
use crate::view::Viewer;
use sb_catalog::Rule;
use sb_check::Action;
use sb_net::transition_tables;
use sb_rawlog::ChangeLog;
use sb_value::{Refusal, SessionId, Transition};
use std::alloc::{AllocError, Global};

/// The result of a consideration in which nothing is refused.
#[derive(Drop)]
pub(crate) enum Consideration {
    False,
    True,
    RolledBack,
}

/// The rule that is considered next, and the session that considers it.
#[derive(Drop)]
pub(crate) struct Chosen<'a> {
    pub(crate) session: SessionId,
    pub(crate) rule: &'a Rule,
}

impl Database {
    /// Considers a rule: its transition tables are taken and stay, its mark is set, and where its condition is true its
    /// actions run.
    pub(crate) fn consider<L: ChangeLog>(
        &mut self,
        alloc: Global,
        log: &mut L,
        rules: &Rules<'_>,
        chosen: &Chosen<'_>,
    ) -> Result<Consideration, Refusal>
        requires running { IsAtWork self.old chosen.now.session (L.records log.old) (L.clock log.old) rules.now }
        requires rule { CanRunRule self.old.tables chosen.now.rule.now }
        requires room { HasRoom 32768 (L.clock log.old) self.old.tables }
        ensures considered { EachWork self.old chosen.now.session (L.records log.old) (L.clock log.old) rules.now
            (λ origin setting progress.
            Goes (ComesTo origin self.new chosen.now.session (L.records log.new) (L.clock log.new) setting progress)
            (spec.consider setting chosen.now.rule.now progress) result ⊎ (result ≡ Err Refusal.NoMemory)) }
        ensures under_way { GoesOn self.old self.new chosen.now.session rules.now
            (L.records log.old) (L.records log.new) (L.clock log.old) (L.clock log.new) }
        ensures leaves { Leaves 32768 self.old self.new chosen.now.session
            (L.records log.old) (L.records log.new) (L.clock log.old) (L.clock log.new) }
    {
        let Ok(tables) = self.rule_tables(alloc, log, chosen) else {
            return Err(Refusal::NoMemory);
        };
        let Ok(()) = self.mark_now(log, chosen) else {
            return Err(Refusal::NoMemory);
        };
        let viewer = Viewer {
            session: chosen.session,
            tables: &tables,
        };
        match self.test(alloc, &viewer, &chosen.rule.condition) {
            Ok(true) => {
                self.run_actions(alloc, log, rules, &viewer, chosen.rule.actions.as_slice())
            }
            Ok(false) => Ok(Consideration::False),
            Err(refusal) => Err(refusal),
        }
    }

    /// The transition tables of the session's changes since a rule's mark.
    fn rule_tables<L: ChangeLog>(
        &self,
        alloc: Global,
        log: &L,
        chosen: &Chosen<'_>,
    ) -> Result<Transition, AllocError>
        ensures { EachTransaction self.now chosen.now.session (L.records log.now) (L.clock log.now)
            (λ origin setting progress. IfOk result (λ tables. tables ≡ rule_tables progress chosen.now.rule.now)) }
    {
        // for the proof: a time marks the changes that are older
        let _now = log.now();
        let who = self.who(chosen.session);
        let since = self.transactions.mark(chosen.session, chosen.rule.id);
        transition_tables(
            alloc,
            log,
            who,
            chosen.rule.table,
            chosen.rule.triggers,
            since,
        )
    }

    /// Sets a rule's mark at the end of the session's changes.
    fn mark_now<L: ChangeLog>(&mut self, log: &L, chosen: &Chosen<'_>) -> Result<(), AllocError>
        ensures marked { OnOk result (EachTransaction self.old chosen.now.session (L.records log.now) (L.clock log.now)
            (λ origin setting progress.
            Represents origin self.new chosen.now.session (L.records log.now) (L.clock log.now) setting
            (marked chosen.now.rule.now progress))) }
        ensures sessions { OnOk result
            (OtherSessionsStay self.old.transactions self.new.transactions chosen.now.session) }
        ensures only_marks { OnOk result (self.new ≡ record self.old { transactions = self.new.transactions }) }
        ensures unchanged { OnErr result (self.new ≡ self.old) }
    {
        self.transactions
            .set_mark(chosen.session, chosen.rule.id, log.now())?;
        Ok(())
    }

    /// Runs actions in order, up to a `rollback` or a refusal.
    fn run_actions<L: ChangeLog>(
        &mut self,
        alloc: Global,
        log: &mut L,
        rules: &Rules<'_>,
        viewer: &Viewer<'_>,
        actions: &[Action],
    ) -> Result<Consideration, Refusal>
        requires running { IsAtWork self.old viewer.now.session (L.records log.old) (L.clock log.old) rules.now }
        requires actions { AreActionsThere self.old.tables actions.now }
        requires room { HasRoom (4096 * length actions.now) (L.clock log.old) self.old.tables }
        ensures ran { EachWork self.old viewer.now.session (L.records log.old) (L.clock log.old) rules.now
            (λ origin setting progress.
            Ends (ComesTo origin self.new viewer.now.session (L.records log.new) (L.clock log.new) setting progress)
            (spec.run_actions setting viewer.now.tables.now actions.now progress) result
            ⊎ (result ≡ Err Refusal.NoMemory)) }
        ensures under_way { GoesOn self.old self.new viewer.now.session rules.now
            (L.records log.old) (L.records log.new) (L.clock log.old) (L.clock log.new) }
        ensures leaves { Leaves (4096 * length actions.now) self.old self.new viewer.now.session
            (L.records log.old) (L.records log.new) (L.clock log.old) (L.clock log.new) }
    {
        match actions {
            [] => Ok(Consideration::True),
            [first, rest @ ..] => {
                match self.run_action(alloc, log, rules, viewer, first) {
                    Ok(true) => self.run_actions(alloc, log, rules, viewer, rest),
                    Ok(false) => Ok(Consideration::RolledBack),
                    Err(refusal) => Err(refusal),
                }
            }
        }
    }

    /// Runs an action, and says whether the next one is to run.
    fn run_action<L: ChangeLog>(
        &mut self,
        alloc: Global,
        log: &mut L,
        rules: &Rules<'_>,
        viewer: &Viewer<'_>,
        action: &Action,
    ) -> Result<bool, Refusal>
        requires running { IsAtWork self.old viewer.now.session (L.records log.old) (L.clock log.old) rules.now }
        requires action { AreActionsThere self.old.tables (action.now ∷ []) }
        requires room { HasRoom 4096 (L.clock log.old) self.old.tables }
        ensures ran { EachWork self.old viewer.now.session (L.records log.old) (L.clock log.old) rules.now
            (λ origin setting progress.
            Acts (ComesTo origin self.new viewer.now.session (L.records log.new) (L.clock log.new) setting progress)
            (spec.run_actions setting viewer.now.tables.now (action.now ∷ []) progress) result
            ⊎ (result ≡ Err Refusal.NoMemory)) }
        ensures under_way { GoesOn self.old self.new viewer.now.session rules.now
            (L.records log.old) (L.records log.new) (L.clock log.old) (L.clock log.new) }
        ensures leaves { Leaves 4096 self.old self.new viewer.now.session
            (L.records log.old) (L.records log.new) (L.clock log.old) (L.clock log.new) }
    {
        match action {
            Action::Rollback => Ok(false),
            Action::Change(statement) => {
                match self.run(alloc, log, rules, viewer, statement) {
                    Ok(_) => Ok(true),
                    Err(refusal) => Err(refusal),
                }
            }
        }
    }
}
