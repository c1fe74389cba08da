//! The rules that a session's changes have triggered, and the one that is considered next.
ghost use Rattle.std.specs.Prelude.{◌≡◌, ℕ, List};
ghost use Rattle.std.specs.Option.{option_copied};
ghost use Rattle.sb_value.specs.Flags.{flag_at};
ghost use Rattle.sb_value.specs.Order.{chosen};
ghost use Rattle.sb_catalog.specs.Rules.{numbered};
ghost use Rattle.sb_priority.specs.Ranks.{HasOrder, ranked};
ghost use Rattle.sb_process.specs.Represents.{who_in};
ghost use Rattle.sb_process.specs.Setting as spec;
ghost use Rattle.sb_process.specs.SharedTest.{AreSound};
ghost use Rattle.sb_process.specs.Transactions.{ArePast, OtherSessionsStay};
ghost use Rattle.sb_process.specs.Triggered.{AreSifted, CanTest, CanTestAll, is_hit};
ghost use Rattle.sb_process.specs.Work.{EachWork, IsAtWork, AreActive, IsWork};

use crate::database::Database;
use crate::process::Rules;
use crate::shared_test::SharedTests;
use crate::witnesses::Witnesses;
use sb_catalog::{Catalog, Rule};
use sb_net::{is_triggered_anew, meets};
use sb_priority::Priorities;
use sb_rawlog::ChangeLog;
use sb_value::{RuleId, RuleSet, SessionId, proper_lists_have_lives};

impl Database {
    /// The rule that is considered next: of the eligible rules that are triggered, the earliest created that no other
    /// of them precedes.
    pub(crate) fn next_rule<'a, L: ChangeLog>(
        &mut self,
        log: &L,
        rules: &Rules<'a>,
        session: SessionId,
        eligible: RuleSet,
        witnesses: &mut Witnesses,
    ) -> Option<&'a Rule>
        requires work { IsAtWork self.old session (L.records log.now) (L.clock log.now) rules.now }
        requires active { AreActive (flag_at eligible) rules.now.catalog.now }
        ensures next { EachWork self.old session (L.records log.now) (L.clock log.now) rules.now
            (λ origin setting progress. option_copied result ≡ spec.next_rule setting (flag_at eligible) progress) }
        ensures work { EachWork self.old session (L.records log.now) (L.clock log.now) rules.now
            (λ origin setting progress. IsWork origin self.new session (L.records log.now) (L.clock log.now)
            rules.now.index.now rules.now.catalog.now rules.now.order.now setting progress) }
        ensures sessions { OtherSessionsStay self.old.transactions self.new.transactions session }
        ensures only_candidates { self.new ≡ record self.old { transactions = self.new.transactions } }
    {
        // for the proof: a time marks the changes that are older, a rule's number is its own, and a tuple's changes
        // are its life
        let _now = log.now();
        let _rules = rules.catalog.rules();
        proper_lists_have_lives();
        let set = self.sift(log, rules.catalog, session, eligible, witnesses);
        match chosen_of(rules.order, set) {
            Some(id) => rules.catalog.rule(id),
            None => None,
        }
    }

    /// The eligible candidates that are triggered. One that isn't leaves the candidates, and a later change puts it
    /// back.
    fn sift<L: ChangeLog>(
        &mut self,
        log: &L,
        catalog: &Catalog,
        session: SessionId,
        eligible: RuleSet,
        witnesses: &mut Witnesses,
    ) -> RuleSet
        requires past { ArePast self.old.transactions session (L.clock log.now) }
        requires can { CanTestAll (who_in self.old session) self.old.transactions (L.records log.now) catalog.now }
        ensures sifted { AreSifted (who_in self.old session) (L.records log.now) (L.clock log.now) catalog.now eligible
            self.old.transactions self.new.transactions result }
        ensures sessions { OtherSessionsStay self.old.transactions self.new.transactions session }
        ensures only_candidates { self.new ≡ record self.old { transactions = self.new.transactions } }
    {
        let now = log.now();
        let mut set = self.transactions.candidates(session).intersection(eligible);
        let mut shared = SharedTests::new();
        let mut next = 0;
        while let Some(rule) = set.first_from(next) {
            next = rule.index() + 1;
            if !self.is_hit(log, catalog, session, rule, witnesses, &mut shared) {
                self.transactions.leave(session, rule, now);
                set = set.without(rule);
            }
        }
        set
    }

    /// True if the session's changes since the rule's mark trigger it. Its table's shared test answers where it can.
    fn is_hit<L: ChangeLog>(
        &self,
        log: &L,
        catalog: &Catalog,
        session: SessionId,
        rule: RuleId,
        witnesses: &mut Witnesses,
        shared: &mut SharedTests,
    ) -> bool
        requires past { ArePast self.now.transactions session (L.clock log.now) }
        requires can { CanTest (who_in self.now session) self.now.transactions (L.records log.now)
            (numbered catalog.now rule) }
        requires sound { AreSound (who_in self.now session) (L.records log.now) shared.old }
        ensures hit { result ≡ is_hit (who_in self.now session) self.now.transactions (L.records log.now)
            (numbered catalog.now rule) }
        ensures sound { AreSound (who_in self.now session) (L.records log.now) shared.new }
    {
        let Some(rule) = catalog.rule(rule) else {
            return false;
        };
        let since = self.transactions.mark(session, rule.id);
        let tested = self.transactions.tested(session, rule.id);
        let who = self.who(session);
        if let Some(operations) = shared.operations(log, who, rule.table, since, tested) {
            return meets(rule.triggers, operations);
        }
        let who = self.who(session);
        let witness = witnesses.of(rule.id);
        if is_triggered_anew(log, who, rule.table, rule.triggers, since, tested, witness) {
            return true;
        }
        shared.count_untriggered(rule.table);
        false
    }
}

/// The rule of the set that is considered first. Mostly there is none.
fn chosen_of(order: &Priorities, set: RuleSet) -> Option<RuleId>
    ensures { (pairs : List (ℕ × ℕ)) → HasOrder order.now pairs → result ≡ chosen pairs (ranked set order.now.rules) }
{
    if set.is_empty() {
        return None;
    }
    order.choose(set)
}
