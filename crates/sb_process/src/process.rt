//! Processing of eligible rules.
ghost use Rattle.std.specs.Prelude.{◌≡◌, ℕ, ◌+◌, ◌*◌, ◌<◌, ◌^◌, IfOk, OnErr};
ghost use Rattle.sb_value.specs.Flags.{flag_at};
ghost use Rattle.sb_process.specs.Leaves.{HasRoom, Leaves};
ghost use Rattle.sb_process.specs.Made.{NumbersBelow};
ghost use Rattle.sb_process.specs.Process as spec;
ghost use Rattle.sb_process.specs.Represents.{IsTakenBack};
ghost use Rattle.sb_process.specs.Running.{ComesTo, Finds, is_done};
ghost use Rattle.sb_process.specs.Setting.{Progress};
ghost use Rattle.sb_process.specs.Transactions.{ArePast};
ghost use Rattle.sb_process.specs.Work.{EachWork, IsAtWork, AreActive, CanRun, Processes};

use crate::consider::Chosen;
use crate::database::Database;
use crate::witnesses::Witnesses;
use crate::{Outcome, Processed, StepWatch, Trace};
use sb_catalog::{Catalog, Rule};
use sb_index::RuleIndex;
use sb_priority::Priorities;
use sb_rawlog::ChangeLog;
use sb_value::{RuleId, RuleSet, SessionId, Verdict};
use std::alloc::{AllocError, Global};

/// A tenant's rules while they are processed: all of them, what triggers them, and their order.
#[derive(Drop)]
pub struct Rules<'a> {
    pub catalog: &'a Catalog,
    pub index: &'a RuleIndex,
    pub order: &'a Priorities,
}

/// An assertion point of a session: the rules that are eligible there, and how many may be considered.
#[derive(Drop)]
pub struct AssertionPoint<'a, 'w> {
    pub session: SessionId,
    /// The line that is answered.
    pub line: &'a [u8],
    pub eligible: RuleSet,
    /// The consideration limit.
    pub bound: u32,
    /// Who is told of each consideration, and may end the step.
    pub watch: Option<&'w StepWatch>,
}

impl<'a, 'w> AssertionPoint<'a, 'w> {
    /// Tells that a rule is considered next. Error: the step is to end.
    fn note(&self, rule: &Rule) -> Result<(), AllocError> {
        match self.watch {
            Some(watch) if !watch.goes_on(&rule.name, self.line) => Err(AllocError),
            _ => Ok(()),
        }
    }
}

impl Outcome {
    /// True if no rule is left.
    pub fn is_done(&self) -> bool
        ensures { result ≡ is_done self.now }
    {
        match self {
            Outcome::Done => true,
            Outcome::ByRule(_) => false,
            Outcome::ByError(_, _) => false,
            Outcome::ByLimit => false,
        }
    }
}

impl Database {
    /// Considers eligible rules that are triggered, one after another, up to the consideration limit. After every
    /// outcome but `Done`, and where memory runs out, the transaction is taken back. Error: out of memory.
    pub fn process<L: ChangeLog>(
        &mut self,
        alloc: Global,
        log: &mut L,
        rules: &Rules<'_>,
        point: &AssertionPoint<'_, '_>,
    ) -> Result<Processed, AllocError>
        requires work { IsAtWork self.old point.now.session (L.records log.old) (L.clock log.old) rules.now }
        requires rules { CanRun self.old.tables rules.now.catalog.now }
        requires active { AreActive (flag_at point.now.eligible) rules.now.catalog.now }
        requires times { L.clock log.old < 2 ^ 63 }
        requires numbers { NumbersBelow (2 ^ 63) self.old.tables }
        ensures processed { EachWork self.old point.now.session (L.records log.old) (L.clock log.old) rules.now
            (λ origin setting progress. IfOk result (λ p.
            Processes origin self.old self.new point.now.session p.outcome p.trace (L.records log.new) (L.clock log.new)
            setting progress (spec.process point.now.bound setting (flag_at point.now.eligible) progress))) }
        ensures no_memory { EachWork self.old point.now.session (L.records log.old) (L.clock log.old) rules.now
            (λ origin setting progress.
            OnErr result
            (IsTakenBack origin self.old self.new point.now.session (L.records log.new) setting progress)) }
        ensures leaves { Leaves (32768 * point.now.bound) self.old self.new point.now.session
            (L.records log.old) (L.records log.new) (L.clock log.old) (L.clock log.new) }
        ensures past { ArePast self.new.transactions point.now.session (L.clock log.new) }
    {
        let mut list = Vec::new(alloc);
        match self.consider_all(alloc, log, rules, point, &mut list) {
            Ok(outcome) => {
                if outcome.is_done() {
                    return Ok(Processed {
                        outcome,
                        trace: Trace { list },
                    });
                }
                self.rollback(log, point.session);
                Ok(Processed {
                    outcome,
                    trace: Trace { list },
                })
            }
            Err(error) => {
                self.rollback(log, point.session);
                Err(error)
            }
        }
    }

    /// Considers rules up to the outcome, and leaves the transaction as it then is.
    fn consider_all<L: ChangeLog>(
        &mut self,
        alloc: Global,
        log: &mut L,
        rules: &Rules<'_>,
        point: &AssertionPoint<'_, '_>,
        trace: &mut Vec<(RuleId, Verdict)>,
    ) -> Result<Outcome, AllocError>
        requires work { IsAtWork self.old point.now.session (L.records log.old) (L.clock log.old) rules.now }
        requires rules { CanRun self.old.tables rules.now.catalog.now }
        requires active { AreActive (flag_at point.now.eligible) rules.now.catalog.now }
        requires room { HasRoom (2 ^ 47) (L.clock log.old) self.old.tables }
        ensures processed { EachWork self.old point.now.session (L.records log.old) (L.clock log.old) rules.now
            (λ origin setting progress. IfOk result (λ o.
            Finds (ComesTo origin self.new point.now.session (L.records log.new) (L.clock log.new) setting progress)
            (spec.process point.now.bound setting (flag_at point.now.eligible) progress)
            trace.old.items trace.new.items o)) }
        ensures under_way { EachWork self.old point.now.session (L.records log.old) (L.clock log.old) rules.now
            (λ origin setting progress. (after : Progress)
            × ComesTo origin self.new point.now.session (L.records log.new) (L.clock log.new) setting progress after) }
        ensures leaves { Leaves (32768 * point.now.bound) self.old self.new point.now.session
            (L.records log.old) (L.records log.new) (L.clock log.old) (L.clock log.new) }
    {
        let mut witnesses = Witnesses::new();
        for _turn in 0..point.bound {
            let Some(rule) = self.next_rule(
                log,
                rules,
                point.session,
                point.eligible,
                &mut witnesses,
            ) else {
                return Ok(Outcome::Done);
            };
            point.note(rule)?;
            let chosen = Chosen {
                session: point.session,
                rule,
            };
            match self.consider_noted(alloc, log, rules, &chosen, trace) {
                Ok(None) => {}
                Ok(Some(outcome)) => return Ok(outcome),
                Err(error) => return Err(error),
            }
        }
        match self.next_rule(log, rules, point.session, point.eligible, &mut witnesses) {
            Some(_) => Ok(Outcome::ByLimit),
            None => Ok(Outcome::Done),
        }
    }
}
