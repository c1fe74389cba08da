//! Assertion points of a session's transaction.
ghost use Rattle.std.specs.Prelude.{◌≡◌, ◌<◌, ◌≤◌, ◌^◌, ◌*◌, ℕ, Bool, List, IsTrue, IfOk, true};
ghost use Rattle.sb_value.specs.Flags.{flag_at};
ghost use Rattle.sb_catalog.specs.Rules.{is_active};
ghost use Rattle.sb_index.specs.TableSets.{TableSets};
ghost use Rattle.sb_process.specs.Made.{NumbersBelow};
ghost use Rattle.sb_process.specs.Running.{is_done};
ghost use Rattle.sb_process.specs.Setting.{Progress};
ghost use Rattle.sb_process.specs.declared.Outcome.{Outcome};
ghost use Rattle.sb_process.specs.Process.{stands_after};
ghost use Rattle.sb_tenant.specs.Ending.{finished};
ghost use Rattle.sb_tenant.specs.Perform.{process_at, stands_as, stays};
ghost use Rattle.sb_tenant.specs.Represents.{EachState, StandForSome, Finds, Leaves, Performs, StandAside, StandFor, phase_at};
ghost use Rattle.sb_tenant.specs.State.{State};
ghost use Rattle.sb_tenant.specs.declared.phase.Phase.TheVariants as phase;

use crate::asker::Asker;
use crate::phase::Phase;
use crate::store::{Ending, Replies, Store, tables_are_shared};
use crate::told::told;
use sb_index::RuleIndex;
use sb_process::{AssertionPoint, Processed, Rules};
use sb_rawlog::ChangeLog;
use sb_value::{RuleSet, SessionId};
use std::alloc::{AllocError, Global};

/// The fate of a transaction in which no rule is left.
#[derive(Clone, Copy)]
pub(crate) enum Finish {
    /// It goes on.
    GoOn,
    /// Its changes are kept.
    Commit,
}

impl Store {
    /// Processes eligible rules; the transaction is finished so where no rule is left, and else taken back.
    #[inline(never)]
    pub(crate) fn process<L: ChangeLog>(
        &mut self,
        alloc: Global,
        log: &mut L,
        index: &RuleIndex,
        asker: &Asker<'_, '_>,
        eligible: RuleSet,
        finish: Finish,
    ) -> Replies
        requires stand { (state : State) × StandFor self.old (L.records log.old) (L.clock log.old) index.now state }
        requires active { phase_at self.old.phases asker.now.session ≡ phase.Active }
        requires rules { (id : ℕ) → IsTrue (flag_at eligible id) → IsTrue (is_active self.old.definitions.rules id) }
        requires bound { asker.now.bound.considerations ≤ 1000 }
        requires budget { self.old.database.left ≡ asker.now.bound.work }
        requires times { L.clock log.old < 2 ^ 63 }
        requires numbers { NumbersBelow (2 ^ 63) self.old.database.tables }
        ensures performed { EachState self.old (L.records log.old) (L.clock log.old) index.now
            (λ state. (chosen : ℕ → Bool) → ((id : ℕ) → flag_at eligible id ≡ chosen id) →
            Performs self.new (L.records log.new) (L.clock log.new) index.now state asker.now.session
            (process_at self.old.database.id asker.now.bound state asker.now.session chosen
            (finished finish asker.now.session)) result.0) }
        ensures twice { result.1 ≡ result.0 }
        ensures leaves { Leaves 32768000 self.old self.new asker.now.session
            (L.records log.old) (L.records log.new) (L.clock log.old) (L.clock log.new) }
    {
        let point = AssertionPoint {
            session: asker.session,
            line: asker.line,
            eligible,
            bound: asker.bound.considerations,
            watch: asker.watch,
        };
        match self.run(alloc, log, index, &point) {
            Ok(processed) => match told(alloc, &self.definitions.rules, &processed) {
                Ok(replies) => {
                    self.finish(log, asker.session, finish, processed.outcome.is_done());
                    replies
                }
                Err(_) => self.run_out(log, asker.session),
            },
            Err(_) => self.run_out(log, asker.session),
        }
    }

    /// Processes eligible rules, without a reply.
    #[inline(always)]
    fn run<L: ChangeLog>(
        &mut self,
        alloc: Global,
        log: &mut L,
        index: &RuleIndex,
        point: &AssertionPoint<'_, '_>,
    ) -> Result<Processed, AllocError>
        requires stand { (state : State) × StandFor self.old (L.records log.old) (L.clock log.old) index.now state }
        requires active { phase_at self.old.phases point.now.session ≡ phase.Active }
        requires rules { (id : ℕ) → IsTrue (flag_at point.now.eligible id)
            → IsTrue (is_active self.old.definitions.rules id) }
        requires times { L.clock log.old < 2 ^ 63 }
        requires numbers { NumbersBelow (2 ^ 63) self.old.database.tables }
        ensures found { EachState self.old (L.records log.old) (L.clock log.old) index.now
            (λ state. (chosen : ℕ → Bool) → ((id : ℕ) → flag_at point.now.eligible id ≡ chosen id) →
            IfOk result (λ p. Finds self.old.database.id self.new (L.records log.new) (L.clock log.new) index.now state
            point.now.session (record { considerations = point.now.bound; work = self.old.database.left }) chosen p)) }
        ensures aside { EachState self.old (L.records log.old) (L.clock log.old) index.now
            (λ state. StandAside self.new (L.records log.new) (L.clock log.new) index.now state point.now.session) }
        ensures under_way { IfOk result (λ p. is_done p.outcome ≡ true
            → phase_at self.new.phases point.now.session ≡ phase.Active) }
        ensures definitions { self.new.definitions ≡ self.old.definitions }
        ensures leaves { Leaves (32768 * point.now.bound) self.old self.new point.now.session
            (L.records log.old) (L.records log.new) (L.clock log.old) (L.clock log.new) }
    {
        tables_are_shared(point.session);
        // for the proof: a rule's number is its own
        let _rules = self.definitions.rules.rules();
        let rules = Rules {
            catalog: &self.definitions.rules,
            index,
            order: &self.definitions.order,
        };
        match self.database.process(alloc, log, &rules, point) {
            Ok(processed) => {
                if processed.outcome.is_done() {
                    return Ok(processed);
                }
                self.phases.set(point.session, Phase::Idle);
                Ok(processed)
            }
            Err(error) => {
                self.phases.set(point.session, Phase::Idle);
                Err(error)
            }
        }
    }

    /// Keeps what the transaction has changed, where no rule is left and it isn't to go on.
    fn finish<L: ChangeLog>(&mut self, log: &mut L, session: SessionId, finish: Finish, done: bool)
        requires stand { StandForSome self.old (L.records log.old) (L.clock log.old) }
        requires active { done ≡ true → phase_at self.old.phases session ≡ phase.Active }
        ensures finished { (index : List (List TableSets)) (state : State) (outcome : Outcome) (progress : Progress) →
            is_done outcome ≡ done →
            StandFor self.old (L.records log.old) (L.clock log.old) index
            (stands_as state session stays (stands_after outcome progress)) →
            StandFor self.new (L.records log.new) (L.clock log.new) index
            (stands_as state session (finished finish session) (stands_after outcome progress)) }
        ensures leaves { Leaves 0 self.old self.new session
            (L.records log.old) (L.records log.new) (L.clock log.old) (L.clock log.new) }
    {
        match finish {
            Finish::GoOn => {}
            Finish::Commit => {
                if done {
                    self.conclude(log, session, Ending::Keep);
                }
            }
        }
    }
}
