//! The commands that work in a session's transaction.
ghost use Rattle.std.specs.Prelude.{◌≡◌, ◌<◌, ◌≤◌, ◌^◌, ℕ, List, None};
ghost use Rattle.sb_tenant.specs.declared.bound.Bound.{Bound};
ghost use Rattle.sb_index.specs.TableSets.{TableSets};
ghost use Rattle.sb_process.specs.Made.{NumbersBelow};
ghost use Rattle.sb_syntax.specs.Tree as text;
ghost use Rattle.sb_syntax.specs.Views as view;
ghost use Rattle.sb_tenant.specs.declared.phase.Phase.TheVariants as phase;
ghost use Rattle.sb_tenant.specs.Represents.{EachState, StandForSome, Leaves, Performs, StandFor, phase_at};
ghost use Rattle.sb_tenant.specs.State.{State};
ghost use Rattle.sb_tenant.specs.Step.{outcome_of};
ghost use Rattle.sb_tenant.specs.Walk.{walk};

use crate::answer::{done, refused};
use crate::asker::Asker;
use crate::names::Names;
use crate::processing::Finish;
use crate::store::{Ending, Replies, Store};
use sb_check::{resolve_query, resolve_statement, resolved_tables_are_there, walks_see_columns};
use sb_index::RuleIndex;
use sb_rawlog::ChangeLog;
use sb_syntax::{Query, Statement, TransactionCommand};
use sb_value::{Refusal, SessionId};
use std::alloc::Global;

impl Store {
    /// Does a command in a transaction, or is refused.
    #[inline(always)]
    pub(crate) fn work<L: ChangeLog>(
        &mut self,
        alloc: Global,
        log: &mut L,
        index: &RuleIndex,
        asker: &Asker<'_, '_>,
        command: TransactionCommand,
    ) -> Replies
        requires stand { (state : State) × StandFor self.old (L.records log.old) (L.clock log.old) index.now state }
        requires active { phase_at self.old.phases asker.now.session ≡ phase.Active }
        requires bound { asker.now.bound.considerations ≤ 1000 }
        requires times { L.clock log.old < 2 ^ 63 }
        requires numbers { NumbersBelow (2 ^ 63) self.old.database.tables }
        ensures performed { EachState self.old (L.records log.old) (L.clock log.old) index.now
            (λ state. Performs self.new (L.records log.new) (L.clock log.new) index.now state asker.now.session
            (outcome_of self.old.database.id asker.now.bound state asker.now.session None
            (walk state.catalog (view.transaction_command command))) result.0) }
        ensures twice { result.1 ≡ result.0 }
        ensures leaves { Leaves 32768000 self.old self.new asker.now.session
            (L.records log.old) (L.records log.new) (L.clock log.old) (L.clock log.new) }
    {
        self.database.left = asker.bound.work;
        match command {
            TransactionCommand::Commit => {
                let eligible = self.definitions.active();
                self.process(alloc, log, index, asker, eligible, Finish::Commit)
            }
            TransactionCommand::Rollback => {
                self.conclude(log, asker.session, Ending::TakeBack);
                done()
            }
            TransactionCommand::ProcessRules => {
                let eligible = self.definitions.active();
                self.process(alloc, log, index, asker, eligible, Finish::GoOn)
            }
            TransactionCommand::ProcessRuleset(name) => match self
                .definitions
                .active_members(&name)
            {
                Some(eligible) => self.process(alloc, log, index, asker, eligible, Finish::GoOn),
                None => refused(Refusal::NoRuleset),
            },
            TransactionCommand::ProcessRule(name) => match self.definitions.active_rule(&name) {
                Some(eligible) => self.process(alloc, log, index, asker, eligible, Finish::GoOn),
                None => refused(Refusal::NoRule),
            },
            TransactionCommand::Query(query) => self.query(alloc, log, asker.session, &query),
            TransactionCommand::Change(change) => self.write(
                alloc,
                log,
                index,
                asker.session,
                &change,
            ),
        }
    }

    /// A query in a transaction.
    #[inline(never)]
    fn query<L: ChangeLog>(
        &mut self,
        alloc: Global,
        log: &mut L,
        session: SessionId,
        query: &Query,
    ) -> Replies
        requires stand { StandForSome self.old (L.records log.old) (L.clock log.old) }
        requires active { phase_at self.old.phases session ≡ phase.Active }
        ensures performed { (index : List (List TableSets)) →
            EachState self.old (L.records log.old) (L.clock log.old) index
            (λ state. (bound : Bound) → self.old.database.left ≡ bound.work →
            Performs self.new (L.records log.new) (L.clock log.new) index state session
            (outcome_of self.old.database.id bound state session None
            (walk state.catalog (text.query (view.query query.now)))) result.0) }
        ensures twice { result.1 ≡ result.0 }
        ensures leaves { Leaves 0 self.old self.new session
            (L.records log.old) (L.records log.new) (L.clock log.old) (L.clock log.new) }
    {
        // for the proof: what is resolved is there, and is the same over committed tables and over those in memory
        resolved_tables_are_there();
        walks_see_columns();
        let names = Names {
            tables: &self.database.tables,
        };
        match resolve_query(alloc, query, &names) {
            Ok(resolved) => {
                let replies = self.select(alloc, log, session, &resolved);
                drop(resolved);
                replies
            }
            Err(refusal) => self.refuse(log, session, refusal),
        }
    }

    /// A statement in a transaction.
    #[inline(never)]
    fn write<L: ChangeLog>(
        &mut self,
        alloc: Global,
        log: &mut L,
        index: &RuleIndex,
        session: SessionId,
        change: &Statement,
    ) -> Replies
        requires stand { (state : State) × StandFor self.old (L.records log.old) (L.clock log.old) index.now state }
        requires active { phase_at self.old.phases session ≡ phase.Active }
        requires times { L.clock log.old < 2 ^ 63 }
        requires numbers { NumbersBelow (2 ^ 63) self.old.database.tables }
        ensures performed { EachState self.old (L.records log.old) (L.clock log.old) index.now
            (λ state. (bound : Bound) → self.old.database.left ≡ bound.work →
            Performs self.new (L.records log.new) (L.clock log.new) index.now state session
            (outcome_of self.old.database.id bound state session None
            (walk state.catalog (text.change (view.statement change.now)))) result.0) }
        ensures twice { result.1 ≡ result.0 }
        ensures leaves { Leaves 4096 self.old self.new session
            (L.records log.old) (L.records log.new) (L.clock log.old) (L.clock log.new) }
    {
        // for the proof: what is resolved is there, and is the same over committed tables and over those in memory
        resolved_tables_are_there();
        walks_see_columns();
        let names = Names {
            tables: &self.database.tables,
        };
        match resolve_statement(alloc, change, &names) {
            Ok(statement) => {
                let replies = self.change(alloc, log, index, session, &statement);
                drop(statement);
                replies
            }
            Err(refusal) => self.refuse(log, session, refusal),
        }
    }
}
