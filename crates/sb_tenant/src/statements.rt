//! Statements of a session's transaction.
ghost use Rattle.std.specs.Prelude.{◌≡◌, ◌<◌, ◌^◌, ℕ, List, IfOk};
ghost use Rattle.sb_tenant.specs.declared.bound.Bound.{Bound};
ghost use Rattle.sb_eval.specs.Statement as locks;
ghost use Rattle.sb_index.specs.TableSets.{TableSets};
ghost use Rattle.sb_process.specs.Made.{NumbersBelow};
ghost use Rattle.sb_process.specs.Request.{AreThere};
ghost use Rattle.sb_tenant.specs.Perform.{perform};
ghost use Rattle.sb_tenant.specs.Represents.{EachState, StandForSome, Leaves, Performs, StandFor, phase_at};
ghost use Rattle.sb_tenant.specs.Resolved.{query as query_of, change as change_of};
ghost use Rattle.sb_tenant.specs.State.{State};
ghost use Rattle.sb_tenant.specs.declared.phase.Phase.TheVariants as phase;

use crate::reply::Reply;
use crate::store::{Replies, Store, tables_are_shared};
use sb_check::{Query, Statement};
use sb_index::RuleIndex;
use sb_process::Rules;
use sb_rawlog::ChangeLog;
use sb_rows::SharedRows;
use sb_value::SessionId;
use std::alloc::{AllocError, Global};

impl Store {
    /// The rows of a query, once all its locks are taken.
    pub(crate) fn select<L: ChangeLog>(
        &mut self,
        alloc: Global,
        log: &mut L,
        session: SessionId,
        query: &Query,
    ) -> Replies
        requires stand { StandForSome self.old (L.records log.old) (L.clock log.old) }
        requires active { phase_at self.old.phases session ≡ phase.Active }
        requires there { AreThere self.old.database.tables (locks.query_locks query.now) }
        ensures performed { (index : List (List TableSets)) →
            EachState self.old (L.records log.old) (L.clock log.old) index
            (λ state. (bound : Bound) → self.old.database.left ≡ bound.work →
            Performs self.new (L.records log.new) (L.clock log.new) index state session
            (perform self.old.database.id bound state session (query_of query.now)) result.0) }
        ensures twice { result.1 ≡ result.0 }
        ensures leaves { Leaves 0 self.old self.new session
            (L.records log.old) (L.records log.new) (L.clock log.old) (L.clock log.new) }
    {
        tables_are_shared(session);
        match self.database.select(alloc, session, query) {
            Ok(rows) => {
                if !self.database.memory.has_room_for(rows.text().len() as u64) {
                    return self.run_out(log, session);
                }
                match shared(rows) {
                    Ok(replies) => replies,
                    Err(_) => self.run_out(log, session),
                }
            }
            Err(refusal) => self.refuse(log, session, refusal),
        }
    }

    /// Makes the changes of a statement, once all its locks are taken, and counts them.
    pub(crate) fn change<L: ChangeLog>(
        &mut self,
        alloc: Global,
        log: &mut L,
        index: &RuleIndex,
        session: SessionId,
        statement: &Statement,
    ) -> Replies
        requires stand { (state : State) × StandFor self.old (L.records log.old) (L.clock log.old) index.now state }
        requires active { phase_at self.old.phases session ≡ phase.Active }
        requires there { AreThere self.old.database.tables (locks.statement_locks statement.now) }
        requires times { L.clock log.old < 2 ^ 63 }
        requires numbers { NumbersBelow (2 ^ 63) self.old.database.tables }
        ensures performed { EachState self.old (L.records log.old) (L.clock log.old) index.now
            (λ state. (bound : Bound) → self.old.database.left ≡ bound.work →
            Performs self.new (L.records log.new) (L.clock log.new) index.now state session
            (perform self.old.database.id bound state session (change_of statement.now)) result.0) }
        ensures twice { result.1 ≡ result.0 }
        ensures leaves { Leaves 4096 self.old self.new session
            (L.records log.old) (L.records log.new) (L.clock log.old) (L.clock log.new) }
    {
        tables_are_shared(session);
        let rules = Rules {
            catalog: &self.definitions.rules,
            index,
            order: &self.definitions.order,
        };
        match self.database.change(alloc, log, &rules, session, statement) {
            Ok(count) => (Reply::Count(count as u64), Reply::Count(count as u64)),
            Err(refusal) => self.refuse(log, session, refusal),
        }
    }
}

/// The reply of a select, twice.
fn shared(rows: SharedRows) -> Result<Replies, AllocError>
    ensures rows { IfOk result (λ r. r.0 ≡ Reply.Rows rows) }
    ensures twice { IfOk result (λ r. r.1 ≡ r.0) }
{
    let copy = rows.share()?;
    Ok((Reply::Rows(rows), Reply::Rows(copy)))
}
