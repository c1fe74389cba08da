//! Queries of a session.
ghost use Rattle.std.specs.Prelude.{◌≡◌, ℕ, List};
ghost use Rattle.sb_eval.specs.Seen as seen;
ghost use Rattle.sb_eval.specs.Statement as spec;
ghost use Rattle.sb_rawlog.specs.Records.{Record};
ghost use Rattle.sb_process.specs.Consider.{select_within};
ghost use Rattle.sb_process.specs.Represents.{EachTransaction, who_in};
ghost use Rattle.sb_process.specs.Request.{AreThere, IsAnswer, Selects};
ghost use Rattle.sb_process.specs.View.{seen_by};

use crate::database::Database;
use crate::lock_list::query_locks;
use crate::refusal::refusal_for;
use crate::request::request;
use crate::view::{Viewer, no_transition};
use sb_check::Query;
use sb_eval::select_rows;
use sb_rows::SharedRows;
use sb_value::{Refusal, SessionId};
use std::alloc::Global;

impl Database {
    /// The rows of a query, once all its locks are taken. Error: Locked with the first table that isn't to be had,
    /// TooBig, Overflow, TooManyRows or NoMemory.
    pub fn select(
        &mut self,
        alloc: Global,
        session: SessionId,
        query: &Query,
    ) -> Result<SharedRows, Refusal>
        requires { AreThere self.old.tables (spec.query_locks query.now) }
        ensures selected { (records : List Record) (clock : ℕ) → EachTransaction self.old session records clock
            (λ origin setting progress.
            Selects origin self.new session query.now result records clock setting progress) }
        ensures only_locks { self.new ≡ record self.old { locks = self.new.locks } }
    {
        let Ok(list) = query_locks(alloc, query) else {
            return Err(Refusal::NoMemory);
        };
        match request(&mut self.locks, &self.tables, session, list.as_slice()) {
            Ok(()) => self.rows(alloc, session, query),
            Err(refusal) => Err(refusal),
        }
    }

    /// The rows of a query over the tables as they are, without transition tables, if its work is within the budget.
    fn rows(&self, alloc: Global, session: SessionId, query: &Query) -> Result<SharedRows, Refusal>
        ensures { IsAnswer (select_within
            (seen_by self.now.tables seen.no_transition (who_in self.now session)) query.now self.now.left) result }
    {
        let none = no_transition(alloc);
        let viewer = Viewer {
            session,
            tables: &none,
        };
        match self.left_after_query(&viewer, query) {
            Ok(_) => self.rows_seen(alloc, &viewer, query),
            Err(refusal) => Err(refusal),
        }
    }

    /// The rows of a query over what a viewer sees.
    fn rows_seen(
        &self,
        alloc: Global,
        viewer: &Viewer<'_>,
        query: &Query,
    ) -> Result<SharedRows, Refusal>
        ensures { IsAnswer (spec.select_rows
            (seen_by self.now.tables viewer.now.tables.now (who_in self.now viewer.now.session)) query.now) result }
    {
        let view = self.view(viewer);
        match select_rows(alloc, query, &view) {
            Ok(rows) => Ok(rows),
            Err(error) => Err(refusal_for(error)),
        }
    }
}
