//! The condition of a rule.
ghost use Rattle.std.specs.Prelude.{◌≡◌, ◌⊎◌, ℕ, List};
ghost use Rattle.sb_eval.specs.Statement as statement;
ghost use Rattle.sb_rawlog.specs.Records.{Record};
ghost use Rattle.sb_process.specs.Consider.{test_condition, test_query};
ghost use Rattle.sb_process.specs.Represents.{EachTransaction, Represents, who_in};
ghost use Rattle.sb_process.specs.Request.{AreThere, IsAnswer};
ghost use Rattle.sb_process.specs.Running.{ComesTo, GoesOnHere, Tests, truth};
ghost use Rattle.sb_process.specs.Setting.{seen_with};
ghost use Rattle.sb_process.specs.View.{seen_by};
ghost use Rattle.sb_process.specs.Work.{IsConditionThere};

use crate::database::Database;
use crate::lock_list::query_locks;
use crate::refusal::refusal_for;
use crate::request::request;
use crate::view::Viewer;
use sb_check::Query;
use sb_eval::holds;
use sb_value::Refusal;
use std::alloc::Global;

impl Database {
    /// True if a rule's condition is true over what the viewer sees, once all its locks are taken.
    pub(crate) fn test(
        &mut self,
        alloc: Global,
        viewer: &Viewer<'_>,
        condition: &Option<Query>,
    ) -> Result<bool, Refusal>
        requires { IsConditionThere self.old.tables condition.now }
        ensures tested { (records : List Record) (clock : ℕ) →
            EachTransaction self.old viewer.now.session records clock
            (λ origin setting progress.
            Tests (ComesTo origin self.new viewer.now.session records clock setting progress)
            (test_condition setting viewer.now.tables.now condition.now progress) result
            ⊎ (result ≡ Err Refusal.NoMemory)) }
        ensures under_way { GoesOnHere self.old self.new viewer.now.session }
        ensures only_locks { self.new ≡ record self.old { locks = self.new.locks; left = self.new.left } }
    {
        match condition {
            Some(query) => self.test_query(alloc, viewer, query),
            None => Ok(true),
        }
    }

    fn test_query(
        &mut self,
        alloc: Global,
        viewer: &Viewer<'_>,
        query: &Query,
    ) -> Result<bool, Refusal>
        requires { AreThere self.old.tables (statement.query_locks query.now) }
        ensures tested { (records : List Record) (clock : ℕ) →
            EachTransaction self.old viewer.now.session records clock
            (λ origin setting progress.
            Tests (ComesTo origin self.new viewer.now.session records clock setting progress)
            (test_condition setting viewer.now.tables.now (Some query.now) progress) result
            ⊎ (result ≡ Err Refusal.NoMemory)) }
        ensures under_way { GoesOnHere self.old self.new viewer.now.session }
        ensures only_locks { self.new ≡ record self.old { locks = self.new.locks; left = self.new.left } }
    {
        let Ok(list) = query_locks(alloc, query) else {
            return Err(Refusal::NoMemory);
        };
        match request(
            &mut self.locks,
            &self.tables,
            viewer.session,
            list.as_slice(),
        ) {
            Ok(()) => self.test_granted(alloc, viewer, query),
            Err(refusal) => Err(refusal),
        }
    }

    /// Tests a query whose locks are all taken. Its work is taken of the budget before it is evaluated.
    fn test_granted(
        &mut self,
        alloc: Global,
        viewer: &Viewer<'_>,
        query: &Query,
    ) -> Result<bool, Refusal>
        ensures tested { (records : List Record) (clock : ℕ) →
            EachTransaction self.old viewer.now.session records clock
            (λ origin setting progress.
            Tests (Represents origin self.new viewer.now.session records clock setting)
            (test_query (seen_with setting viewer.now.tables.now progress) query.now progress) result
            ⊎ (result ≡ Err Refusal.NoMemory)) }
        ensures left { (records : List Record) (clock : ℕ) →
            EachTransaction self.old viewer.now.session records clock
            (λ origin setting progress.
            Represents origin self.new viewer.now.session records clock setting
            (record progress { left = self.new.left })) }
        ensures only_left { self.new ≡ record self.old { left = self.new.left } }
    {
        match self.left_after_query(viewer, query) {
            Ok(left) => {
                self.left = left;
                self.has_row(alloc, viewer, query)
            }
            Err(refusal) => Err(refusal),
        }
    }

    /// True if a query has a row over the tables as they are.
    fn has_row(&self, alloc: Global, viewer: &Viewer<'_>, query: &Query) -> Result<bool, Refusal>
        ensures { IsAnswer (truth (statement.condition_rows
            (seen_by self.now.tables viewer.now.tables.now (who_in self.now viewer.now.session)) query.now)) result }
    {
        let view = self.view(viewer);
        match holds(alloc, query, &view) {
            Ok(found) => Ok(found),
            Err(error) => Err(refusal_for(error)),
        }
    }
}
