//! Rule processing.
#![tactic(auto)]

ghost use Rattle.std.specs.Prelude.{◌≡◌};

mod apply;
mod budget;
mod candidates;
mod change;
mod condition;
mod consider;
mod database;
mod laws;
mod lock_list;
mod make;
mod memory_use;
mod note;
mod prepared_changes;
mod process;
mod refusal;
mod request;
mod select;
mod shared_test;
mod step_watch;
mod times;
mod transaction;
mod transactions;
mod undo;
mod view;
mod witnesses;

pub use database::Database;
pub use laws::transactions_share_tables;
pub use memory_use::MemoryUse;
pub use process::{AssertionPoint, Rules};
use sb_value::{Refusal, RuleId, Verdict};
use std::marker::Model;
pub use step_watch::{RunningConsideration, RunningStep, StepWatch};
pub use transactions::Transactions;

/// The end of rule processing.
#[derive(Drop)]
pub enum Outcome {
    Done,
    ByRule(RuleId),
    ByError(RuleId, Refusal),
    ByLimit,
}

/// The considered rules with their verdicts, in order.
pub struct Trace {
    list: Vec<(RuleId, Verdict)>,
}

impl Drop for Trace {
    fn drop(self) {
        let Self { list: _ } = self;
    }
}

impl Model for Trace {
    ghost use Rattle.std.specs.Prelude.{List, ℕ};
    ghost use Rattle.sb_value.specs.declared.refusal.Verdict.{Verdict};

    ghost Value = { List (ℕ × Verdict) };

    ghost view = { λ t. t.list.items };
}

impl Trace {
    /// The verdicts in order.
    pub fn as_slice(&self) -> &[(RuleId, Verdict)]
        ensures { result.now ≡ self.now }
    {
        self.list.as_slice()
    }
}

/// The outcome, and the rules that were considered.
pub struct Processed {
    pub outcome: Outcome,
    pub trace: Trace,
}

impl Drop for Processed {
    fn drop(self) {
        let Self {
            outcome: _,
            trace: _,
        } = self;
    }
}
