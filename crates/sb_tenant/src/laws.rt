//! What holds of the definitions alone: each law is the contract of a function that does nothing.
ghost use Rattle.std.specs.Prelude.{ℕ};
ghost use Rattle.sb_tenant.specs.declared.bound.Bound.{Bound};
ghost use Rattle.sb_tenant.specs.RefusalLaws.{RefusalsTakeLocksAtMost, RefusedDefinitionsChangeNothing};
ghost use Rattle.sb_tenant.specs.TrailLaws.{TrailsFixStates, LegalStatesAreReplayed, StepsHaveMemory, AnswersAreNumbered, OthersStay, OwnOpens, EndsClose, TrailsAreBounded};
ghost use Rattle.sb_tenant.specs.Walk.{NamesComeFirst};
ghost use Rattle.sb_tenant.specs.WellFormed.{StatesAreWellFormed};

use sb_check::resolved_tables_are_there;
use sb_eval::changes_are_proper;

/// A legal trail fixes the state after it.
pub fn trails_fix_states()
    ensures { (tenant : ℕ) (bound : Bound) → TrailsFixStates tenant bound }
{}

/// The state after a legal trail is the trail's replay, and its steps are the trail's entries.
pub fn legal_states_are_replayed()
    ensures { (tenant : ℕ) (bound : Bound) → LegalStatesAreReplayed tenant bound }
{}

/// The definitions never run out of memory: `NoMemory` is the reply of an abort alone.
pub fn steps_have_memory()
    ensures { (tenant : ℕ) (bound : Bound) → StepsHaveMemory tenant bound }
{}

/// An answer without a number says that the trail is full, and no other answer does.
pub fn answers_are_numbered()
    ensures { (tenant : ℕ) (bound : Bound) → AnswersAreNumbered tenant bound }
{}

/// A line that a step refuses changes nothing but the trail and the locks that its statement had taken.
pub fn refused_lines_change_little()
    ensures locks { (tenant : ℕ) (bound : Bound) → RefusalsTakeLocksAtMost tenant bound }
    ensures definitions { (tenant : ℕ) (bound : Bound) → RefusedDefinitionsChangeNothing tenant bound }
{}

/// An entry changes no session but its own, and opens or closes that one as its command says.
pub fn entries_open_and_close()
    ensures others { (tenant : ℕ) (bound : Bound) → OthersStay tenant bound }
    ensures own { (tenant : ℕ) (bound : Bound) → OwnOpens tenant bound }
    ensures ends { (tenant : ℕ) (bound : Bound) → EndsClose tenant bound }
{}

/// A legal trail has at most 1,048,576 entries and one more for the end of each open session.
pub fn trails_are_bounded()
    ensures { (tenant : ℕ) (bound : Bound) → TrailsAreBounded tenant bound }
{}

/// In a state that can be reached locks belong to transactions, a session has locked what it has changed, alone,
/// and its changes can be made of the tables that it sees without them.
pub fn states_are_well_formed()
    ensures { (tenant : ℕ) (bound : Bound) → StatesAreWellFormed tenant bound }
{
    // for the proof: what a walk names is there, and a statement's changes are proper
    resolved_tables_are_there();
    changes_are_proper();
}

/// The walk of a command begins with its names and types, as they are resolved over the tables alone.
pub fn names_come_first()
    ensures { NamesComeFirst }
{}
