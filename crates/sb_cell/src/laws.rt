//! What holds of the definitions alone: each law is the contract of a function that does nothing.
ghost use Rattle.std.specs.Prelude.{ℕ};
ghost use Rattle.sb_tenant.specs.declared.bound.Bound.{Bound};
ghost use Rattle.sb_cell.specs.Headline.{Run, BeginsLegal, IsRun, RunsInTurn, RunsAlone, AnswerAlike};

use sb_tenant::laws::legal_states_are_replayed;

/// Events that each make one turn of their tenant and touch no other run every tenant in turn.
pub fn events_run_in_turn()
    ensures { (bound : Bound) (run : Run) → IsRun bound run → RunsInTurn bound run }
{}

/// A tenant that runs in turn and meets no want of memory runs as if it were alone.
pub fn turns_run_alone()
    ensures { (bound : Bound) (run : Run) → BeginsLegal bound run → RunsInTurn bound run → RunsAlone bound run }
{
    // for the proof: a legal trail tells its state
    legal_states_are_replayed();
}

/// Of two runs, each answers a tenant without regard to what else runs beside it.
pub fn equal_runs_answer_alike()
    ensures { (bound : Bound) (one two : Run) → RunsAlone bound one → RunsAlone bound two → AnswerAlike bound one two }
{}
