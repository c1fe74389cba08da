//! What holds of the definitions alone: each law is the contract of a function that does nothing.
ghost use Rattle.std.specs.Prelude.{ℕ, List};
ghost use Rattle.sb_tenant.specs.declared.bound.Bound.{Bound};
ghost use Rattle.sb_replay.specs.Alone.{TellsAsAlone};
ghost use Rattle.sb_replay.specs.Replay.{Replays};

/// In a replay a session that has its tenant for itself is told what it would be told alone, so the same on any number
/// of cells and workers.
pub fn replays_tell_as_alone()
    ensures { (tenants : ℕ) (bound : Bound) (input text : List ℕ) (r : Replays tenants bound input text) → TellsAsAlone r }
{}
