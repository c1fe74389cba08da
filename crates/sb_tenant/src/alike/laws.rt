//! What holds of alike tenants, over the definitions alone: each law is the contract of a function that does nothing.
ghost use Rattle.std.specs.Prelude.{ℕ};
ghost use Rattle.sb_tenant.specs.declared.bound.Bound.{Bound};
ghost use Rattle.sb_tenant.specs.AlikeLaws.{AlikeAnswerAlike, AlikeAtRestAreAlike};
ghost use Rattle.sb_tenant.specs.Renewals.{EndsAlone, OpensAlone, RenewalIsUnseen};

use crate::laws::{entries_open_and_close, legal_states_are_replayed, states_are_well_formed};
use sb_catalog::least_free_is_least;
use sb_value::precedes_is_closure;

/// Alike tenants give the same replies to the same lines, as long as no trail is full, and stay alike.
pub fn alike_answer_alike()
    ensures { (first second : ℕ) (bound : Bound) → AlikeAnswerAlike first second bound }
{
    // for the proof: only the set of pairs counts, and a new table has a number that no other one has
    precedes_is_closure();
    least_free_is_least();
}

/// Tenants at rest that show the same, with the same sessions open, are alike.
pub fn alike_at_rest_are_alike()
    ensures { (first second : ℕ) (bound : Bound) → AlikeAtRestAreAlike first second bound }
{
    // for the proof: where no session has a transaction, nothing is locked
    states_are_well_formed();
    legal_states_are_replayed();
    entries_open_and_close();
}

/// The replies in all volumes of a tenant's life, where none is for want of memory, are those of an engine whose trail
/// never fills.
pub fn renewal_is_unseen()
    ensures { (tenant : ℕ) (bound : Bound) → RenewalIsUnseen tenant bound }
{
    // for the proof: alike tenants answer alike, and where no session has a transaction, nothing is locked
    alike_answer_alike();
    states_are_well_formed();
    legal_states_are_replayed();
    entries_open_and_close();
}

/// A session without a transaction ends and opens, and nothing else changes but the number of steps.
pub fn sessions_end_and_open_alone()
    ensures ends { (tenant : ℕ) (bound : Bound) → EndsAlone tenant bound }
    ensures opens { (tenant : ℕ) (bound : Bound) → OpensAlone tenant bound }
{
    // for the proof: a session without a transaction has no locks
    states_are_well_formed();
}
