//! What holds of the definitions alone: each law is the contract of a function that does nothing.
ghost use Rattle.sb_host.specs.Finish.{OrderIsFixed};
ghost use Rattle.sb_host.specs.Lives.{LivesAddUp};

/// Receipts that are a session's entries in some order, and stand in the order of their steps, are its entries.
pub fn steps_fix_the_order()
    ensures { OrderIsFixed }
{}

/// The number of steps that is counted of a life is that of all its volumes together.
pub fn lives_add_up()
    ensures { LivesAddUp }
{}
