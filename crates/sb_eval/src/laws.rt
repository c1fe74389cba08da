//! A law of the definitions, the contract of a function that does nothing.
ghost use Rattle.sb_eval.specs.Laws.{ChangesAreProper};

/// The changes of a statement can be made of the tables that it sees, one after another.
pub fn changes_are_proper()
    ensures { ChangesAreProper }
{}
