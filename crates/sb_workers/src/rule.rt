//! The rule of the pool's deque: each place pushed stands with its job in the deque, in rising order,
//! or was given with it to exactly one seat.

use crate::work::Placed;
use crossbeam_deque::protocol::{Join, Lesson, Outcome, Protocol, Split};
use crossbeam_deque::{Pass, Stealer, Worker};
use std::alloc::Global;
use std::collections::LinkedList;

/// What a seat knows: its parts of the right to know the whole, whether it is the owner's, what was
/// pushed from it and what it was given. No value of this type is made.
pub struct Known<J: Drop> {
    pub parts: u64,
    pub owns: bool,
    pub pushed: LinkedList<Placed<J>>,
    pub given: LinkedList<Placed<J>>,
}

/// The rule.
pub struct GivenOnce;

impl<J: Drop> Protocol<Placed<J>, Known<J>> for GivenOnce {
    ghost use Rattle.std.specs.Prelude.{true, false, []};
    ghost use Rattle.sb_workers.specs.Rule.{known, Ruled};

    ghost holds = { Ruled };

    ghost first = { known 1024 true [] [] };

    ghost guest = { known 0 false [] [] };
}

/// A part of the right to know the whole, which goes to a helper's seat and comes back.
pub struct Part;

impl<J: Drop> Split<Known<J>> for Part {
    ghost use Rattle.std.specs.Prelude.{false, [], ◌-◌};
    ghost use Rattle.sb_workers.specs.Rule.{known};

    ghost left = { λ v. known (v.parts - 1) v.owns v.pushed v.given };

    ghost right = { λ v. known 1 false [] [] };
}

impl<J: Drop> Join<Known<J>> for Part {
    ghost use Rattle.std.specs.Prelude.{false, [], ◌+◌, ◌++◌};
    ghost use Rattle.sb_workers.specs.Rule.{known};

    ghost both = { λ v w. known (v.parts + w.parts) v.owns v.pushed (v.given ++ w.given) };

    ghost spent = { known 0 false [] [] };
}

/// What a push tells the owner.
pub struct Pushed;

impl<J: Drop> Outcome<Placed<J>, Known<J>> for Pushed {
    ghost use Rattle.std.specs.Prelude.{◌≡◌, ◌++◌};
    ghost use Rattle.sb_workers.specs.Rule.{known};

    ghost then = { λ v xs w. w ≡ known v.parts v.owns (v.pushed ++ xs) v.given };
}

/// What a pop tells the owner.
pub struct Popped;

impl<J: Drop> Outcome<Placed<J>, Known<J>> for Popped {
    ghost use Rattle.std.specs.Prelude.{◌≡◌, ◌++◌};
    ghost use Rattle.sb_workers.specs.Rule.{known, AllOut, NoMore};

    ghost then = { λ v xs w. (w ≡ known v.parts v.owns v.pushed (v.given ++ xs)) × NoMore w };

    ghost empty = { AllOut };
}

/// What a steal tells a helper.
pub struct Stolen;

impl<J: Drop> Outcome<Placed<J>, Known<J>> for Stolen {
    ghost use Rattle.std.specs.Prelude.{◌≡◌, ◌++◌};
    ghost use Rattle.sb_workers.specs.Rule.{known, NoMore};

    ghost then = { λ v xs w. (w ≡ known v.parts v.owns v.pushed (v.given ++ xs)) × NoMore w };
}

/// What a look at the deque tells the owner.
pub struct Looked;

impl<J: Drop> Lesson<Placed<J>, Known<J>> for Looked {
    ghost use Rattle.sb_workers.specs.Rule.{NoMore};

    ghost fact = { λ v _. NoMore v };
}

/// The end of the deque that pushes and pops.
pub type Owner<J> = Worker<Placed<J>, Global, Known<J>, GivenOnce>;

/// The end that others steal from.
pub type Thief<J> = Stealer<Placed<J>, Global, Known<J>, GivenOnce>;

/// A helper's seat at the deque.
pub type Seat<J> = Pass<Placed<J>, Known<J>>;
