//! Chains of `and` or `or`.
ghost use Rattle.std.specs.Prelude.{◌≡◌, ◌≤◌, length, replicate};
ghost use Rattle.std.specs.Bool.{OnTrue};
ghost use Rattle.sb_eval.specs.Chain.{AreJoined, AreUndecided, neutral};

use sb_rows::Selection;

/// The connective of a chain: its parts are joined by `or`, or by `and`.
#[derive(Clone, Copy)]
pub(crate) enum Chain {
    Or,
    And,
}

impl Chain {
    /// True if both join in the same way.
    pub(crate) fn is(self, other: Chain) -> bool
        ensures { OnTrue result (self ≡ other) }
    {
        match self {
            Chain::Or => match other {
                Chain::Or => true,
                Chain::And => false,
            },
            Chain::And => match other {
                Chain::Or => false,
                Chain::And => true,
            },
        }
    }

    /// The rows of a chain of no part.
    pub(crate) fn neutral_rows(self, count: usize) -> Selection
        requires { count ≤ 1024 }
        ensures { result ≡ replicate count (neutral self) }
    {
        match self {
            Chain::Or => Selection::all_or_none(false, count),
            Chain::And => Selection::all_or_none(true, count),
        }
    }

    /// The rows in which two parts together are true.
    pub(crate) fn joined(self, one: &Selection, two: &Selection) -> Selection
        requires { length two.now ≡ length one.now }
        ensures { AreJoined self one.now two.now result }
    {
        match self {
            Chain::Or => one.either(two),
            Chain::And => one.both(two),
        }
    }

    /// The rows that are asked for and that these, in which a part is true, leave open.
    pub(crate) fn undecided(self, asked: &Selection, found: &Selection) -> Selection
        requires { length found.now ≡ length asked.now }
        ensures { AreUndecided self asked.now found.now result }
    {
        match self {
            Chain::Or => asked.both(&found.negated()),
            Chain::And => asked.both(found),
        }
    }
}
