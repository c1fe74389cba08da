//! Tuples that are known to trigger rules.

use sb_value::RuleId;

/// The number of tuples that are kept. Rules may share a place.
const PLACES: usize = 16;

/// For the rules that are tested at an assertion point, a tuple that triggered them when they were tested last, if one is
/// known. Nothing rests on it: a rule that waits is asked at this tuple first.
#[derive(Drop)]
pub(crate) struct Witnesses {
    tuples: [Option<u64>; PLACES],
}

impl Witnesses {
    /// Of no rule a tuple is known.
    pub(crate) fn new() -> Witnesses {
        Witnesses {
            tuples: [None; PLACES],
        }
    }

    /// The place of a rule.
    pub(crate) fn of(&mut self, rule: RuleId) -> &mut Option<u64> {
        &mut self.tuples[rule.index() % PLACES]
    }
}
