//! Ranges: which integers a column or a term may be.
ghost use Rattle.std.specs.Prelude.{◌≡◌, ◌<◌, ◌+◌, ◌*◌, ◌^◌, List, length, ℤ, ◌+ℤ◌, ◌-ℤ◌, ◌*ℤ◌, IfSome, IsTrue};
ghost use Rattle.std.specs.Int.{int_max, int_min};
ghost use Rattle.std.specs.Bool.{OnTrue};
ghost use Rattle.std.specs.List.{All, Contains};
ghost use Rattle.sb_rows.specs.Condition.{NeverOverflows};
ghost use Rattle.sb_rows.specs.Range.{AreIn, Bounds, IsGivenUpTo, IsIn, condition_reach, reach_of, term_reach};
ghost use Rattle.sb_rows.specs.Term.{Fits, number_of};

use crate::condition::Test;
use crate::term::Term;

/// The integers from the least to the greatest.
#[derive(Clone, Copy)]
pub struct Range {
    pub least: i64,
    pub greatest: i64,
}

impl Range {
    /// A single integer.
    pub fn single(number: i64) -> Range
        ensures least { result.least ≡ number }
        ensures greatest { result.greatest ≡ number }
    {
        Range {
            least: number,
            greatest: number,
        }
    }

    /// The range with one integer more.
    pub fn with(self, number: i64) -> Range
        ensures least { result.least ≡ int_min self.least number }
        ensures greatest { result.greatest ≡ int_max self.greatest number }
    {
        Range {
            least: self.least.min(number),
            greatest: self.greatest.max(number),
        }
    }

    /// The range of a column with these numbers.
    pub fn of_all(numbers: &[i64]) -> Range
        ensures all { All (IsIn result) numbers.now }
        ensures least { 0 < length numbers.now → Contains numbers.now result.least }
        ensures greatest { 0 < length numbers.now → Contains numbers.now result.greatest }
    {
        if numbers.is_empty() {
            return Range::single(0);
        }
        let mut range = Range::single(numbers[0]);
        for number in numbers {
            range = range.with(*number);
        }
        range
    }

    /// The range of sums, if none overflows.
    fn sum(self, other: Range) -> Option<Range>
        ensures held { IfSome result (Bounds ◌+ℤ◌ self other) }
        ensures given { IsGivenUpTo (reach_of self + reach_of other) result }
    {
        let Some(least) = self.least.checked_add(other.least) else {
            return None;
        };
        let Some(greatest) = self.greatest.checked_add(other.greatest) else {
            return None;
        };
        Some(Range { least, greatest })
    }

    /// The range of differences, if none overflows.
    fn difference(self, other: Range) -> Option<Range>
        ensures held { IfSome result (Bounds ◌-ℤ◌ self other) }
        ensures given { IsGivenUpTo (reach_of self + reach_of other) result }
    {
        let Some(least) = self.least.checked_sub(other.greatest) else {
            return None;
        };
        let Some(greatest) = self.greatest.checked_sub(other.least) else {
            return None;
        };
        Some(Range { least, greatest })
    }

    /// The greatest distance of its integers from zero.
    fn reach(self) -> u64
        ensures { result ≡ reach_of self }
    {
        self.least.unsigned_abs().max(self.greatest.unsigned_abs())
    }

    /// The range of products, if none overflows. It tells of no sign.
    fn product(self, other: Range) -> Option<Range>
        ensures held { IfSome result (Bounds ◌*ℤ◌ self other) }
        ensures given { IsGivenUpTo (reach_of self * reach_of other) result }
    {
        let Some(reach) = self.reach().checked_mul(other.reach()) else {
            return None;
        };
        match i64::try_from(reach) {
            Ok(greatest) => Some(Range {
                least: -greatest,
                greatest,
            }),
            Err(_) => None,
        }
    }
}

/// The range of a term over columns of these ranges, if no operation of it overflows.
pub fn range_of(term: &Term, ranges: &[Range]) -> Option<Range>
    ensures held { IfSome result (λ range. (row : List ℤ) → AreIn ranges.now row →
        Fits row term.now × IsIn range (number_of row term.now)) }
    ensures given { IsGivenUpTo (term_reach ranges.now term.now) result }
{
    match term {
        Term::Constant(number) => Some(Range::single(*number)),
        Term::Column(place) => match ranges.get(*place) {
            Some(range) => Some(*range),
            None => Some(Range::single(0)),
        },
        Term::Negation(one) => match range_of(one, ranges) {
            Some(one) => Range::single(0).difference(one),
            None => None,
        },
        Term::Sum(one, two) => match range_of(one, ranges) {
            Some(one) => match range_of(two, ranges) {
                Some(two) => one.sum(two),
                None => None,
            },
            None => None,
        },
        Term::Difference(one, two) => match range_of(one, ranges) {
            Some(one) => match range_of(two, ranges) {
                Some(two) => one.difference(two),
                None => None,
            },
            None => None,
        },
        Term::Product(one, two) => match range_of(one, ranges) {
            Some(one) => match range_of(two, ranges) {
                Some(two) => one.product(two),
                None => None,
            },
            None => None,
        },
    }
}

/// True if no term of a condition overflows, whatever row of these ranges it meets.
pub fn never_overflows(condition: &Test, ranges: &[Range]) -> bool
    ensures held { OnTrue result ((row : List ℤ) → AreIn ranges.now row → NeverOverflows row condition.now) }
    ensures near { condition_reach ranges.now condition.now < 2 ^ 63 → IsTrue result }
{
    match condition {
        Test::Always => true,
        Test::Compare(one, _, two) => {
            range_of(one, ranges).is_some() && range_of(two, ranges).is_some()
        }
        Test::Both(one, two) | Test::Either(one, two) => {
            never_overflows(one, ranges) && never_overflows(two, ranges)
        }
        Test::Negation(one) => never_overflows(one, ranges),
    }
}
