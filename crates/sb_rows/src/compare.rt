//! Comparisons of columns, a word of bits at a time.
ghost use Rattle.std.specs.Prelude.{◌≡◌, ◌≤◌, ◌<◌, ◌-◌, ◌*◌, min, ℕ, ℤ, Bool, map, length, take, drop};
ghost use Rattle.std.specs.Ordering.{int_cmp, is_eq, is_lt, is_gt};
ghost use Rattle.std.specs.Simd.Lanes.{zip2, mask_l};
ghost use Rattle.sb_rows.specs.Batch.{number_in, HasRows};
ghost use Rattle.sb_rows.specs.Condition.{compared};
ghost use Rattle.sb_rows.specs.Selection.{rows};

use crate::batch::BatchColumn;
use crate::condition::IntegerComparison;
use crate::selection::{Selection, WORD_COUNT, WORD_SIZE};

/// A relation of two integers.
pub(crate) trait Relation {
    ghost holds: { ℤ → ℤ → Bool };

    fn test(x: i64, y: i64) -> bool
        ensures { result ≡ holds x y };
}

struct Equal;

struct Less;

struct Greater;

impl Relation for Equal {
    ghost holds = { λ x y. is_eq (int_cmp x y) };

    #[inline(always)]
    fn test(x: i64, y: i64) -> bool {
        x == y
    }
}

impl Relation for Less {
    ghost holds = { λ x y. is_lt (int_cmp x y) };

    #[inline(always)]
    fn test(x: i64, y: i64) -> bool {
        x < y
    }
}

impl Relation for Greater {
    ghost holds = { λ x y. is_gt (int_cmp x y) };

    #[inline(always)]
    fn test(x: i64, y: i64) -> bool {
        x > y
    }
}

/// A bit for each number, set where the relation to the other one holds. The last comes first.
#[inline(always)]
fn word_to_same<R: Relation>(numbers: &[i64], other: &i64) -> u64
    requires { length numbers.now ≤ 64 }
    ensures { result ≡ mask_l (map (λ x. R.holds x other.now) numbers.now) }
{
    let mut word = 0;
    let mut left = numbers.len();
    while left > 0 {
        left -= 1;
        word = 2 * word + R::test(numbers[left], *other) as u64;
    }
    word
}

/// A bit for each number, set where the relation to the other one beside it holds. The last comes first.
#[inline(always)]
fn word_to_each<R: Relation>(numbers: &[i64], others: &[i64]) -> u64
    requires few { length numbers.now ≤ 64 }
    requires long { length others.now ≡ length numbers.now }
    ensures { result ≡ mask_l (zip2 R.holds numbers.now others.now) }
{
    let mut word = 0;
    let mut left = numbers.len();
    while left > 0 {
        left -= 1;
        word = 2 * word + R::test(numbers[left], others[left]) as u64;
    }
    word
}

/// The number of words that tell of so many rows.
fn used_words(count: usize) -> usize
    requires { count ≤ 1024 }
    ensures enough { count ≤ 64 * result }
    ensures few { result ≤ 16 }
{
    (count + WORD_SIZE - 1) / WORD_SIZE
}

/// The rows of a word in a column.
#[inline(always)]
fn part(numbers: &[i64], word: usize) -> &[i64]
    requires { word < 16 }
    ensures rows { result.now ≡ take 64 (drop (64 * word) numbers.now) }
    ensures long { length result.now ≡ min 64 (length numbers.now - 64 * word) }
{
    let start = numbers.len().min(WORD_SIZE * word);
    let end = numbers.len().min(start + WORD_SIZE);
    &numbers[start..end]
}

/// The rows whose number has the relation to the other one.
fn select_to_same<R: Relation>(numbers: &[i64], other: &i64) -> Selection
    requires { length numbers.now ≤ 1024 }
    ensures { result ≡ map (λ x. R.holds x other.now) numbers.now }
{
    let used = used_words(numbers.len());
    let mut words = [0; WORD_COUNT];
    for k in 0..used {
        words[k] = word_to_same::<R>(part(numbers, k), other);
    }
    Selection::of_words(numbers.len(), words)
}

/// The rows whose number has the relation to the one beside it.
fn select_to_each<R: Relation>(numbers: &[i64], others: &[i64]) -> Selection
    requires few { length numbers.now ≤ 1024 }
    requires long { length others.now ≡ length numbers.now }
    ensures { result ≡ zip2 R.holds numbers.now others.now }
{
    let used = used_words(numbers.len());
    let mut words = [0; WORD_COUNT];
    for k in 0..used {
        words[k] = word_to_each::<R>(part(numbers, k), part(others, k));
    }
    Selection::of_words(numbers.len(), words)
}

/// The rows in which one column has the relation to another, which is the second relation turned round.
fn related<R: Relation, T: Relation>(
    one: &BatchColumn<'_>,
    two: &BatchColumn<'_>,
    count: usize,
) -> Selection
    requires turned { (x y : ℤ) → T.holds y x ≡ R.holds x y }
    requires few { count ≤ 1024 }
    requires first { HasRows count one.now }
    requires second { HasRows count two.now }
    ensures { result ≡ map (λ k. R.holds (number_in k one.now) (number_in k two.now)) (rows count) }
{
    match one {
        BatchColumn::Same(x) => match two {
            BatchColumn::Same(y) => Selection::all_or_none(R::test(*x, *y), count),
            BatchColumn::Each(others) => select_to_same::<T>(others, x),
        },
        BatchColumn::Each(numbers) => match two {
            BatchColumn::Same(y) => select_to_same::<R>(numbers, y),
            BatchColumn::Each(others) => select_to_each::<R>(numbers, others),
        },
    }
}

/// The rows in which two columns compare so.
pub(crate) fn select_compared(
    one: &BatchColumn<'_>,
    comparison: IntegerComparison,
    two: &BatchColumn<'_>,
    count: usize,
) -> Selection
    requires few { count ≤ 1024 }
    requires first { HasRows count one.now }
    requires second { HasRows count two.now }
    ensures { result ≡ map (λ k. compared comparison (number_in k one.now) (number_in k two.now)) (rows count) }
{
    match comparison {
        IntegerComparison::Equal => related::<Equal, Equal>(one, two, count),
        IntegerComparison::NotEqual => related::<Equal, Equal>(one, two, count).negated(),
        IntegerComparison::Less => related::<Less, Greater>(one, two, count),
        IntegerComparison::LessEqual => related::<Greater, Less>(one, two, count).negated(),
        IntegerComparison::Greater => related::<Greater, Less>(one, two, count),
        IntegerComparison::GreaterEqual => related::<Less, Greater>(one, two, count).negated(),
    }
}
