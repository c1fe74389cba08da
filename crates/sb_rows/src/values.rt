//! The numbers of terms in the rows of a batch.
ghost use Rattle.std.specs.Prelude.{◌≡◌, ◌<◌, ℕ, ℤ, pos, ◌+ℤ◌, ◌-ℤ◌, ◌*ℤ◌, FitsSigned, length, slice_index_or, IfOk};
ghost use Rattle.std.specs.Int.{w64};
ghost use Rattle.std.specs.List.{All};
ghost use Rattle.sb_rows.specs.Batch.{number_in, row_at, HasRows};
ghost use Rattle.sb_rows.specs.Term.{number_of, Fits};
ghost use Rattle.sb_rows.specs.Values.{AreValues, Gives, HaveRows, value_in};

use crate::batch::BatchColumn;
use crate::term::Term;
use std::alloc::{AllocError, Global};

/// The numbers of a term: one that each row has, those of a column, or those that were calculated.
#[derive(Drop)]
pub(crate) enum Values<'r> {
    Same(i64),
    Lent(&'r [i64]),
    Own(Vec<i64>),
}

/// An operation on two integers.
trait Operation {
    ghost exact: { ℤ → ℤ → ℤ };

    fn apply(x: i64, y: i64) -> i64
        requires { FitsSigned w64 (exact x y) }
        ensures { result ≡ exact x y };
}

struct Sum;

struct Difference;

struct Product;

impl Operation for Sum {
    ghost exact = { ◌+ℤ◌ };

    #[inline(always)]
    fn apply(x: i64, y: i64) -> i64 {
        x + y
    }
}

impl Operation for Difference {
    ghost exact = { ◌-ℤ◌ };

    #[inline(always)]
    fn apply(x: i64, y: i64) -> i64 {
        x - y
    }
}

impl Operation for Product {
    ghost exact = { ◌*ℤ◌ };

    #[inline(always)]
    fn apply(x: i64, y: i64) -> i64 {
        x * y
    }
}

/// Applies the operation to each number and the other one.
#[inline(always)]
fn apply_same<O: Operation>(numbers: &mut [i64], other: &i64)
    requires { (k : ℕ) → k < length numbers.old →
        FitsSigned w64 (O.exact (slice_index_or numbers.old k (pos 0)) other.now) }
    ensures { Gives (λ k. O.exact (slice_index_or numbers.old k (pos 0)) other.now) (length numbers.old) numbers.new }
{
    for k in 0..numbers.len() {
        numbers[k] = O::apply(numbers[k], *other);
    }
}

/// Applies the operation to each number and the one beside it.
#[inline(always)]
fn apply_each<O: Operation>(numbers: &mut [i64], others: &[i64])
    requires long { length others.now ≡ length numbers.old }
    requires fits { (k : ℕ) → k < length numbers.old →
        FitsSigned w64 (O.exact (slice_index_or numbers.old k (pos 0)) (slice_index_or others.now k (pos 0))) }
    ensures { Gives (λ k. O.exact (slice_index_or numbers.old k (pos 0)) (slice_index_or others.now k (pos 0)))
        (length numbers.old) numbers.new }
{
    for k in 0..numbers.len() {
        numbers[k] = O::apply(numbers[k], others[k]);
    }
}

impl<'r> Values<'r> {
    /// The values as a column of the batch.
    pub(crate) fn column(&self) -> BatchColumn<'_>
        ensures long { (count : ℕ) → HaveRows count self.now → HasRows count result }
        ensures each { (k : ℕ) → number_in k result ≡ value_in k self.now }
    {
        match self {
            Values::Same(number) => BatchColumn::Same(*number),
            Values::Lent(numbers) => BatchColumn::Each(numbers),
            Values::Own(numbers) => BatchColumn::Each(numbers.as_slice()),
        }
    }

    /// The values as a list of their own.
    fn into_list(self, alloc: Global, count: usize) -> Result<Vec<i64>, AllocError>
        requires { HaveRows count self }
        ensures { IfOk result (λ list. Gives (λ k. value_in k self.entry) count list.items) }
    {
        match self {
            Values::Same(number) => vec![in alloc; number; count],
            Values::Lent(numbers) => numbers.to_vec(alloc),
            Values::Own(numbers) => Ok(numbers),
        }
    }
}

/// The values of an operation.
fn combined<'r, O: Operation>(
    alloc: Global,
    one: Values<'r>,
    two: Values<'r>,
    count: usize,
) -> Result<Values<'r>, AllocError>
    requires some { 0 < count }
    requires first { HaveRows count one }
    requires second { HaveRows count two }
    requires fits { (k : ℕ) → k < count → FitsSigned w64 (O.exact (value_in k one) (value_in k two)) }
    ensures { IfOk result (AreValues (λ k. O.exact (value_in k one.entry) (value_in k two.entry)) count) }
{
    if let Values::Same(x) = one {
        if let Values::Same(y) = two {
            return Ok(Values::Same(O::apply(x, y)));
        }
    }
    let mut numbers = one.into_list(alloc, count)?;
    match two.column() {
        BatchColumn::Same(y) => apply_same::<O>(numbers.as_mut_slice(), &y),
        BatchColumn::Each(others) => apply_each::<O>(numbers.as_mut_slice(), others),
    }
    Ok(Values::Own(numbers))
}

/// The values of a column of the batch.
fn lent<'r>(columns: &[BatchColumn<'r>], place: usize) -> Values<'r>
    ensures { (count : ℕ) → All (HasRows count) columns.now →
        AreValues (λ k. slice_index_or (row_at columns.now k) place (pos 0)) count result }
{
    match columns.get(place) {
        Some(BatchColumn::Same(number)) => Values::Same(*number),
        Some(BatchColumn::Each(numbers)) => Values::Lent(numbers),
        None => Values::Same(0),
    }
}

/// The values of a term that overflows in no row of the batch.
pub(crate) fn term_values<'r>(
    alloc: Global,
    term: &Term,
    columns: &[BatchColumn<'r>],
    count: usize,
) -> Result<Values<'r>, AllocError>
    requires some { 0 < count }
    requires long { All (HasRows count) columns.now }
    requires fits { (k : ℕ) → k < count → Fits (row_at columns.now k) term.now }
    ensures { IfOk result (AreValues (λ k. number_of (row_at columns.now k) term.now) count) }
{
    match term {
        Term::Constant(number) => Ok(Values::Same(*number)),
        Term::Column(place) => Ok(lent(columns, *place)),
        Term::Negation(one) => {
            let one = term_values(alloc, one, columns, count)?;
            combined::<Difference>(alloc, Values::Same(0), one, count)
        }
        Term::Sum(one, two) => {
            let one = term_values(alloc, one, columns, count)?;
            let two = term_values(alloc, two, columns, count)?;
            combined::<Sum>(alloc, one, two, count)
        }
        Term::Difference(one, two) => {
            let one = term_values(alloc, one, columns, count)?;
            let two = term_values(alloc, two, columns, count)?;
            combined::<Difference>(alloc, one, two, count)
        }
        Term::Product(one, two) => {
            let one = term_values(alloc, one, columns, count)?;
            let two = term_values(alloc, two, columns, count)?;
            combined::<Product>(alloc, one, two, count)
        }
    }
}
