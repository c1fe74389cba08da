//! The rows of a batch whose flags are set.
ghost use Rattle.std.specs.Prelude.{◌≡◌, ◌≤◌, length, map, IfOk};
ghost use Rattle.sb_plan.specs.Listed.{is_one};

use sb_rows::{BatchColumn, IntegerComparison, Selection, Term, Test, filter};
use std::alloc::{AllocError, Global};

/// One for true, and zero for false.
fn one_if(truth: bool) -> i64
    ensures { is_one result ≡ truth }
{
    if truth { 1 } else { 0 }
}

/// One for each flag that is set, and zero for each other.
fn ones_of(alloc: Global, flags: &[bool]) -> Result<Vec<i64>, AllocError>
    ensures { IfOk result (λ numbers. map is_one numbers.items ≡ flags.now) }
{
    let mut numbers = Vec::with_capacity(alloc, flags.len())?;
    for flag in flags {
        numbers.push(one_if(*flag))?;
    }
    Ok(numbers)
}

/// The rows of a batch whose flags are set. Error: out of memory.
pub fn selection_of(alloc: Global, flags: &[bool]) -> Result<Selection, AllocError>
    requires { length flags.now ≤ 1024 }
    ensures { IfOk result (λ found. found ≡ flags.now) }
{
    let numbers = ones_of(alloc, flags)?;
    let one = Test::Compare(Term::Column(0), IntegerComparison::Equal, Term::Constant(1));
    filter(
        alloc,
        &one,
        &[BatchColumn::Each(numbers.as_slice())],
        flags.len(),
    )
}
