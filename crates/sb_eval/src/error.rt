//! Why a statement has no rows, no truth and no changes.

/// Why a statement can't be evaluated.
#[derive(Clone, Copy, Debug, PartialEq, Eq)]
pub enum EvalError {
    /// It costs more than a statement may.
    TooBig,
    /// A number leaves the range of integers.
    Overflow,
    /// It gives more rows than a table or an answer may have.
    TooManyRows,
    NoMemory,
}
