//! A line with values in the places of its parameters.
ghost use Rattle.std.specs.Prelude.{◌≡◌, ◌≤◌, ◌++◌, length, OnOk, option_copied};
ghost use Rattle.sb_postgres.specs.Filling.{Adds};
ghost use Rattle.sb_postgres.specs.Templates as spec;

use crate::query::draft::LINE_LIMIT;
use crate::query::error::Refusal;
use crate::query::parameter::number_in;
use crate::query::piece::{PieceKind, piece_at};
use sb_value::{Value, print_value};
use std::alloc::{AllocError, AllocFailed, Global};
use thiserror::Error;

/// Why no line is made of a line and values.
#[derive(Clone, Copy, Debug, PartialEq, Eq, Error)]
pub enum FillError {
    #[error("out of memory")]
    Memory,
    /// The line can't be read to its end.
    #[error("{}", .0.fault)]
    Refused(Refusal),
    /// The parameter at this byte of the line has no value.
    #[error("there is no such parameter")]
    NoValue(usize),
    /// The line that is made has more than [`LINE_LIMIT`] bytes.
    ///
    /// [`LINE_LIMIT`]: crate::query::LINE_LIMIT
    #[error("the statement is too long with its values")]
    TooLong,
}

impl From<AllocError> for FillError {
    ghost use Rattle.sb_postgres.specs.declared.query.template.FillError.TheVariants.{Memory};

    ghost from_gives = { λ _ e. e ≡ Memory };

    fn from(_error: AllocError) -> FillError {
        FillError::Memory
    }
}

impl<T: Drop> From<AllocFailed<T>> for FillError {
    ghost use Rattle.sb_postgres.specs.declared.query.template.FillError.TheVariants.{Memory};

    ghost from_gives = { λ _ e. e ≡ Memory };

    fn from(_error: AllocFailed<T>) -> FillError {
        FillError::Memory
    }
}

/// The value with this number.
fn numbered(values: &[Value], number: u16) -> Option<&Value>
    ensures { option_copied result ≡ spec.numbered values.now number }
{
    if number == 0 {
        return None;
    }
    values.get(usize::from(number - 1))
}

/// The value of a parameter, which is a `$` and digits.
fn value_of<'a>(values: &'a [Value], parameter: &[u8]) -> Option<&'a Value>
    requires { 1 ≤ length parameter.now }
    ensures { option_copied result ≡ spec.value_of values.now parameter.now }
{
    match number_in(&parameter[1..]) {
        Some(number) => numbered(values, number),
        None => None,
    }
}

/// Appends a value's literal between two spaces.
#[tactic(auto, using(crate::proofs::FillTexts::spaced_pushed))]
fn push_spaced(out: &mut Vec<u8>, value: &Value) -> Result<(), AllocError>
    ensures { OnOk result (out.new.items ≡ out.old.items ++ spec.text_of (spec.spaced value.now)) }
{
    out.push(b' ')?;
    print_value(value, out)?;
    out.push(b' ')?;
    Ok(())
}

/// Appends a piece, or the value of a parameter.
fn push_part(
    out: &mut Vec<u8>,
    values: &[Value],
    kind: PieceKind,
    at: usize,
    bytes: &[u8],
) -> Result<(), FillError>
    requires { 1 ≤ length bytes.now }
    ensures { Adds (spec.part values.now kind at bytes.now) out.old.items out.new.items result }
{
    match kind {
        PieceKind::Parameter => match value_of(values, bytes) {
            Some(value) => push_spaced(out, value)?,
            None => return Err(FillError::NoValue(at)),
        },
        _ => out.extend_from_slice(bytes)?,
    }
    Ok(())
}

/// The line with the values in the places of its parameters: `$1` is the first of them.
pub fn fill(alloc: Global, line: &[u8], values: &[Value]) -> Result<Vec<u8>, FillError>
    ensures { spec.Fills line.now values.now result }
{
    let mut made = Vec::new(alloc);
    let mut at = 0;
    while at < line.len() {
        let rest = &line[at..];
        match piece_at(rest) {
            Ok((kind, len)) => {
                push_part(&mut made, values, kind, at, &rest[..len])?;
                at += len;
            }
            Err(fault) => return Err(FillError::Refused(Refusal { fault, at })),
        }
    }
    if made.len() > LINE_LIMIT {
        return Err(FillError::TooLong);
    }
    Ok(made)
}
