//! The parameters of a line: `$1` is the first.
ghost use Rattle.std.specs.Prelude.{◌≡◌, ◌≤◌, length};
ghost use Rattle.sb_postgres.specs.Templates as spec;

use crate::query::error::Refusal;
use crate::query::piece::{PieceKind, piece_at};
use crate::query::template::FillError;

/// A number with one more digit, if it has 16 bits.
fn with_digit(before: u16, digit: u8) -> Option<u16>
    ensures { result ≡ spec.with_digit before digit }
{
    if digit < b'0' || b'9' < digit {
        return None;
    }
    let number = u32::from(before) * 10 + u32::from(digit - b'0');
    if number < 65_536 {
        Some(number as u16)
    } else {
        None
    }
}

/// The number that these digits give.
pub(crate) fn number_in(digits: &[u8]) -> Option<u16>
    ensures { result ≡ spec.number_behind 0 digits.now }
{
    let mut before: u16 = 0;
    let mut left = digits;
    while let [digit, rest @ ..] = left {
        match with_digit(before, *digit) {
            Some(number) => before = number,
            None => return None,
        }
        left = rest;
    }
    Some(before)
}

/// The number of a parameter, and 0 for any other piece.
fn number_at(kind: PieceKind, at: usize, bytes: &[u8]) -> Result<u16, FillError>
    requires { 1 ≤ length bytes.now }
    ensures { result ≡ spec.number_at kind at bytes.now }
{
    let PieceKind::Parameter = kind else {
        return Ok(0);
    };
    match number_in(&bytes[1..]) {
        Some(number) => Ok(number),
        None => Err(FillError::NoValue(at)),
    }
}

fn higher(one: u16, other: u16) -> u16
    ensures { result ≡ spec.higher_of one other }
{
    if one < other { other } else { one }
}

/// How many values a line wants: the highest number of its parameters.
pub fn parameters_of(line: &[u8]) -> Result<u16, FillError>
    ensures { spec.Counts line.now result }
{
    let mut most = 0;
    let mut at = 0;
    while at < line.len() {
        let rest = &line[at..];
        let (kind, len) = match piece_at(rest) {
            Ok(found) => found,
            Err(fault) => return Err(FillError::Refused(Refusal { fault, at })),
        };
        match number_at(kind, at, &rest[..len]) {
            Ok(number) => most = higher(most, number),
            Err(error) => return Err(error),
        }
        at += len;
    }
    Ok(most)
}
