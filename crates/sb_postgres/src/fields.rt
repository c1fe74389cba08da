//! Fields of messages, each from the front of the bytes that are left.
ghost use Rattle.std.specs.Prelude.{◌≡◌, ◌==◌, option_copied, position};
ghost use Rattle.std.specs.Int.{w16, w32};
ghost use Rattle.sb_postgres.specs.Reading.{Gives, number_at, target_at, text_at, value_at};

use crate::client_message::Target;
use crate::error::{Fault, ReadError};

pub(crate) const SHORT: ReadError = ReadError::Fault(Fault::Short);

/// The length of a value that isn't there.
const NO_VALUE: u32 = u32::MAX;

pub(crate) fn half_at(bytes: &[u8]) -> Result<(u16, &[u8]), ReadError>
    ensures { Gives (λ x. (x.0, x.1.now)) result (number_at w16 bytes.now) }
{
    if bytes.len() < 2 {
        return Err(SHORT);
    }
    let (front, rest) = bytes.split_at(2);
    Ok((u16::from_be_bytes([front[0], front[1]]), rest))
}

pub(crate) fn word_at(bytes: &[u8]) -> Result<(u32, &[u8]), ReadError>
    ensures { Gives (λ x. (x.0, x.1.now)) result (number_at w32 bytes.now) }
{
    if bytes.len() < 4 {
        return Err(SHORT);
    }
    let (front, rest) = bytes.split_at(4);
    let number = u32::from_be_bytes([front[0], front[1], front[2], front[3]]);
    Ok((number, rest))
}

/// The place of the first zero.
fn zero_in(bytes: &[u8]) -> Option<usize>
    ensures { result ≡ position (λ b. b == 0) bytes.now }
{
    bytes.iter().position(|byte| *byte == 0)
}

/// The bytes before the first zero.
pub(crate) fn text_at(bytes: &[u8]) -> Result<(&[u8], &[u8]), ReadError>
    ensures { Gives (λ x. (x.0.now, x.1.now)) result (text_at bytes.now) }
{
    let Some(end) = zero_in(bytes) else {
        return Err(SHORT);
    };
    let (text, behind) = bytes.split_at(end);
    let (_, rest) = behind.split_at(1);
    Ok((text, rest))
}

#[tactic(auto, unfolding(crate::specs::Reading::value_at))]
pub(crate) fn value_at(bytes: &[u8]) -> Result<(Option<&[u8]>, &[u8]), ReadError>
    ensures { Gives (λ x. (option_copied x.0, x.1.now)) result (value_at bytes.now) }
{
    let (len, rest) = word_at(bytes)?;
    if len == NO_VALUE {
        return Ok((None, rest));
    }
    let len = len as usize;
    if rest.len() < len {
        return Err(SHORT);
    }
    let (value, rest) = rest.split_at(len);
    Ok((Some(value), rest))
}

#[tactic(auto, unfolding(crate::specs::Reading::target_at))]
pub(crate) fn target_at(bytes: &[u8]) -> Result<(Target, &[u8]), ReadError>
    ensures { Gives (λ x. (x.0, x.1.now)) result (target_at bytes.now) }
{
    match bytes {
        [] => Err(SHORT),
        [b'S', rest @ ..] => Ok((Target::Statement, rest)),
        [b'P', rest @ ..] => Ok((Target::Portal, rest)),
        [_, ..] => Err(ReadError::Fault(Fault::Target)),
    }
}
