//! Values as text: what a literal says, and how a value is printed.
ghost use Rattle.std.specs.Prelude.{◌≡◌, ◌+◌, ◌-◌, ◌*◌, ◌^◌, ◌≤◌, ◌++◌, length, take, min, pos, neg_ℤ, option_map, IfOk, IfSome, MatchOption, OnOk, OnErr};
ghost use Rattle.std.specs.List.{AllPass};
ghost use Rattle.std.specs.Fmt.{signed_decimal};
ghost use Rattle.sb_value.specs.Printable.{is_printable};
ghost use Rattle.sb_value.specs.declared.value.Value.TheVariants.{Int as ItsInt, Text as ItsText};
ghost use Rattle.sb_value.specs.Literal.{text_of, unsigned_of, limited, literal_value, value_text, quoted_text, IsReading, end_of, IsPart};

use crate::value::{TEXT_LIMIT, Text, Value};
use itoa::Buffer;
use std::alloc::{AllocError, AllocFailed, Global};

/// Why bytes give no value.
#[derive(Clone, Copy, Debug, PartialEq, Eq)]
pub enum LiteralError {
    BadType,
    TextTooLong,
    Overflow,
    NoMemory,
}

impl From<AllocError> for LiteralError {
    ghost use Rattle.std.specs.Prelude.{◌≡◌};
    ghost use Rattle.sb_value.specs.declared.literal.LiteralError.TheVariants.{NoMemory};

    ghost from_gives = { λ _ e. e ≡ NoMemory };

    fn from(_: AllocError) -> LiteralError {
        LiteralError::NoMemory
    }
}

const QUOTE: u8 = b'\'';

/// One past the largest size of an integer, that of the least one.
const SIZE_CAP: u64 = 0x8000_0000_0000_0001;

impl Value {
    /// The value of a literal, which has no space outside its quotes. `BadType` says that the bytes are no literal, its
    /// limits left aside; the next two that they are one past its limit. Error: BadType, TextTooLong, Overflow or
    /// NoMemory.
    pub fn from_literal(alloc: Global, bytes: &[u8]) -> Result<Value, LiteralError>
        ensures { IsReading (literal_value bytes.now) result }
    {
        match bytes {
            [b'\'', quoted @ ..] => text(alloc, quoted),
            [b'-', digits @ ..] => negative(digits),
            digits => positive(digits),
        }
    }
}

/// The value of a text, whose first quote was left out.
fn text(alloc: Global, quoted: &[u8]) -> Result<Value, LiteralError>
    ensures { IsReading (limited (option_map ItsText (text_of quoted.now))) result }
{
    match unquoted(alloc, quoted)? {
        None => Err(LiteralError::BadType),
        Some(bytes) if bytes.len() > TEXT_LIMIT => Err(LiteralError::TextTooLong),
        Some(bytes) => Ok(Value::Text(Text::new(alloc, bytes)?)),
    }
}

/// The text between quotes, each quote in it doubled. The first quote was left out.
fn unquoted(alloc: Global, quoted: &[u8]) -> Result<Option<Vec<u8>>, AllocError>
    ensures value { IfOk result (λ t. option_map (λ v. v.items) t ≡ text_of quoted.now) }
    ensures printable { IfOk result (λ t. IfSome t (λ v. AllPass is_printable v.items)) }
{
    let mut text = Vec::new(alloc);
    let mut rest = quoted;
    'parts: while let Some((byte, tail)) = next_part(rest) {
        text.push(byte)?;
        rest = tail;
    }
    match rest {
        [b'\''] => Ok(Some(text)),
        _ => Ok(None),
    }
}

/// The first byte of the text and what stands behind it, where that isn't its end.
fn next_part(quoted: &[u8]) -> Option<(u8, &[u8])>
    ensures { MatchOption result (text_of quoted.now ≡ end_of quoted.now) (λ p. IsPart quoted.now p.0 p.1.now) }
{
    match quoted {
        [b'\'', b'\'', tail @ ..] => Some((QUOTE, tail)),
        [b'\'', ..] => None,
        [byte, _, ..] if *byte >= b' ' && *byte <= b'~' => Some((*byte, &quoted[1..])),
        _ => None,
    }
}

/// The value of an integer whose sign was left out.
fn negative(digits: &[u8]) -> Result<Value, LiteralError>
    ensures { result ≡ limited (option_map (λ n. ItsInt (neg_ℤ (pos n))) (unsigned_of digits.now)) }
{
    match size(digits) {
        None => Err(LiteralError::BadType),
        Some(SIZE_CAP) => Err(LiteralError::Overflow),
        Some(size) if size == SIZE_CAP - 1 => Ok(Value::Int(i64::MIN)),
        Some(size) => Ok(Value::Int(-(size as i64))),
    }
}

/// The value of an integer without a sign.
fn positive(digits: &[u8]) -> Result<Value, LiteralError>
    ensures { result ≡ limited (option_map (λ n. ItsInt (pos n)) (unsigned_of digits.now)) }
{
    match size(digits) {
        None => Err(LiteralError::BadType),
        Some(size) if size >= SIZE_CAP - 1 => Err(LiteralError::Overflow),
        Some(size) => Ok(Value::Int(size as i64)),
    }
}

/// The number that digits spell, or the cap where it is larger.
fn size(digits: &[u8]) -> Option<u64>
    ensures { result ≡ option_map (λ n. min n (2 ^ 63 + 1)) (unsigned_of digits.now) }
{
    if digits.is_empty() {
        return None;
    }
    let mut size: u64 = 0;
    for digit in digits {
        if *digit < b'0' || *digit > b'9' {
            return None;
        }
        size = next_size(size, *digit);
    }
    Some(size)
}

/// The number with one more digit, or the cap where it is larger.
fn next_size(size: u64, digit: u8) -> u64
    requires is_digit { (48 ≤ digit) × (digit ≤ 57) }
    requires capped { size ≤ 2 ^ 63 + 1 }
    ensures { result ≡ min (size * 10 + (digit - 48)) (2 ^ 63 + 1) }
{
    let next = u128::from(size) * 10 + u128::from(digit - b'0');
    next.min(u128::from(SIZE_CAP)) as u64
}

/// Appends the value's text: an integer in decimal, a text in quotes with each quote in it doubled. On an error the
/// buffer is as it was.
pub fn print_value(value: &Value, out: &mut Vec<u8>) -> Result<(), AllocError>
    ensures ok { OnOk result (out.new.items ≡ out.old.items ++ value_text value.now) }
    ensures err { OnErr result (out.new.items ≡ out.old.items) }
{
    match value {
        Value::Int(number) => print_integer(*number, out),
        Value::Text(text) => {
            let before = out.len();
            let printed = print_text(text.as_slice(), out);
            if printed.is_err() {
                out.truncate(before);
            }
            printed
        }
    }
}

fn print_integer(number: i64, out: &mut Vec<u8>) -> Result<(), AllocError>
    ensures ok { OnOk result (out.new.items ≡ out.old.items ++ signed_decimal number) }
    ensures err { OnErr result (out.new.items ≡ out.old.items) }
{
    let mut buffer = Buffer::new();
    out.extend_from_slice(buffer.format(number).as_bytes())
}

fn print_text(text: &[u8], out: &mut Vec<u8>) -> Result<(), AllocError>
    ensures ok { OnOk result (out.new.items ≡ out.old.items ++ quoted_text text.now) }
    ensures err { OnErr result (take (length out.old.items) out.new.items ≡ out.old.items) }
{
    out.push(QUOTE)?;
    for byte in text {
        if *byte == QUOTE {
            out.push(QUOTE)?;
        }
        out.push(*byte)?;
    }
    out.push(QUOTE)?;
    Ok(())
}
