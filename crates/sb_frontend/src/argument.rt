//! The values of a statement's parameters, in text or in binary.
ghost use Rattle.std.specs.Prelude.{◌≡◌, ◌<◌, ◌≤◌, IfOk, length, map, option_copied, slice_index, true};
ghost use Rattle.std.specs.List.{list_all};
ghost use Rattle.sb_value.specs.Literal.{literal_value};
ghost use Rattle.sb_value.specs.Printable.{is_printable};
ghost use Rattle.sb_frontend.specs.Arguments as spec;
ghost use Rattle.sb_frontend.specs.Denials.{Comes};
ghost use Rattle.sb_frontend.specs.Outcomes.{listed};

use crate::denial::Denial;
use sb_value::{LiteralError, Text, Value};
use std::alloc::Global;

/// A text has at most so many bytes.
const TEXT_LIMIT: usize = 255;

/// The type of a parameter.
#[derive(Clone, Copy)]
pub(crate) enum ParameterType {
    Int2,
    Int4,
    Int8,
    Bool,
    Text,
}

/// The type with this number.
fn type_of(id: u32) -> Option<ParameterType>
    ensures { result ≡ spec.type_of id }
{
    if id == 21 {
        Some(ParameterType::Int2)
    } else if id == 23 {
        Some(ParameterType::Int4)
    } else if id == 20 {
        Some(ParameterType::Int8)
    } else if id == 16 {
        Some(ParameterType::Bool)
    } else if id == 25 || id == 1_043 {
        Some(ParameterType::Text)
    } else {
        None
    }
}

fn integer(value: &Value) -> Result<Value, Denial>
    ensures { result ≡ spec.integer_of (Ok value.now) }
{
    match value {
        Value::Int(number) => Ok(Value::Int(*number)),
        Value::Text(_) => Err(Denial::NotOfType),
    }
}

/// An integer in decimal.
fn integer_text(alloc: Global, bytes: &[u8]) -> Result<Value, Denial>
    ensures { Comes (spec.integer_text bytes.now) result }
{
    match Value::from_literal(alloc, bytes) {
        Ok(value) => integer(&value),
        Err(LiteralError::NoMemory) => Err(Denial::Memory),
        Err(LiteralError::BadType) => Err(Denial::NotOfType),
        Err(LiteralError::TextTooLong) => Err(Denial::NotOfType),
        Err(LiteralError::Overflow) => Err(Denial::OutOfRange),
    }
}

fn truth_text(bytes: &[u8]) -> Result<Value, Denial>
    ensures { result ≡ spec.truth_text bytes.now }
{
    let [b] = bytes else {
        return Err(Denial::NotOfType);
    };
    if *b == b't' || *b == b'1' {
        Ok(Value::Int(1))
    } else if *b == b'f' || *b == b'0' {
        Ok(Value::Int(0))
    } else {
        Err(Denial::NotOfType)
    }
}

/// True if all bytes are printable ASCII.
fn are_printable(bytes: &[u8]) -> bool
    ensures { result ≡ list_all is_printable bytes.now }
{
    let mut left = bytes;
    while let [b, rest @ ..] = left {
        if *b < b' ' || b'~' < *b {
            return false;
        }
        left = rest;
    }
    true
}

/// A text of bytes that it may have.
fn text_of(alloc: Global, bytes: &[u8]) -> Result<Value, Denial>
    requires short { length bytes.now ≤ 255 }
    requires printable { list_all is_printable bytes.now ≡ true }
    ensures { Comes (Ok (Value.Text bytes.now)) result }
{
    let copy = bytes.to_vec(alloc)?;
    Ok(Value::Text(Text::new(alloc, copy)?))
}

/// A text.
fn letters(alloc: Global, bytes: &[u8]) -> Result<Value, Denial>
    ensures { Comes (spec.letters bytes.now) result }
{
    if TEXT_LIMIT < bytes.len() {
        return Err(Denial::LongText);
    }
    if !are_printable(bytes) {
        return Err(Denial::Unprintable);
    }
    text_of(alloc, bytes)
}

fn in_text(alloc: Global, of: ParameterType, bytes: &[u8]) -> Result<Value, Denial>
    ensures { Comes (spec.in_text of bytes.now) result }
{
    match of {
        ParameterType::Int2 => integer_text(alloc, bytes),
        ParameterType::Int4 => integer_text(alloc, bytes),
        ParameterType::Int8 => integer_text(alloc, bytes),
        ParameterType::Bool => truth_text(bytes),
        ParameterType::Text => letters(alloc, bytes),
    }
}

fn int2_bytes(bytes: &[u8]) -> Result<Value, Denial>
    ensures { result ≡ spec.integer_bytes ParameterType.Int2 bytes.now }
{
    let [a, b] = bytes else {
        return Err(Denial::WrongBytes);
    };
    Ok(Value::Int(i64::from(i16::from_be_bytes([*a, *b]))))
}

fn int4_bytes(bytes: &[u8]) -> Result<Value, Denial>
    ensures { result ≡ spec.integer_bytes ParameterType.Int4 bytes.now }
{
    let [a, b, c, e] = bytes else {
        return Err(Denial::WrongBytes);
    };
    Ok(Value::Int(i64::from(i32::from_be_bytes([*a, *b, *c, *e]))))
}

fn int8_bytes(bytes: &[u8]) -> Result<Value, Denial>
    ensures { result ≡ spec.integer_bytes ParameterType.Int8 bytes.now }
{
    let [a, b, c, e, f, g, h, i] = bytes else {
        return Err(Denial::WrongBytes);
    };
    Ok(Value::Int(i64::from_be_bytes([*a, *b, *c, *e, *f, *g, *h, *i])))
}

fn truth_byte(bytes: &[u8]) -> Result<Value, Denial>
    ensures { result ≡ spec.truth_byte bytes.now }
{
    let [b] = bytes else {
        return Err(Denial::WrongBytes);
    };
    if *b == 1 {
        Ok(Value::Int(1))
    } else if *b == 0 {
        Ok(Value::Int(0))
    } else {
        Err(Denial::WrongBytes)
    }
}

fn in_binary(alloc: Global, of: ParameterType, bytes: &[u8]) -> Result<Value, Denial>
    ensures { Comes (spec.in_binary of bytes.now) result }
{
    match of {
        ParameterType::Int2 => int2_bytes(bytes),
        ParameterType::Int4 => int4_bytes(bytes),
        ParameterType::Int8 => int8_bytes(bytes),
        ParameterType::Bool => truth_byte(bytes),
        ParameterType::Text => letters(alloc, bytes),
    }
}

fn in_format(alloc: Global, format: u16, of: ParameterType, bytes: &[u8]) -> Result<Value, Denial>
    ensures { Comes (spec.in_format format of bytes.now) result }
{
    if format == 0 {
        in_text(alloc, of, bytes)
    } else if format == 1 {
        in_binary(alloc, of, bytes)
    } else {
        Err(Denial::UnknownFormat)
    }
}

/// The value of a parameter.
fn argument(alloc: Global, id: u32, format: u16, sent: Option<&[u8]>) -> Result<Value, Denial>
    ensures { Comes (spec.argument (spec.type_of id) format (option_copied sent.entry)) result }
{
    let Some(of) = type_of(id) else {
        return Err(Denial::UnknownType);
    };
    match sent {
        Some(bytes) => in_format(alloc, format, of, bytes),
        None => Err(Denial::Null),
    }
}

fn id_at(types: &[u32], k: usize) -> u32
    ensures { result ≡ slice_index types.now k }
{
    if k < types.len() { types[k] } else { 0 }
}

fn format_at(formats: &[u16], k: usize) -> u16
    ensures { result ≡ spec.format_at formats.now k }
{
    if let [format] = formats {
        return *format;
    }
    if k < formats.len() { formats[k] } else { 0 }
}

/// The values of all parameters, or why the first that can't be read isn't one.
pub(crate) fn arguments(
    alloc: Global,
    types: &[u32],
    formats: &[u16],
    sent: &[Option<&[u8]>],
) -> Result<Vec<Value>, Denial>
    ensures { Comes (spec.arguments_from 0 types.now formats.now (map option_copied sent.now)) (listed result) }
{
    let mut values = Vec::new(alloc);
    let mut k: usize = 0;
    let mut left = sent;
    while let [bytes, rest @ ..] = left {
        let value = argument(alloc, id_at(types, k), format_at(formats, k), *bytes)?;
        values.push(value)?;
        k += 1;
        left = rest;
    }
    Ok(values)
}
