//! Names and literals.

ghost use Rattle.std.specs.Prelude.{min, take, drop, ◌+◌, ◌-◌, ◌≡◌, ◌<◌, ◌≤◌, ◌^◌, pos, length, IfOk, IfSome, IsTrue, true, ◌↔◌, option_map};
ghost use Rattle.std.specs.List.{list_all};
ghost use Rattle.sb_value.specs.Printable.{is_printable};
ghost use Rattle.sb_syntax.specs.Literal as lit;
ghost use Rattle.sb_syntax.specs.Plain.{is_bare};
ghost use Rattle.sb_syntax.specs.Reading as spec;
ghost use Rattle.sb_syntax.specs.Reading.{Gives};

use crate::cursor::Cursor;
use crate::error::Fault;
use crate::kind::TokenKind;
use crate::list::{Item, list};
use sb_value::{NAME_LIMIT, Name, TEXT_LIMIT, Text, Value};
use std::alloc::{AllocError, Global};

/// A name. Error: the tokens aren't that (Refused), or out of memory.
#[tactic(auto, unfolding(crate::specs::Reading::name))]
pub fn name(tokens: &mut Cursor<'_>) -> Result<Name, Fault>
    ensures { Gives (λ n. n) (spec.name tokens.old) result tokens.old tokens.new }
{
    let Some(bytes) = tokens.bytes_of(TokenKind::Name) else {
        return Err(Fault::Refused);
    };
    if bytes.is_empty() || bytes.len() > NAME_LIMIT {
        return Err(Fault::Refused);
    }
    tokens.skip();
    Ok(Name::new(bytes))
}

/// A name behind this word. Error: the tokens aren't that (Refused), or out of memory.
#[tactic(auto, unfolding(crate::specs::Reading::name_after))]
pub fn name_after(tokens: &mut Cursor<'_>, kind: TokenKind) -> Result<Name, Fault>
    ensures { Gives (λ n. n) (spec.name_after kind tokens.old) result tokens.old tokens.new }
{
    tokens.expect(kind)?;
    name(tokens)
}

impl Item for Name {
    ghost gives = { λ old r new. Gives (λ n. n) (spec.name old) r old new };

    fn read(_: Global, tokens: &mut Cursor<'_>) -> Result<Name, Fault> {
        name(tokens)
    }
}

/// Names with commas between them. Error: the tokens aren't that (Refused), or out of memory.
pub fn names(alloc: Global, tokens: &mut Cursor<'_>) -> Result<Vec<Name>, Fault>
    ensures { Gives (λ v. v.items) (spec.names tokens.old) result tokens.old tokens.new }
{
    list(alloc, tokens, TokenKind::Comma, None)
}

const LIMIT: u64 = 0x8000_0000_0000_0000;

/// The value of the digits, or 2^63 + 1 where it is larger.
#[inline(always)]
fn decimal(digits: &[u8]) -> u64
    ensures { result ≡ min (lit.decimal digits.now) (2 ^ 63 + 1) }
{
    let mut n: u64 = 0;
    for b in digits {
        let digit = u64::from(b.saturating_sub(b'0'));
        n = if n < LIMIT / 10 - 20 {
            10 * n + digit
        } else if n > LIMIT / 10 {
            LIMIT + 1
        } else {
            (10 * n + digit).min(LIMIT + 1)
        };
    }
    n
}

#[inline(always)]
#[tactic(auto, unfolding(crate::specs::Reading::integer))]
fn integer(tokens: &mut Cursor<'_>) -> Result<Value, Fault>
    ensures { Gives (λ v. v) (spec.integer tokens.old) result tokens.old tokens.new }
{
    let Some(digits) = tokens.bytes_of(TokenKind::Integer) else {
        return Err(Fault::Refused);
    };
    let n = decimal(digits);
    if n >= LIMIT {
        return Err(Fault::Refused);
    }
    tokens.skip();
    Ok(Value::Int(n as i64))
}

#[inline(always)]
#[tactic(auto, unfolding(crate::specs::Reading::minus))]
fn minus(tokens: &mut Cursor<'_>) -> Result<Value, Fault>
    ensures { Gives (λ v. v) (spec.minus tokens.old) result tokens.old tokens.new }
{
    tokens.expect(TokenKind::Minus)?;
    let Some(digits) = tokens.bytes_of(TokenKind::Integer) else {
        return Err(Fault::Refused);
    };
    let n = decimal(digits);
    if n > LIMIT {
        return Err(Fault::Refused);
    }
    tokens.skip();
    if n == 0 {
        return Ok(Value::Int(0));
    }
    Ok(Value::Int(-1 - (n - 1) as i64))
}

/// True if the byte stands for itself in a text.
fn is_bare(b: u8) -> bool
    ensures { result ≡ is_bare b }
{
    b' ' <= b && b <= b'~' && b != b'\''
}

fn all_bare(bytes: &[u8]) -> bool
    ensures { result ≡ list_all is_bare bytes.now }
{
    bytes.iter().all(|b| is_bare(*b))
}

/// The bytes between the first and the last.
fn inside(quoted: &[u8]) -> &[u8]
    ensures { result.now ≡ take (length quoted.now - 2) (drop 1 quoted.now) }
{
    if quoted.len() < 2 {
        return &[];
    }
    &quoted[1..quoted.len() - 1]
}

fn copied(alloc: Global, bytes: &[u8]) -> Result<Vec<u8>, AllocError>
    ensures { IfOk result (λ v. v.items ≡ bytes.now) }
{
    let mut value = Vec::with_capacity(alloc, bytes.len())?;
    value.extend_from_slice(bytes)?;
    Ok(value)
}

/// The text between the quotes, where each of its bytes stands for itself.
#[inline(never)]
fn bare(alloc: Global, quoted: &[u8]) -> Result<Option<Vec<u8>>, AllocError>
    ensures { IfOk result (λ o. IfSome o (λ v. (v.items ≡ lit.unquoted quoted.now)
        × (length v.items ≤ 255) × (list_all is_printable v.items ≡ true))) }
{
    let plain = inside(quoted);
    if plain.len() > TEXT_LIMIT || !all_bare(plain) {
        return Ok(None);
    }
    Ok(Some(copied(alloc, plain)?))
}

/// The text between the quotes, of which each pair is one.
#[inline(never)]
fn halved(alloc: Global, quoted: &[u8]) -> Result<Vec<u8>, AllocError>
    ensures { IfOk result (λ v. v.items ≡ lit.unquoted quoted.now) }
{
    let mut value = Vec::with_capacity(alloc, quoted.len())?;
    let mut rest = if let [_, rest @ ..] = quoted {
        rest
    } else {
        &[]
    };
    while let [b, after @ ..] = rest {
        if after.is_empty() {
            break;
        }
        value.push_reserved(*b);
        rest = if *b == b'\'' { &after[1..] } else { after };
    }
    Ok(value)
}

fn is_printable(b: u8) -> bool
    ensures { result ≡ is_printable b }
{
    b' ' <= b && b <= b'~'
}

#[inline(never)]
fn all_printable(bytes: &[u8]) -> bool
    ensures { result ≡ list_all is_printable bytes.now }
{
    bytes.iter().all(|b| is_printable(*b))
}

#[inline(always)]
#[tactic(auto, using(crate::proofs::Printable::printable), unfolding(crate::specs::Reading::text))]
fn text(alloc: Global, tokens: &mut Cursor<'_>) -> Result<Value, Fault>
    ensures { Gives (λ v. v) (spec.text tokens.old) result tokens.old tokens.new }
{
    let Some(quoted) = tokens.bytes_of(TokenKind::Text) else {
        return Err(Fault::Refused);
    };
    if let Some(bytes) = bare(alloc, quoted)? {
        let text = Text::new(alloc, bytes)?;
        tokens.skip();
        return Ok(Value::Text(text));
    }
    let bytes = halved(alloc, quoted)?;
    if bytes.len() > TEXT_LIMIT || !all_printable(bytes.as_slice()) {
        return Err(Fault::Refused);
    }
    let text = Text::new(alloc, bytes)?;
    tokens.skip();
    Ok(Value::Text(text))
}

/// An integer, with or without a sign, or a text in quotes. Error: the tokens aren't that (Refused), or out of memory.
#[inline(always)]
#[tactic(auto, unfolding(crate::specs::Reading::literal_value))]
pub fn literal_value(alloc: Global, tokens: &mut Cursor<'_>) -> Result<Value, Fault>
    ensures { Gives (λ v. v) (spec.literal_value tokens.old) result tokens.old tokens.new }
{
    if tokens.sees(TokenKind::Integer) {
        integer(tokens)
    } else if tokens.sees(TokenKind::Minus) {
        minus(tokens)
    } else {
        text(alloc, tokens)
    }
}
