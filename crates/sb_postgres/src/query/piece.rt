//! The first piece of a text.
ghost use Rattle.std.specs.Prelude.{◌≡◌, ◌<◌, ◌≤◌, ◌+◌, ◌^◌, ◌==◌, length, IfOk, true};
ghost use Rattle.std.specs.Option.{ForSome};
ghost use Rattle.sb_postgres.specs.Bytes as bytes;
ghost use Rattle.sb_postgres.specs.Drafting.{IsFound};
ghost use Rattle.sb_postgres.specs.Pieces as spec;
ghost use Rattle.sb_postgres.specs.Scan as scan;

use crate::query::bytes::{folded, is_blank, is_digit, is_letter, is_quote, is_word};
use crate::query::error::{Fault, QueryError, Refusal};
use crate::query::scan::{closing, comment_end, digits_len, line_len, word_len};

/// What a piece of a text is.
#[derive(Clone, Copy, Debug, PartialEq, Eq)]
pub enum PieceKind {
    /// A blank or a comment.
    Blank,
    /// `;`
    Semicolon,
    /// `'..'`
    Constant,
    /// `".."`
    QuotedName,
    /// `$1`
    Parameter,
    /// A letter or `_`, and letters, digits and `_` behind it.
    Word,
    /// Any other byte.
    Byte,
}

fn begins_with(text: &[u8], byte: u8) -> bool
    ensures { result ≡ bytes.begins (λ b. b == byte) text.now }
{
    match text {
        [] => false,
        [b, ..] => *b == byte,
    }
}

fn begins_with_letter(text: &[u8]) -> bool
    ensures { result ≡ bytes.begins bytes.is_letter text.now }
{
    match text {
        [] => false,
        [b, ..] => is_letter(*b),
    }
}

pub(crate) fn begins_with_word(text: &[u8]) -> bool
    ensures { result ≡ bytes.begins bytes.is_word text.now }
{
    match text {
        [] => false,
        [b, ..] => is_word(*b),
    }
}

fn begins_with_digit(text: &[u8]) -> bool
    ensures { result ≡ bytes.begins bytes.is_digit text.now }
{
    match text {
        [] => false,
        [b, ..] => is_digit(*b),
    }
}

fn begins_with_mark(text: &[u8]) -> bool
    ensures { result ≡ bytes.begins_two (λ b. b == 38) bytes.is_quote text.now }
{
    match text {
        [] => false,
        [_] => false,
        [b, c, ..] => *b == b'&' && is_quote(*c),
    }
}

fn marks_constant(word: &[u8]) -> bool
    ensures { result ≡ spec.marks_constant word.now }
{
    let [b] = word else {
        return false;
    };
    let small = folded(*b);
    small == b'e' || (small == b'b' || (small == b'n' || small == b'x'))
}

fn is_u(word: &[u8]) -> bool
    ensures { result ≡ spec.is_u word.now }
{
    let [b] = word else {
        return false;
    };
    folded(*b) == b'u'
}

/// True if a word is another form of constant or name with what stands behind it.
fn is_marked(word: &[u8], rest: &[u8]) -> bool
    ensures { result ≡ spec.is_marked word.now rest.now }
{
    begins_with(rest, b'$')
        || (begins_with(rest, b'\'') && marks_constant(word))
        || (begins_with_mark(rest) && is_u(word))
}

#[tactic(auto, unfolding(crate::specs::Scan::word_at))]
fn word_at(text: &[u8]) -> Result<(PieceKind, usize), Fault>
    requires { bytes.begins bytes.is_letter text.now ≡ true }
    ensures value { result ≡ scan.word_at text.now }
    ensures within { IfOk result (λ p. (1 ≤ p.1) × (p.1 ≤ length text.now)) }
{
    let (word, rest) = text.split_at(word_len(text));
    if is_marked(word, rest) {
        Err(Fault::Unsupported)
    } else {
        Ok((PieceKind::Word, word.len()))
    }
}

/// Behind `$`.
#[tactic(auto, unfolding(crate::specs::Scan::dollar_at))]
fn dollar_at(text: &[u8]) -> Result<(PieceKind, usize), Fault>
    ensures value { result ≡ scan.dollar_at text.now }
    ensures within { IfOk result (λ p. (1 ≤ p.1) × (p.1 ≤ length text.now + 1)) }
{
    if begins_with_digit(text) {
        let n = digits_len(text);
        if begins_with_letter(&text[n..]) {
            Err(Fault::Unsupported)
        } else {
            Ok((PieceKind::Parameter, n + 1))
        }
    } else if begins_with(&text[word_len(text)..], b'$') {
        Err(Fault::Unsupported)
    } else {
        Ok((PieceKind::Byte, 1))
    }
}

/// A piece of this kind, which opens with so many bytes and is closed after so many more.
fn up_to(
    kind: PieceKind,
    opening: usize,
    closing: Option<usize>,
) -> Result<(PieceKind, usize), Fault>
    requires { ForSome closing (λ n. opening + n < 2 ^ 64) }
    ensures { result ≡ scan.up_to kind opening closing }
{
    match closing {
        None => Err(Fault::Unclosed),
        Some(n) => Ok((kind, opening + n)),
    }
}

/// The first piece of a text: its kind, and its number of bytes.
#[tactic(auto, unfolding(crate::specs::Scan::piece_at))]
pub(crate) fn piece_at(text: &[u8]) -> Result<(PieceKind, usize), Fault>
    requires { 0 < length text.now }
    ensures value { result ≡ scan.piece_at text.now }
    ensures within { IfOk result (λ p. (1 ≤ p.1) × (p.1 ≤ length text.now)) }
{
    let [b, behind @ ..] = text else {
        return Ok((PieceKind::Byte, 0));
    };
    if is_blank(*b) {
        Ok((PieceKind::Blank, 1))
    } else if is_letter(*b) {
        word_at(text)
    } else {
        match *b {
            b'\'' => up_to(PieceKind::Constant, 1, closing(b'\'', behind)),
            b'"' => up_to(PieceKind::QuotedName, 1, closing(b'"', behind)),
            b';' => Ok((PieceKind::Semicolon, 1)),
            b'$' => dollar_at(behind),
            b'-' if begins_with(behind, b'-') => Ok((PieceKind::Blank, line_len(text))),
            b'/' if begins_with(behind, b'*') => {
                up_to(PieceKind::Blank, 2, comment_end(&behind[1..]))
            }
            _ => Ok((PieceKind::Byte, 1)),
        }
    }
}

/// The first piece of a text that begins at a place.
pub(crate) fn first_piece(text: &[u8], at: usize) -> Result<(PieceKind, usize), QueryError>
    requires { 0 < length text.now }
    ensures value { IsFound (scan.piece_at text.now) at result }
    ensures within { IfOk result (λ p. (1 ≤ p.1) × (p.1 ≤ length text.now)) }
{
    match piece_at(text) {
        Ok(found) => Ok(found),
        Err(fault) => Err(QueryError::Refused(Refusal { fault, at })),
    }
}
