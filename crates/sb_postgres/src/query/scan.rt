//! How far a piece goes.
ghost use Rattle.std.specs.Prelude.{◌≡◌, ◌≤◌, length, IfSome};
ghost use Rattle.std.specs.List.{prefix_len};
ghost use Rattle.sb_postgres.specs.Bytes as bytes;
ghost use Rattle.sb_postgres.specs.Pieces as pieces;
ghost use Rattle.sb_postgres.specs.Scan as spec;

use crate::query::bytes::{is_digit, is_in_line, is_word};

/// How many bytes of a word the text begins with.
pub(crate) fn word_len(text: &[u8]) -> usize
    ensures value { result ≡ prefix_len bytes.is_word text.now }
    ensures within { result ≤ length text.now }
{
    let mut rest = text;
    let mut n = 0;
    while let [b, more @ ..] = rest {
        if !is_word(*b) {
            break;
        }
        n += 1;
        rest = more;
    }
    n
}

/// How many digits the text begins with.
pub(crate) fn digits_len(text: &[u8]) -> usize
    ensures value { result ≡ prefix_len bytes.is_digit text.now }
    ensures within { result ≤ length text.now }
{
    let mut rest = text;
    let mut n = 0;
    while let [b, more @ ..] = rest {
        if !is_digit(*b) {
            break;
        }
        n += 1;
        rest = more;
    }
    n
}

/// How many bytes are before the end of the first line.
pub(crate) fn line_len(text: &[u8]) -> usize
    ensures value { result ≡ prefix_len bytes.is_in_line text.now }
    ensures within { result ≤ length text.now }
{
    let mut rest = text;
    let mut n = 0;
    while let [b, more @ ..] = rest {
        if !is_in_line(*b) {
            break;
        }
        n += 1;
        rest = more;
    }
    n
}

/// Behind the opening quote: how many bytes are up to the closing one, with it.
pub(crate) fn closing(quote: u8, text: &[u8]) -> Option<usize>
    ensures value { result ≡ spec.closing quote 0 text.now }
    ensures within { IfSome result (λ n. (1 ≤ n) × (n ≤ length text.now)) }
{
    let mut rest = text;
    let mut n = 0;
    while let [b, more @ ..] = rest {
        if *b == quote {
            let [c, after @ ..] = more else {
                return Some(n + 1);
            };
            if *c != quote {
                return Some(n + 1);
            }
            n += 2;
            rest = after;
        } else {
            n += 1;
            rest = more;
        }
    }
    None
}

fn opens_comment(text: &[u8]) -> bool
    ensures { result ≡ pieces.opens_comment text.now }
{
    match text {
        [] => false,
        [_] => false,
        [b, c, ..] => *b == b'/' && *c == b'*',
    }
}

fn closes_comment(text: &[u8]) -> bool
    ensures { result ≡ pieces.closes_comment text.now }
{
    match text {
        [] => false,
        [_] => false,
        [b, c, ..] => *b == b'*' && *c == b'/',
    }
}

/// Behind the two bytes that open a comment: how many bytes are up to its end, with it.
pub(crate) fn comment_end(text: &[u8]) -> Option<usize>
    ensures value { result ≡ spec.comment_end 0 0 text.now }
    ensures within { IfSome result (λ n. (1 ≤ n) × (n ≤ length text.now)) }
{
    let mut rest = text;
    let mut n = 0;
    let mut depth = 0usize;
    while rest.len() >= 2 {
        if closes_comment(rest) {
            if depth == 0 {
                return Some(n + 2);
            }
            depth -= 1;
            n += 2;
            rest = &rest[2..];
        } else if opens_comment(rest) {
            depth += 1;
            n += 2;
            rest = &rest[2..];
        } else {
            n += 1;
            rest = &rest[1..];
        }
    }
    None
}
