//! The values of a reply's rows, read from their text.
ghost use Rattle.std.specs.Prelude.{◌≡◌, ◌≤◌, List, ℕ, IfOk, length, map, option_map};
ghost use Rattle.sb_value.specs.declared.value.Value.{Value};
ghost use Rattle.sb_frontend.specs.Rows.{AreInRange, wire_text};
ghost use Rattle.sb_frontend.specs.Cells as spec;

use std::alloc::{AllocError, Global};

/// How many bytes a number has, up to the next comma or newline.
fn number_len(text: &[u8]) -> usize
    ensures value { result ≡ spec.number_len text.now }
    ensures within { result ≤ length text.now }
{
    let mut rest = text;
    let mut n = 0;
    while let [b, more @ ..] = rest {
        if *b == b',' || *b == b'\n' {
            break;
        }
        n += 1;
        rest = more;
    }
    n
}

/// Behind the opening quote: the text with each doubled quote once, and what stands behind the closing one.
fn unquoted(alloc: Global, text: &[u8]) -> Result<(Vec<u8>, &[u8]), AllocError>
    ensures value { IfOk result (λ p. (p.0.items ≡ (spec.unquoted text.now).0) × (p.1.now ≡ (spec.unquoted text.now).1)) }
    ensures shorter { IfOk result (λ p. length p.1.now ≤ length text.now) }
{
    let mut bytes = Vec::new(alloc);
    let mut rest = text;
    while let [b, more @ ..] = rest {
        if *b == b'\'' {
            let [c, after @ ..] = more else {
                return Ok((bytes, more));
            };
            if *c != b'\'' {
                return Ok((bytes, more));
            }
            bytes.push(b'\'')?;
            rest = after;
        } else {
            bytes.push(*b)?;
            rest = more;
        }
    }
    Ok((bytes, rest))
}

/// The text of the first value, and what stands behind it.
fn read_cell(alloc: Global, text: &[u8]) -> Result<(Vec<u8>, &[u8]), AllocError>
    ensures value { IfOk result (λ p. (p.0.items ≡ (spec.cell text.now).0) × (p.1.now ≡ (spec.cell text.now).1)) }
    ensures shorter { IfOk result (λ p. length p.1.now ≤ length text.now) }
{
    match text {
        [b'\'', quoted @ ..] => unquoted(alloc, quoted),
        _ => {
            let (number, rest) = text.split_at(number_len(text));
            Ok((number.to_vec(alloc)?, rest))
        }
    }
}

/// True if a comma follows, with all that stands behind it or behind the byte in its place.
fn separated(text: &[u8]) -> Option<(bool, &[u8])>
    ensures { option_map (λ p. (p.0, p.1.now)) result ≡ spec.separated text.now }
{
    match text {
        [] => None,
        [b, rest @ ..] => Some((*b == b',', rest)),
    }
}

fn begins_line(text: &[u8]) -> bool
    ensures { result ≡ spec.begins_line text.now }
{
    match text {
        [] => false,
        [b, ..] => *b == b'\n',
    }
}

/// The texts of the values of the first row, and what stands behind the row.
pub(crate) fn read_row(alloc: Global, text: &[u8]) -> Result<(Vec<Vec<u8>>, &[u8]), AllocError>
    ensures { IfOk result (λ p. (row : List Value) (rest : List ℕ) → AreInRange row → spec.BeginsWithRow text.now row rest → (map (λ c. c.items) p.0.items ≡ map wire_text row) × (p.1.now ≡ rest)) }
{
    let mut cells = Vec::new(alloc);
    if begins_line(text) {
        return Ok((cells, &text[1..]));
    }
    let mut left = text;
    'cells: while !left.is_empty() {
        let (cell, behind) = read_cell(alloc, left)?;
        cells.push(cell)?;
        match separated(behind) {
            Some((true, more)) => left = more,
            Some((false, more)) => return Ok((cells, more)),
            None => return Ok((cells, behind)),
        }
    }
    Ok((cells, left))
}
