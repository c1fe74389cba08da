//! Bytes of a query's text.
ghost use Rattle.std.specs.Prelude.{◌≡◌};
ghost use Rattle.sb_postgres.specs.Bytes as spec;

pub(crate) fn is_blank(b: u8) -> bool
    ensures { result ≡ spec.is_blank b }
{
    b == b' ' || (9 <= b && b <= 13)
}

fn is_capital(b: u8) -> bool
    ensures { result ≡ spec.is_capital b }
{
    b'A' <= b && b <= b'Z'
}

pub(crate) fn is_small(b: u8) -> bool
    ensures { result ≡ spec.is_small b }
{
    (b'a' <= b && b <= b'z') || b == b'_'
}

pub(crate) fn is_letter(b: u8) -> bool
    ensures { result ≡ spec.is_letter b }
{
    is_small(b) || is_capital(b)
}

pub(crate) fn is_digit(b: u8) -> bool
    ensures { result ≡ spec.is_digit b }
{
    b'0' <= b && b <= b'9'
}

pub(crate) fn is_word(b: u8) -> bool
    ensures { result ≡ spec.is_word b }
{
    is_letter(b) || is_digit(b)
}

pub(crate) fn is_in_line(b: u8) -> bool
    ensures { result ≡ spec.is_in_line b }
{
    if b == b'\n' { false } else { b != b'\r' }
}

pub(crate) fn is_printable(b: u8) -> bool
    ensures { result ≡ spec.is_printable b }
{
    b' ' <= b && b <= b'~'
}

/// The byte, or the small letter of a capital.
pub(crate) fn folded(b: u8) -> u8
    ensures { result ≡ spec.folded b }
{
    if is_capital(b) { b + 32 } else { b }
}

pub(crate) fn is_quote(b: u8) -> bool
    ensures { result ≡ spec.is_quote b }
{
    b == b'\'' || b == b'"'
}
