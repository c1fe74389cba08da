//! The numbers before a command.
ghost use Rattle.std.specs.Prelude.{◌≡◌, ◌≤◌, Some, IfSome, option_map, length, if◌then◌else◌};
ghost use Rattle.std.specs.List.{list_all};
ghost use Rattle.std.specs.Char.{is_ascii_digit};
ghost use Rattle.std.specs.Str.Parse.{digits_value};
ghost use Rattle.memchr.specs.Find.{IsFirstByte, is_byte};
ghost use Rattle.sb_wire.specs.Lines.{addressed_of, number_before, number_of, space, split_space};

/// The most digits of a number.
const DIGITS: usize = 9;

/// A command for a session of a tenant.
#[derive(Clone, Copy)]
pub struct Addressed<'a> {
    pub tenant: u32,
    pub session: u32,
    pub command: &'a [u8],
}

impl<'a> Addressed<'a> {
    ghost use Rattle.sb_wire.specs.Seen.{addressed_seen};

    /// The numbers and the command of a line, if it has both numbers.
    pub fn split(line: &'a [u8]) -> Option<Addressed<'a>>
        ensures { option_map addressed_seen result ≡ addressed_of line.now }
    {
        let (tenant, rest) = number_before_space(line)?;
        let (session, command) = number_before_space(rest)?;
        Some(Addressed {
            tenant,
            session,
            command,
        })
    }
}

/// The number in front of the first space, and what stands behind that.
pub fn number_before_space(bytes: &[u8]) -> Option<(u32, &[u8])>
    ensures { option_map (λ p. (p.0, p.1.now)) result ≡ number_before bytes.now }
{
    match digit_before_space(bytes) {
        Some(found) => Some(found),
        None => {
            let (digits, rest) = at_space(bytes)?;
            Some((number(digits)?, rest))
        }
    }
}

/// Reads a number of one digit and the space behind it, which is the common case.
fn digit_before_space(bytes: &[u8]) -> Option<(u32, &[u8])>
    ensures { IfSome result (λ p. number_before bytes.now ≡ Some (p.0, p.1.now)) }
{
    match bytes {
        [digit, b' ', rest @ ..] if digit.is_ascii_digit() => {
            Some((u32::from(*digit - b'0'), rest))
        }
        _ => None,
    }
}

/// What stands before the first space, and what stands behind it.
fn at_space(bytes: &[u8]) -> Option<(&[u8], &[u8])>
    ensures { option_map (λ p. (p.0.now, p.1.now)) result ≡ split_space bytes.now }
{
    let place = first_space(bytes)?;
    Some((&bytes[..place], &bytes[place + 1..]))
}

/// The place of the first space. Numbers are short, so it is near.
fn first_space(bytes: &[u8]) -> Option<usize>
    ensures { IsFirstByte (is_byte space) bytes.now result }
{
    for place in 0..bytes.len() {
        if bytes[place] == b' ' {
            return Some(place);
        }
    }
    None
}

/// The number that these bytes are.
pub fn number(digits: &[u8]) -> Option<u32>
    ensures { result ≡ number_of digits.now }
{
    match digits {
        [] => None,
        [b'0', _, ..] => None,
        _ if digits.len() > DIGITS => None,
        _ => value(digits),
    }
}

/// The number that so few bytes spell, if all are digits.
fn value(digits: &[u8]) -> Option<u32>
    requires { length digits.now ≤ 9 }
    ensures { result ≡
        (if list_all is_ascii_digit digits.now then Some (digits_value 10 digits.now) else None) }
{
    let mut number: u32 = 0;
    for digit in digits {
        if !digit.is_ascii_digit() {
            return None;
        }
        number = number * 10 + u32::from(*digit - b'0');
    }
    Some(number)
}
