//! The numbers of segments, as the names of their files have them.
ghost use Rattle.std.specs.Prelude.{IfErr, OnOk};
ghost use Rattle.sb_durable.specs.Folders.{FollowOn, IsGap};

/// The name of a segment's file begins with this.
pub(crate) const PREFIX: &str = "journal.";

/// The number has six digits at least.
const DIGITS: usize = 6;

/// The number in the name of a segment's file. None if it has fewer than six digits, or more than it needs.
pub(crate) fn number_in(name: &str) -> Option<u64> {
    let digits = name.strip_prefix(PREFIX)?;
    if digits.len() < DIGITS || (digits.len() > DIGITS && digits.starts_with('0')) {
        return None;
    }
    if !digits.bytes().all(|byte| byte.is_ascii_digit()) {
        return None;
    }
    digits.parse().ok()
}

/// Compares numbers in rising order: each is to follow the one before it. Error: two that don't follow one another.
pub(crate) fn check_row(numbers: &[u64]) -> Result<(), (u64, u64)>
    ensures ok { OnOk result (FollowOn numbers.now) }
    ensures gap { IfErr result (λ gap. IsGap numbers.now gap.0 gap.1) }
{
    for i in 1..numbers.len() {
        let (before, number) = (numbers[i - 1], numbers[i]);
        if number == 0 || before != number - 1 {
            return Err((before, number));
        }
    }
    Ok(())
}
