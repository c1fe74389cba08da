//! The numbers of options.
ghost use Rattle.std.specs.Prelude.{◌≡◌, ◌≤◌, MatchOption};
ghost use Rattle.sb_words.specs.Asking.{IsNumber, value_of};

use crate::argument::NumberRange;

/// Reads a number of a range.
pub(crate) fn number(text: &str, range: NumberRange) -> Option<u32>
    ensures { MatchOption result (IsNumber range text.now → ⊥) (λ n. IsNumber range text.now × (n ≡ value_of text.now)) }
{
    match text.parse::<u32>() {
        Ok(n) if n >= range.least && n <= range.most => Some(n),
        _ => None,
    }
}
