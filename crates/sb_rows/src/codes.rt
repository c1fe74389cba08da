//! Codes of texts: numbers in the order of the texts.
ghost use Rattle.std.specs.Prelude.{◌≡◌, ◌<ℤ◌, ◌^◌, count_by, map, pos, IfSome};
ghost use Rattle.std.specs.List.{Contains};
ghost use Rattle.std.specs.List.Sorted.{IsPermutation};
ghost use Rattle.sb_rows.specs.Codes.{code_of, key_of, reaches};

use std::marker::Model;

/// The texts of the columns that are compared with each other, in order. A text's code is how many of them come before
/// it, so equal texts have one code.
pub struct Codes<'r> {
    texts: Vec<&'r [u8]>,
}

impl<'r> Drop for Codes<'r> {
    fn drop(self) {
        let Self { texts: _ } = self;
    }
}

impl<'r> Model for Codes<'r> {
    ghost use Rattle.std.specs.Prelude.{List, ℕ, map};
    ghost use Rattle.sb_rows.specs.Codes.{InOrder};

    ghost Value = { List (List ℕ) };

    ghost view = { λ c. map (λ text. text.now) c.texts.items };

    ghost invariant = { λ c. InOrder c.texts.items };
}

impl<'r> Codes<'r> {
    /// The codes of these texts.
    pub fn of(mut texts: Vec<&'r [u8]>) -> Codes<'r>
        ensures { IsPermutation (map (λ text. text.now) texts.entry.items) result }
    {
        texts.sort_unstable_by(|one, two| one.cmp(two));
        Codes { texts }
    }

    /// The code of a text.
    pub fn code(&self, text: &[u8]) -> i64
        ensures count { result ≡ pos (code_of self.now text.now) }
        ensures few { result <ℤ pos (2 ^ 60) }
    {
        self.texts
            .partition_point(|other| (*other).cmp(text).is_lt()) as i64
    }
    /// The number of texts that don't come behind this one.
    fn reached(&self, text: &[u8]) -> i64
        ensures count { result ≡ pos (count_by (λ other. reaches other text.now) self.now) }
        ensures few { result <ℤ pos (2 ^ 60) }
    {
        self.texts
            .partition_point(|other| (*other).cmp(text).is_le()) as i64
    }

    /// The key of a text. It is odd where no text that was coded is the same.
    pub fn key(&self, text: &[u8]) -> i64
        ensures { result ≡ pos (key_of self.now text.now) }
    {
        self.code(text) + self.reached(text)
    }
    /// The key of a text that is among those that were coded.
    pub fn listed_key(&self, text: &[u8]) -> Option<i64>
        ensures key { IfSome result (λ key. key ≡ pos (key_of self.now text.now)) }
        ensures listed { IfSome result (λ key. Contains self.now text.now) }
    {
        let before = self.code(text);
        let reached = self.reached(text);
        if before < reached {
            Some(before + reached)
        } else {
            None
        }
    }
}
