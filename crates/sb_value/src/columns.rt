//! Sets of column places.
ghost use Rattle.std.specs.Prelude.{◌≡◌, ◌<◌, ◌==◌, ◌||◌, ℕ, slice_set, true, false};
ghost use Rattle.sb_value.specs.Columns.{with_place};
ghost use Rattle.sb_value.specs.Flags.{no_flags, flag_at, has_none, union, share_place};

use std::marker::Model;

/// A set of places of columns, 0 to 7: the bits of a byte, seen as eight flags.
#[derive(Clone, Copy, PartialEq, Eq)]
pub struct Columns {
    bits: u8,
}

impl Model for Columns {
    ghost use Rattle.std.specs.Prelude.{List, Bool, ◌<◌};
    ghost use Rattle.sb_value.specs.Flags.{flags_of, word_of};
    ghost use Rattle.sb_value.specs.FlagsInverse.{word_of-flags_of};

    ghost Value = { List Bool };

    ghost view = { λ c. flags_of 8 c.bits };

    ghost invariant = { λ c. c.bits < 256 };

    ghost inverse = { λ flags. record { bits = word_of flags } };

    ghost inverse_ok = { λ c h i. record { bits = word_of-flags_of 8 c.bits h i } };
}

impl Columns {
    /// No column.
    pub const fn empty() -> Columns
        ensures value { result ≡ no_flags 8 }
        ensures members { (k : ℕ) → flag_at result k ≡ false }
    {
        Columns { bits: 0 }
    }

    /// True if the place is in the set.
    pub fn contains(self, place: u8) -> bool
        requires { place < 8 }
        ensures { result ≡ flag_at self place }
    {
        self.bits >> place & 1 == 1
    }

    /// The set with the place, too.
    pub fn with(self, place: u8) -> Columns
        requires { place < 8 }
        ensures value { result ≡ slice_set self place true }
        ensures members { (k : ℕ) → flag_at result k ≡ (flag_at self k || (k == place)) }
    {
        Columns {
            bits: self.bits | 1 << place,
        }
    }

    /// The set with the place, too, if it is one that a set can hold.
    pub fn with_place(self, place: u8) -> Columns
        ensures { result ≡ with_place self place }
    {
        if place < 8 { self.with(place) } else { self }
    }

    /// The places that either set has.
    pub fn union(self, other: Columns) -> Columns
        ensures value { result ≡ union self other }
        ensures members { (k : ℕ) → flag_at result k ≡ (flag_at self k || flag_at other k) }
    {
        Columns {
            bits: self.bits | other.bits,
        }
    }

    /// True if the two sets have a place in common.
    pub fn intersects(self, other: Columns) -> bool
        ensures { result ≡ share_place self other }
    {
        self.bits & other.bits != 0
    }

    /// True if no place is in the set.
    pub fn is_empty(self) -> bool
        ensures { result ≡ has_none self }
    {
        self.bits == 0
    }
}
