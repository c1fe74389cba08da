//! Names of tables, columns, rules and rulesets.
ghost use Rattle.std.specs.Prelude.{◌≡◌, ◌<◌, ◌≤◌, length};
ghost use Rattle.std.specs.Cmp.{eq_by_cmp_equiv, partial_equiv_from_equiv};
ghost use Rattle.std.specs.Cmp.Lexicographic.{nat_list_cmp_total};
ghost use Rattle.std.specs.Hash as fed;
ghost use Rattle.sb_value.specs.Name.{same_name};
ghost use Rattle.sb_value.specs.NameEquality.{same_name_is};
ghost use Rattle.std.proofs.Common.{ap};

use std::hash::{Hash, Hasher};
use std::marker::Model;

/// The most bytes that a name has.
pub const NAME_LIMIT: usize = 32;

/// A name of 1 to 32 bytes, kept inline, so that it is copied and put into a refusal without memory.
#[derive(Clone, Copy)]
pub struct Name {
    bytes: [u8; NAME_LIMIT],
    len: u8,
}

impl Model for Name {
    ghost use Rattle.std.specs.Prelude.{List, ℕ, take, length};
    ghost use Rattle.sb_value.specs.Name.{IsPadded, padded};
    ghost use Rattle.sb_value.specs.NameInverse.{length-take-padded};
    ghost use Rattle.std.proofs.Common.{sym};

    ghost Value = { List ℕ };

    ghost view = { λ n. take n.len n.bytes };

    ghost invariant = { λ n. IsPadded n.bytes n.len };

    ghost inverse = { λ name. record { bytes = padded name; len = length name } };

    ghost inverse_ok = { λ n h i. record { bytes = sym h.zeros i; len = length-take-padded n.bytes n.len h i } };
}

impl Name {
    /// The name with these bytes.
    pub fn new(bytes: &[u8]) -> Name
        requires not_empty { 0 < length bytes.now }
        requires short { length bytes.now ≤ 32 }
        ensures { result ≡ bytes.now }
    {
        let len = bytes.len();
        let mut stored = [0; NAME_LIMIT];
        stored[..len].copy_from_slice(bytes);
        Name {
            bytes: stored,
            len: len as u8,
        }
    }

    /// Its bytes.
    pub fn as_slice(&self) -> &[u8]
        ensures bytes { result.now ≡ self.now }
        ensures not_empty { 0 < length self.now }
        ensures short { length self.now ≤ 32 }
    {
        &self.bytes[..self.len as usize]
    }

    /// True if the two names have the same bytes.
    pub fn is_same(&self, other: &Name) -> bool
        ensures { result ≡ same_name self.now other.now }
    {
        self.as_slice().cmp(other.as_slice()).is_eq()
    }
}

impl PartialEq for Name {
    ghost eq = { same_name };

    ghost laws = { partial_equiv_from_equiv (eq_by_cmp_equiv nat_list_cmp_total) };

    fn eq(&self, other: &Name) -> bool {
        self.is_same(other)
    }
}

impl Eq for Name {
    ghost laws = { eq_by_cmp_equiv nat_list_cmp_total };
}

/// A name is hashed as its bytes, without the zeros behind them.
impl Hash for Name {
    ghost hash_input = { λ n. fed.slice fed.u8 n };

    ghost respects_eq = { λ a b h. ap (λ n. fed.slice fed.u8 n) (same_name_is a b h) };

    fn hash<H: Hasher>(&self, state: &mut H) {
        self.as_slice().hash(state);
    }
}
