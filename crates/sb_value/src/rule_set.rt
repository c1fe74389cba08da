//! Sets of rules.
ghost use Rattle.std.specs.Prelude.{◌≡◌, ◌<◌, ◌≤◌, ◌-◌, ◌==◌, ◌&&◌, ◌||◌, ℕ, not, slice_set, length, true, false, MatchOption};
ghost use Rattle.sb_value.specs.Flags.{no_flags, flag_at, flags_of, union, intersection, has_none, share_place, HasNoneFrom, IsBitFrom, IsFirstFrom};
ghost use Rattle.sb_value.specs.Limits.{rule_limit};

use crate::id::{RULE_LIMIT, RuleId};
use std::marker::Model;

/// The number of rules that a word of a set tells of.
const WORD_SIZE: usize = 64;

/// The number of words of a set.
const WORD_COUNT: usize = RULE_LIMIT / WORD_SIZE;

/// A set of rules of one tenant: the bits of four words, seen as a flag for each id.
#[derive(Clone, Copy)]
pub struct RuleSet {
    words: [u64; WORD_COUNT],
}

impl Model for RuleSet {
    ghost use Rattle.std.specs.Prelude.{List, Bool};
    ghost use Rattle.sb_value.specs.Words.{flags_in, words_of, AreWords};
    ghost use Rattle.sb_value.specs.WordsInverse.{words_of-flags_in};

    ghost Value = { List Bool };

    ghost view = { λ set. flags_in set.words };

    ghost invariant = { λ set. AreWords 4 set.words };

    ghost inverse = { λ flags. record { words = words_of 4 flags } };

    ghost inverse_ok = { λ set h i. record { words = words_of-flags_in 4 set.words h i } };
}

impl RuleSet {
    /// No rule.
    pub const fn empty() -> RuleSet
        ensures value { result ≡ no_flags rule_limit }
        ensures members { (k : ℕ) → flag_at result k ≡ false }
    {
        RuleSet {
            words: [0; WORD_COUNT],
        }
    }

    /// The number of rules that a set may have.
    pub fn capacity(self) -> usize
        ensures value { result ≡ rule_limit }
        ensures flags { length self ≡ result }
    {
        let _ = &self.words;
        RULE_LIMIT
    }

    /// True if the rule is in the set.
    pub fn contains(self, rule: RuleId) -> bool
        ensures { result ≡ flag_at self rule }
    {
        let number = rule.index();
        self.words[number / WORD_SIZE] >> (number % WORD_SIZE) & 1 == 1
    }

    /// The set with the rule, too.
    pub fn with(self, rule: RuleId) -> RuleSet
        ensures value { result ≡ slice_set self rule true }
        ensures members { (k : ℕ) → flag_at result k ≡ (flag_at self k || (k == rule)) }
    {
        let number = rule.index();
        let mut words = self.words;
        words[number / WORD_SIZE] |= 1 << (number % WORD_SIZE);
        RuleSet { words }
    }

    /// The set without the rule.
    pub fn without(self, rule: RuleId) -> RuleSet
        ensures value { result ≡ slice_set self rule false }
        ensures members { (k : ℕ) → flag_at result k ≡ (flag_at self k && not (k == rule)) }
    {
        let number = rule.index();
        let mut words = self.words;
        words[number / WORD_SIZE] &= !(1 << (number % WORD_SIZE));
        RuleSet { words }
    }

    /// The rules that either set has.
    #[tactic(auto, using(crate::proofs::WordLaws::or_below))]
    pub fn union(self, other: RuleSet) -> RuleSet
        ensures value { result ≡ union self other }
        ensures members { (k : ℕ) → flag_at result k ≡ (flag_at self k || flag_at other k) }
    {
        let [a, b, c, d] = self.words;
        let [e, f, g, h] = other.words;
        RuleSet {
            words: [a | e, b | f, c | g, d | h],
        }
    }

    /// The rules that both sets have.
    #[tactic(auto, using(crate::proofs::WordLaws::and_below))]
    pub fn intersection(self, other: RuleSet) -> RuleSet
        ensures value { result ≡ intersection self other }
        ensures members { (k : ℕ) → flag_at result k ≡ (flag_at self k && flag_at other k) }
    {
        let [a, b, c, d] = self.words;
        let [e, f, g, h] = other.words;
        RuleSet {
            words: [a & e, b & f, c & g, d & h],
        }
    }

    /// True if some rule is in both sets.
    pub fn intersects(self, other: RuleSet) -> bool
        ensures { result ≡ share_place self other }
    {
        !self.intersection(other).is_empty()
    }

    /// True if no rule is in the set.
    pub fn is_empty(self) -> bool
        ensures { result ≡ has_none self }
    {
        let [a, b, c, d] = self.words;
        a | b | c | d == 0
    }

    /// The first rule whose number is the given one or more.
    pub fn first_from(self, number: usize) -> Option<RuleId>
        ensures { MatchOption result (HasNoneFrom number self) (IsFirstFrom number self) }
    {
        let [a, b, c, d] = self.words;
        let second = number.saturating_sub(WORD_SIZE);
        let third = second.saturating_sub(WORD_SIZE);
        let fourth = third.saturating_sub(WORD_SIZE);
        if let Some(place) = first_in(a, number) {
            return Some(RuleId::new(place));
        }
        if let Some(place) = first_in(b, second) {
            return Some(RuleId::new(64 + place));
        }
        if let Some(place) = first_in(c, third) {
            return Some(RuleId::new(128 + place));
        }
        if let Some(place) = first_in(d, fourth) {
            return Some(RuleId::new(192 + place));
        }
        None
    }
}

/// The first place of the word that is the given one or more.
fn first_in(word: u64, place: usize) -> Option<u8>
    ensures { MatchOption result (HasNoneFrom place (flags_of 64 word)) (IsBitFrom place word) }
{
    if place >= WORD_SIZE {
        return None;
    }
    let rest = word >> place;
    if rest == 0 {
        return None;
    }
    Some(place as u8 + rest.trailing_zeros() as u8)
}
