//! Values among which others are looked for.
ghost use Rattle.std.specs.Prelude.{◌≡◌, map, IfSome, MatchOption};
ghost use Rattle.std.specs.Bool.{OnTrue};
ghost use Rattle.sb_plan.specs.Scopes.{value_seen};
ghost use Rattle.sb_plan.specs.ValueSet as spec;

use crate::value_ref::ValueRef;
use sb_syntax::Comparison;
use std::alloc::Global;
use std::marker::Model;

/// The fewest values that are put in order. Fewer are walked as fast as they are halved.
const MANY: usize = 16;

/// For each value there are at most so many flags.
const SPREAD: usize = 8;

/// A flag for each number from the least on.
struct IntegerFlags {
    least: i64,
    flags: Vec<bool>,
}

impl Drop for IntegerFlags {
    fn drop(self) {
        let Self { least: _, flags: _ } = self;
    }
}

/// Values. Where they are many, and numbers that lie close together, a flag tells whether a number is among them. Other
/// many values are in order, and one is found by halving. To order them takes no memory, and whoever chose them can't
/// make it slow.
pub struct ValueSet<'r> {
    values: Vec<ValueRef<'r>>,
    keys: Option<IntegerFlags>,
}

impl<'r> Drop for ValueSet<'r> {
    fn drop(self) {
        let Self { values: _, keys: _ } = self;
    }
}

impl<'r> Model for ValueSet<'r> {
    ghost use Rattle.std.specs.Prelude.{List, map};
    ghost use Rattle.sb_value.specs.declared.value.Value.{Value as Item};
    ghost use Rattle.sb_plan.specs.Scopes.{value_seen};
    ghost use Rattle.sb_plan.specs.ValueSet.{IsSearchable};

    ghost Value = { List Item };

    ghost view = { λ s. map value_seen s.values.items };

    ghost invariant = { λ s. IsSearchable s.keys s.values.items };
}

impl<'r> ValueSet<'r> {
    /// The set of these values.
    pub fn of(alloc: Global, mut values: Vec<ValueRef<'r>>) -> ValueSet<'r>
        ensures { spec.AreAlike result (map value_seen values.entry.items) }
    {
        if values.len() < MANY {
            return ValueSet { values, keys: None };
        }
        if let Some(keys) = keys_of(alloc, values.as_slice()) {
            return ValueSet {
                values,
                keys: Some(keys),
            };
        }
        values.sort_unstable_by(|one, two| one.order(*two));
        ValueSet { values, keys: None }
    }

    /// True if a value is among them.
    pub fn contains(&self, wanted: ValueRef<'_>) -> bool
        ensures { result ≡ spec.is_among (value_seen wanted.entry) self.now }
    {
        match &self.keys {
            Some(keys) => is_flagged(keys, wanted),
            None => is_listed(wanted, self.values.as_slice()),
        }
    }
}

/// The place of a number's flag, if it has one.
#[tactic(auto, using(crate::proofs::Flagging::flag_below, crate::proofs::Flagging::flag_beyond))]
fn place_of(keys: &IntegerFlags, number: i64) -> Option<usize>
    ensures { MatchOption result (spec.HasNoFlag keys.now number) (spec.IsFlagOf keys.now number) }
{
    let distance = number as i128 - keys.least as i128;
    if distance < 0 {
        return None;
    }
    if distance >= keys.flags.len() as i128 {
        return None;
    }
    Some(distance as usize)
}

/// True if a value's flag is set.
#[tactic(auto, using(crate::proofs::Flagging::flag_at_place))]
fn is_flagged(keys: &IntegerFlags, wanted: ValueRef<'_>) -> bool
    ensures { result ≡ spec.is_flagged keys.now (value_seen wanted.entry) }
{
    match wanted {
        ValueRef::Int(number) => match place_of(keys, number) {
            Some(place) => keys.flags[place],
            None => false,
        },
        ValueRef::Text(_) => false,
    }
}

/// Sets a value's flag, if it has one.
#[tactic(auto, using(crate::proofs::Flagging::set_for))]
fn set_flag(keys: &mut IntegerFlags, value: ValueRef<'_>) -> bool
    ensures { OnTrue result (spec.IsSetFor (value_seen value.entry) keys.old keys.new) }
{
    let ValueRef::Int(number) = value else {
        return false;
    };
    match place_of(keys, number) {
        Some(place) => {
            keys.flags[place] = true;
            true
        }
        None => false,
    }
}

/// So many flags, none of which is set.
#[tactic(auto, using(crate::proofs::Flagging::none_set))]
fn clear_flags(alloc: Global, least: i64, count: usize) -> Option<IntegerFlags>
    ensures { IfSome result spec.HasNone }
{
    match vec![in alloc; false; count] {
        Ok(flags) => Some(IntegerFlags { least, flags }),
        Err(_) => None,
    }
}

/// The least and the greatest of these, if all are numbers.
fn ends_of(values: &[ValueRef<'_>]) -> Option<(i64, i64)> {
    let mut least = i64::MAX;
    let mut greatest = i64::MIN;
    for value in values {
        match value {
            ValueRef::Int(number) => {
                least = least.min(*number);
                greatest = greatest.max(*number);
            }
            ValueRef::Text(_) => return None,
        }
    }
    Some((least, greatest))
}

/// The number of flags from one number to another, if that isn't too many for so many values.
fn flag_count(least: i64, greatest: i64, values: usize) -> Option<usize> {
    let Some(distance) = greatest.checked_sub(least) else {
        return None;
    };
    match usize::try_from(distance) {
        Ok(distance) if distance < values.saturating_mul(SPREAD) => distance.checked_add(1),
        _ => None,
    }
}

/// The flags of these values, if they are numbers that lie close together.
#[tactic(auto, using(crate::proofs::Flagging::keys_more, crate::proofs::Flagging::keys_none))]
fn keys_of(alloc: Global, values: &[ValueRef<'_>]) -> Option<IntegerFlags>
    ensures { IfSome result (spec.AreKeysOf values.now) }
{
    let Some((least, greatest)) = ends_of(values) else {
        return None;
    };
    let Some(count) = flag_count(least, greatest, values.len()) else {
        return None;
    };
    let Some(mut keys) = clear_flags(alloc, least, count) else {
        return None;
    };
    for value in values {
        if !set_flag(&mut keys, *value) {
            return None;
        }
    }
    Some(keys)
}

/// True if a value is among these, which are in order where they are many.
fn is_listed(wanted: ValueRef<'_>, values: &[ValueRef<'_>]) -> bool
    requires { spec.AreSearchable values.now }
    ensures { result ≡ spec.is_among (value_seen wanted.entry) (map value_seen values.now) }
{
    if values.len() < MANY {
        is_among(wanted, values)
    } else {
        is_found(wanted, values)
    }
}

/// True if a value is among these, which are walked.
fn is_among(wanted: ValueRef<'_>, list: &[ValueRef<'_>]) -> bool
    ensures { result ≡ spec.is_among (value_seen wanted.entry) (map value_seen list.now) }
{
    for value in list {
        if wanted.compares(Comparison::Equal, *value) {
            return true;
        }
    }
    false
}

/// True if a value is among these, which are in order.
fn is_found(wanted: ValueRef<'_>, list: &[ValueRef<'_>]) -> bool
    requires { spec.InOrder list.now }
    ensures { result ≡ spec.is_among (value_seen wanted.entry) (map value_seen list.now) }
{
    let place = list.partition_point(|value| value.precedes(wanted));
    place < list.len() && wanted.compares(Comparison::Equal, list[place])
}
