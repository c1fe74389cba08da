//! Lists of fields, with their number in front.
ghost use Rattle.std.specs.Prelude.{◌≡◌, map, option_copied};
ghost use Rattle.std.specs.Int.{w16, w32};
ghost use Rattle.sb_postgres.specs.Reading.{Gives, counted_at, items_at, number_at, value_at};

use crate::error::ReadError;
use crate::fields::{half_at, value_at, word_at};
use std::alloc::Global;

fn halves_of(alloc: Global, count: u16, bytes: &[u8]) -> Result<(Vec<u16>, &[u8]), ReadError>
    ensures { Gives (λ x. (x.0.items, x.1.now)) result (items_at (number_at w16) count bytes.now) }
{
    let mut found = Vec::new(alloc);
    let mut rest = bytes;
    for _ in 0..count {
        let (one, behind) = half_at(rest)?;
        found.push(one)?;
        rest = behind;
    }
    Ok((found, rest))
}

fn words_of(alloc: Global, count: u16, bytes: &[u8]) -> Result<(Vec<u32>, &[u8]), ReadError>
    ensures { Gives (λ x. (x.0.items, x.1.now)) result (items_at (number_at w32) count bytes.now) }
{
    let mut found = Vec::new(alloc);
    let mut rest = bytes;
    for _ in 0..count {
        let (one, behind) = word_at(rest)?;
        found.push(one)?;
        rest = behind;
    }
    Ok((found, rest))
}

fn values_of<'a>(
    alloc: Global,
    count: u16,
    bytes: &'a [u8],
) -> Result<(Vec<Option<&'a [u8]>>, &'a [u8]), ReadError>
    ensures { Gives (λ x. (map option_copied x.0.items, x.1.now)) result (items_at value_at count bytes.now) }
{
    let mut found = Vec::new(alloc);
    let mut rest = bytes;
    for _ in 0..count {
        let (one, behind) = value_at(rest)?;
        found.push(one)?;
        rest = behind;
    }
    Ok((found, rest))
}

#[tactic(auto, unfolding(crate::specs::Reading::counted_at))]
pub(crate) fn halves_at(alloc: Global, bytes: &[u8]) -> Result<(Vec<u16>, &[u8]), ReadError>
    ensures { Gives (λ x. (x.0.items, x.1.now)) result (counted_at (number_at w16) bytes.now) }
{
    let (count, rest) = half_at(bytes)?;
    halves_of(alloc, count, rest)
}

#[tactic(auto, unfolding(crate::specs::Reading::counted_at))]
pub(crate) fn words_at(alloc: Global, bytes: &[u8]) -> Result<(Vec<u32>, &[u8]), ReadError>
    ensures { Gives (λ x. (x.0.items, x.1.now)) result (counted_at (number_at w32) bytes.now) }
{
    let (count, rest) = half_at(bytes)?;
    words_of(alloc, count, rest)
}

#[tactic(auto, unfolding(crate::specs::Reading::counted_at))]
pub(crate) fn values_at<'a>(
    alloc: Global,
    bytes: &'a [u8],
) -> Result<(Vec<Option<&'a [u8]>>, &'a [u8]), ReadError>
    ensures { Gives (λ x. (map option_copied x.0.items, x.1.now)) result (counted_at value_at bytes.now) }
{
    let (count, rest) = half_at(bytes)?;
    values_of(alloc, count, rest)
}
