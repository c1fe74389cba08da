//! The searches of a plain log.
ghost use Rattle.std.specs.Prelude.{◌≡◌, ℕ, ◌<◌, ◌≤◌, List, [], Some, length, take, slice_get, MatchOption};
ghost use Rattle.sb_value.specs.declared.change.Change.{Change};
ghost use Rattle.sb_rawlog.specs.Records.{Rising, walk, change_at};
ghost use Rattle.sb_rawlog.specs.Found.{Found};
ghost use Rattle.sb_rawlog.specs.Keys.{fits};

use crate::key::Key;
use sb_value::Change;

/// The index of the newest of the first `end` records that fits the key and is no older than `since`.
pub(crate) fn newest_before(
    items: &[(u64, Change)],
    end: usize,
    since: u64,
    key: &Key,
) -> Option<usize>
    requires rising { (clock : ℕ) × Rising 0 items.now clock }
    requires within { end ≤ length items.now }
    ensures { let todo = walk (fits key.now) since (take end items.now) in
        MatchOption result (todo ≡ []) (Found (fits key.now) since items.now todo) }
{
    let mut i = end;
    while i > 0 {
        i -= 1;
        let (time, change) = &items[i];
        // Those in front of it are older still.
        if *time < since {
            return None;
        }
        if key.fits(change) {
            return Some(i);
        }
    }
    None
}

/// The index of the record of the time, which is the place unless records in front of it are gone.
pub(crate) fn index_of(items: &[(u64, Change)], place: usize, time: u64) -> usize
    requires rising { (clock : ℕ) × Rising 0 items.now clock }
    requires there { (c : Change) × (change_at time items.now ≡ Some c) }
    ensures within { result < length items.now }
    ensures record { (c : Change) → change_at time items.now ≡ Some c → slice_get items.now result ≡ Some (time, c) }
{
    if place < items.len() && items[place].0 == time {
        return place;
    }
    for (i, record) in items.iter().enumerate() {
        if record.0 == time {
            return i;
        }
    }
    items.len()
}
