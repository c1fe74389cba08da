//! A log kept as a plain list.
ghost use Rattle.std.specs.Prelude.{◌≡◌, ◌+◌, ◌<◌, ◌≤◌, [], Some, length, take, slice_get, vec_capacity};
ghost use Rattle.sb_value.specs.declared.change.Change.{Change};
ghost use Rattle.sb_rawlog.specs.Records.{Rising, Rising-prop, walk, before, change_at};
ghost use Rattle.sb_rawlog.specs.Found.{InList};
ghost use Rattle.sb_rawlog.specs.Keys.{fits};
ghost use Rattle.sb_rawlog.specs.KeySteps.{KeyStep};

use crate::find::{index_of, newest_before};
use crate::key::Key;
use crate::log::ChangeLog;
use crate::spot::{Spot, spot_for};
use sb_value::{Change, ChangeKind, TableId, Who};
use std::alloc::{AllocError, Global};

/// A log that keeps its changes in a list.
pub struct PlainLog {
    items: Vec<(u64, Change)>,
    clock: u64,
    room: usize,
    ghost rising: { Rising 0 items.items clock } by { Rising-prop _ _ _ },
    ghost within: { length items.items + room ≤ vec_capacity items },
}

impl Drop for PlainLog {
    fn drop(self) {
        let Self {
            items: _,
            clock: _,
            room: _,
        } = self;
    }
}

impl PlainLog {
    /// An empty log, whose clock stands at 0.
    pub fn new(alloc: Global) -> Self
        ensures records { ⟦<PlainLog as ChangeLog>⟧.records result ≡ [] }
        ensures clock { ⟦<PlainLog as ChangeLog>⟧.clock result ≡ 0 }
        ensures spare { ⟦<PlainLog as ChangeLog>⟧.room result ≡ 0 }
    {
        PlainLog {
            items: Vec::new(alloc),
            clock: 0,
            room: 0,
        }
    }

    /// The newest of the first `end` changes that fits the key and is no older than `since`.
    fn newest_for(&self, key: &Key, since: u64, end: usize) -> Option<Spot>
        requires { end ≤ length self.now.items.items }
        ensures { let rs = self.now.items.items in
            KeyStep (InList rs) rs key.now since (walk (fits key.now) since (take end rs)) result }
    {
        let Some(i) = newest_before(&self.items, end, since, key) else {
            return None;
        };
        let (time, change) = &self.items[i];
        Some(spot_for(i, since, *time, change))
    }

    /// The index of the record of the time, which was given the place.
    fn index(&self, place: usize, time: u64) -> usize
        requires { (c : Change) × (change_at time self.now.items.items ≡ Some c) }
        ensures within { result < length self.now.items.items }
        ensures record { let rs = self.now.items.items in
            (c : Change) → change_at time rs ≡ Some c → slice_get rs result ≡ Some (time, c) }
        ensures front { let rs = self.now.items.items in before time rs ≡ take result rs }
    {
        index_of(&self.items, place, time)
    }
}

impl ChangeLog for PlainLog {
    ghost records = { λ l. l.items.items };

    ghost clock = { λ l. l.clock };

    ghost room = { λ l. l.room };

    ghost stands = { λ l. InList l.items.items };

    fn reserve(&mut self, n: usize) -> Result<(), AllocError> {
        if n <= self.room {
            return Ok(());
        }
        self.items.reserve(n)?;
        self.room = n;
        Ok(())
    }

    fn shrink(&mut self, n: usize) {
        self.room = self.room.min(n);
    }

    fn spare(&self) -> usize {
        self.room
    }

    fn append(&mut self, change: Change) {
        let _ = self.items.push((self.clock, change));
        self.clock += 1;
        self.room -= 1;
    }

    fn now(&self) -> u64 {
        self.clock
    }

    fn len(&self) -> usize {
        self.items.len()
    }

    fn op_first(&self, who: Who, table: TableId, kind: ChangeKind, since: u64) -> Option<Spot> {
        self.newest_for(&Key::Op(who, table, kind), since, self.items.len())
    }

    fn op_next(&self, spot: Spot) -> Option<Spot> {
        let key = Key::Op(spot.who, spot.table, spot.kind);
        self.newest_for(&key, spot.since, self.index(spot.place, spot.time))
    }

    fn tuple_first(&self, who: Who, table: TableId, tuple: u64, since: u64) -> Option<Spot> {
        self.newest_for(&Key::Tuple(who, table, tuple), since, self.items.len())
    }

    fn tuple_next(&self, spot: Spot) -> Option<Spot> {
        let key = Key::Tuple(spot.who, spot.table, spot.tuple);
        self.newest_for(&key, spot.since, self.index(spot.place, spot.time))
    }

    fn tuple_back(&self, _spot: Spot) -> Option<Spot> {
        None
    }

    fn get(&self, spot: Spot) -> (u64, &Change) {
        let (time, change) = &self.items[self.index(spot.place, spot.time)];
        (*time, change)
    }

    fn newest(&self, who: Who) -> Option<&Change> {
        let Some(i) = newest_before(&self.items, self.items.len(), 0, &Key::Session(who)) else {
            return None;
        };
        let (_, change) = &self.items[i];
        Some(change)
    }

    fn take_newest(&mut self, who: Who) -> Option<Change> {
        let Some(i) = newest_before(&self.items, self.items.len(), 0, &Key::Session(who)) else {
            return None;
        };
        let (_, change) = self.items.remove(i);
        self.room += 1;
        Some(change)
    }

    fn forget(&mut self, who: Who) {
        let len = self.items.len();
        let session = Key::Session(who);
        self.items.retain(|(_, change)| !session.fits(change));
        self.room += len - self.items.len();
    }
}
