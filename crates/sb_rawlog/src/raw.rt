//! A log whose changes lie in numbered places.
ghost use Rattle.std.specs.Prelude.{◌≡◌, ◌+◌, ◌<◌, ◌≤◌, true, [], length, IfOk};
ghost use Rattle.sb_rawlog.specs.Keys.{fits};
ghost use Rattle.sb_rawlog.specs.KeySteps.{KeyFirst, KeyNext};
ghost use Rattle.sb_rawlog.specs.Records.{others};
ghost use Rattle.sb_rawlog.specs.Sessions.{OthersStay, TakesLast};
ghost use Rattle.sb_rawlog.specs.Steps.{SpotsStay, TakesNewest};
ghost use Rattle.sb_rawlog.specs.Raw.{records_of, Stands};

use crate::back::{back_for, node_at};
use crate::bucket::{SESSIONS, tuple_buckets};
use crate::heads::Heads;
use crate::key::Key;
use crate::lists::link;
use crate::log::ChangeLog;
use crate::node::Node;
use crate::places::{add_places, claim, enter, give_back, spare_places, take_out};
use crate::search::search;
use crate::spot::{Spot, spot_for};
use sb_arena::Arena;
use sb_value::{Change, ChangeKind, TableId, Who};
use std::alloc::{AllocError, Global};
use std::marker::Model;

/// A log over an arena, with three lists through its nodes.
pub struct RawLog {
    arena: Arena<Node<Change>>,
    heads: Heads,
    free: Vec<usize>,
    used: usize,
    clock: u64,
    room: usize,
}

impl Drop for RawLog {
    fn drop(self) {
        let Self {
            arena: _,
            heads: _,
            free: _,
            used: _,
            clock: _,
            room: _,
        } = self;
    }
}

impl Model for RawLog {
    ghost use Rattle.sb_rawlog.specs.Raw.{Raw};

    ghost Value = { Raw };

    ghost use Rattle.sb_rawlog.specs.Fields.{seen, IsRaw};

    ghost view = { seen };

    ghost invariant = { IsRaw };
}

impl RawLog {
    /// An empty log, whose clock stands at 0. One bucket is as right as many, and slower. Error: out of memory.
    pub fn new(alloc: Global, buckets: usize) -> Result<Self, AllocError>
        requires { (0 < buckets) × (buckets ≤ 65536) }
        ensures records { IfOk result (λ l. ⟦<RawLog as ChangeLog>⟧.records l ≡ []) }
        ensures clock { IfOk result (λ l. ⟦<RawLog as ChangeLog>⟧.clock l ≡ 0) }
        ensures spare { IfOk result (λ l. ⟦<RawLog as ChangeLog>⟧.room l ≡ 0) }
    {
        Ok(RawLog {
            arena: Arena::new(alloc),
            heads: Heads {
                ops: Vec::from_elem(alloc, None, buckets)?,
                tuples: Vec::from_elem(alloc, None, tuple_buckets(buckets))?,
                sessions: Vec::from_elem(alloc, None, SESSIONS)?,
            },
            free: Vec::new(alloc),
            used: 0,
            clock: 0,
            room: 0,
        })
    }

    /// The newest change that fits the key and is no older than `since`.
    #[inline(always)]
    fn first_for(&self, key: &Key, since: u64) -> Option<Spot>
        ensures { KeyFirst (Stands self.now) (records_of self.now) key.now since result }
    {
        let head = self.heads.first(key);
        search(&self.arena, head, since, key)
    }

    /// The next older change that fits the key, as the spot's own does.
    #[inline(always)]
    fn next_for(&self, key: &Key, spot: Spot) -> Option<Spot>
        requires { (stands : Stands self.now spot) × (fits key.now stands.change ≡ true) }
        ensures { KeyNext (Stands self.now) (records_of self.now) key.now spot result }
    {
        let behind = link(&self.arena, key.list(), spot.place);
        search(&self.arena, behind, spot.since, key)
    }

    /// Takes the session's newest change out of its place.
    #[inline(always)]
    fn pop(&mut self, who: Who) -> Option<Change>
        ensures taken { TakesNewest who (records_of self.old) (records_of self.new) result }
        ensures spare { self.new.room + length (records_of self.new) ≡ self.old.room + length (records_of self.old) }
        ensures clock { self.new.clock ≡ self.old.clock }
        ensures spots { SpotsStay (Stands self.old) (Stands self.new) (records_of self.new) }
        ensures own { TakesLast who (records_of self.old) (records_of self.new) result }
        ensures others { OthersStay who (records_of self.old) (records_of self.new) }
        ensures all_others { others who (records_of self.new) ≡ others who (records_of self.old) }
    {
        let key = Key::Session(who);
        let head = self.heads.first(&key);
        let Some(spot) = search(&self.arena, head, 0, &key) else {
            return None;
        };
        let change = take_out(&mut self.arena, &mut self.heads, spot.place);
        give_back(&mut self.free, &mut self.used, spot.place);
        self.room += 1;
        Some(change)
    }
}

impl ChangeLog for RawLog {
    ghost records = { records_of };

    ghost clock = { λ l. l.clock };

    ghost room = { λ l. l.room };

    ghost stands = { Stands };

    fn reserve(&mut self, n: usize) -> Result<(), AllocError> {
        if n <= self.room {
            return Ok(());
        }
        add_places(&mut self.arena, &mut self.free, &mut self.used, n)?;
        self.room = n;
        Ok(())
    }

    fn shrink(&mut self, n: usize) {
        let room = self.room.min(n);
        spare_places(&mut self.arena, &mut self.free, &mut self.used, room);
        self.room = room;
    }

    fn spare(&self) -> usize {
        self.room
    }

    fn append(&mut self, change: Change) {
        let back = back_for(&self.arena, &self.heads, &change);
        let place = claim(&mut self.free, &mut self.used);
        enter(
            &mut self.arena,
            &mut self.heads,
            place,
            self.clock,
            back,
            change,
        );
        self.clock += 1;
        self.room -= 1;
    }

    fn now(&self) -> u64 {
        self.clock
    }

    fn len(&self) -> usize {
        self.used - self.free.len()
    }

    fn op_first(&self, who: Who, table: TableId, kind: ChangeKind, since: u64) -> Option<Spot> {
        self.first_for(&Key::Op(who, table, kind), since)
    }

    fn op_next(&self, spot: Spot) -> Option<Spot> {
        self.next_for(&Key::Op(spot.who, spot.table, spot.kind), spot)
    }

    fn tuple_first(&self, who: Who, table: TableId, tuple: u64, since: u64) -> Option<Spot> {
        self.first_for(&Key::Tuple(who, table, tuple), since)
    }

    fn tuple_next(&self, spot: Spot) -> Option<Spot> {
        self.next_for(&Key::Tuple(spot.who, spot.table, spot.tuple), spot)
    }

    fn tuple_back(&self, spot: Spot) -> Option<Spot> {
        let Some(node) = node_at(&self.arena, spot.place) else {
            return None;
        };
        let Some(place) = node.back.place else {
            return None;
        };
        let Some(older) = node_at(&self.arena, place) else {
            return None;
        };
        let key = Key::Tuple(spot.who, spot.table, spot.tuple);
        if older.time < spot.since || older.time >= spot.time || !key.fits(&older.item) {
            return None;
        }
        Some(spot_for(place, spot.since, older.time, &older.item))
    }

    fn get(&self, spot: Spot) -> (u64, &Change) {
        let Some(node) = self.arena.get(spot.place) else {
            unreachable!()
        };
        (node.time, &node.item)
    }

    fn newest(&self, who: Who) -> Option<&Change> {
        let key = Key::Session(who);
        let head = self.heads.first(&key);
        let Some(spot) = search(&self.arena, head, 0, &key) else {
            return None;
        };
        let Some(node) = self.arena.get(spot.place) else {
            return None;
        };
        Some(&node.item)
    }

    fn take_newest(&mut self, who: Who) -> Option<Change> {
        self.pop(who)
    }

    fn forget(&mut self, who: Who) {
        'newest: loop {
            let session = who;
            let Some(change) = self.pop(session) else {
                return;
            };
            drop(change);
        }
    }
}
