//! The promises of every log of changes.
ghost use Rattle.std.specs.Prelude.{◌≡◌, ℕ, ◌+◌, ◌-◌, ◌<◌, ◌^◌, List, [], ◌∷◌, ◌++◌, Some, length, max, min, OnOk, OnErr, IfSome, option_copied};
ghost use Rattle.sb_rawlog.specs.Changes.{author, is_op, is_tuple};
ghost use Rattle.sb_rawlog.specs.declared.spot.Spot.{Spot};
ghost use Rattle.sb_rawlog.specs.Records.{Record, Rising, walk, others, change_at};
ghost use Rattle.sb_rawlog.specs.Sessions.{changes_by, AddsLast, MarksCut, TimesCut, OthersStay, TakesLast};
ghost use Rattle.sb_rawlog.specs.Steps.{OpFirst, OpNext, TupleFirst, TupleNext, TupleBack, SpotsStay, IsNewest, TakesNewest, op_todo, tuple_todo};

use crate::spot::Spot;
use crate::walks::{ByOp, ByTuple};
use sb_value::{Change, ChangeKind, TableId, Who};
use std::alloc::AllocError;

/// A list of changes in rising time, beside a clock that never goes back.
pub trait ChangeLog {
    /// The changes and their times, oldest first.
    ghost records: { Self → List Record };

    /// The time of the next change.
    ghost clock: { Self → ℕ };

    /// The number of changes that find room.
    ghost room: { Self → ℕ };

    /// The spot was given by this log, and its record is still there.
    ghost stands: { Self → Spot → Type 0 };

    /// Makes room for `n` changes, where there is less.
    fn reserve(&mut self, n: usize) -> Result<(), AllocError>
        ensures ok { OnOk result (room self.new ≡ max n (room self.old)) }
        ensures err { OnErr result (room self.new ≡ room self.old) }
        ensures records { records self.new ≡ records self.old }
        ensures clock { clock self.new ≡ clock self.old }
        ensures spots { SpotsStay (stands self.old) (stands self.new) (records self.new) };

    /// Gives up the room for more than `n` changes, and with it memory, where far more of it is free.
    fn shrink(&mut self, n: usize)
        ensures room { room self.new ≡ min n (room self.old) }
        ensures records { records self.new ≡ records self.old }
        ensures clock { clock self.new ≡ clock self.old }
        ensures spots { SpotsStay (stands self.old) (stands self.new) (records self.new) };

    /// For how many changes there is room.
    fn spare(&self) -> usize
        ensures { result ≡ room self.now };

    /// Adds a change at the clock's time, and moves the clock on.
    fn append(&mut self, change: Change)
        requires spare { 0 < room self.old }
        requires clock { clock self.old < 2 ^ 64 - 1 }
        ensures records { records self.new ≡ records self.old ++ (clock self.old, change) ∷ [] }
        ensures clock { clock self.new ≡ clock self.old + 1 }
        ensures spare { room self.new + 1 ≡ room self.old }
        ensures spots { SpotsStay (stands self.old) (stands self.new) (records self.new) }

        // By this the sessions' changes are known, too.
        ensures own { AddsLast change (records self.old) (records self.new) }
        ensures others { OthersStay (author change) (records self.old) (records self.new) };

    /// The time of the next change.
    fn now(&self) -> u64
        ensures clock { result ≡ clock self.now }
        ensures rising { Rising 0 (records self.now) result }
        ensures marks { MarksCut (records self.now) }
        ensures times { TimesCut (records self.now) };

    /// The number of changes.
    fn len(&self) -> usize
        ensures { result ≡ length (records self.now) };

    /// The newest change of this session, table and kind that is no older than `since`.
    fn op_first(&self, who: Who, table: TableId, kind: ChangeKind, since: u64) -> Option<Spot>
        ensures { OpFirst (stands self.now) (records self.now) who table kind since result };

    /// The next older one.
    fn op_next(&self, spot: Spot) -> Option<Spot>
        requires { stands self.now spot }
        ensures { OpNext (stands self.now) (records self.now) spot result };

    /// The newest change of this session's tuple that is no older than `since`.
    fn tuple_first(&self, who: Who, table: TableId, tuple: u64, since: u64) -> Option<Spot>
        ensures { TupleFirst (stands self.now) (records self.now) who table tuple since result };

    /// The next older one.
    fn tuple_next(&self, spot: Spot) -> Option<Spot>
        requires { stands self.now spot }
        ensures { TupleNext (stands self.now) (records self.now) spot result };

    /// An older one of the same walk, past several others if the log knows such a one.
    fn tuple_back(&self, spot: Spot) -> Option<Spot>
        requires { stands self.now spot }
        ensures { TupleBack (stands self.now) (records self.now) spot result };

    /// The change at the spot, and its time.
    fn get(&self, spot: Spot) -> (u64, &Change)
        requires { stands self.now spot }
        ensures time { result.0 ≡ spot.time }
        ensures change { change_at spot.time (records self.now) ≡ Some result.1.now };

    /// The session's newest change.
    fn newest(&self, who: Who) -> Option<&Change>
        ensures { IsNewest who (records self.now) (option_copied result) };

    /// Takes the session's newest change out.
    fn take_newest(&mut self, who: Who) -> Option<Change>
        ensures taken { TakesNewest who (records self.old) (records self.new) result }
        ensures spare { room self.new + length (records self.new) ≡ room self.old + length (records self.old) }
        ensures clock { clock self.new ≡ clock self.old }
        ensures spots { SpotsStay (stands self.old) (stands self.new) (records self.new) }

        // By this the sessions' changes are known, too.
        ensures own { TakesLast who (records self.old) (records self.new) result }
        ensures others { OthersStay who (records self.old) (records self.new) };

    /// Takes all changes of the session out.
    fn forget(&mut self, who: Who)
        ensures records { records self.new ≡ others who (records self.old) }
        ensures spare { room self.new + length (records self.new) ≡ room self.old + length (records self.old) }
        ensures clock { clock self.new ≡ clock self.old }
        ensures spots { SpotsStay (stands self.old) (stands self.new) (records self.new) }

        // By this the sessions' changes are known, too.
        ensures own { changes_by who (records self.new) ≡ [] }
        ensures others { OthersStay who (records self.old) (records self.new) };

    /// The session's changes of the table and kind that are no older than `since`, newest first.
    fn by_op(&self, who: Who, table: TableId, kind: ChangeKind, since: u64) -> ByOp<'_, Self>
    where
        Self: Sized,
        ensures log { result.log.now ≡ self.now }
        ensures can { IfSome result.next (stands self.now) }
        ensures items { let rs = records self.now in
            op_todo rs result.next ≡ walk (is_op who table kind) since rs }
    {
        ByOp {
            log: self,
            next: self.op_first(who, table, kind, since),
        }
    }

    /// The session's changes of the tuple that are no older than `since`, newest first.
    fn by_tuple(&self, who: Who, table: TableId, tuple: u64, since: u64) -> ByTuple<'_, Self>
    where
        Self: Sized,
        ensures log { result.log.now ≡ self.now }
        ensures can { IfSome result.next (stands self.now) }
        ensures items { let rs = records self.now in
            tuple_todo rs result.next ≡ walk (is_tuple who table tuple) since rs }
    {
        ByTuple {
            log: self,
            next: self.tuple_first(who, table, tuple, since),
        }
    }
}
