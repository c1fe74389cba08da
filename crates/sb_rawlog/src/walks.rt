//! Walks over a log as iterators.
ghost use Rattle.std.specs.Prelude.{◌≡◌, length, IfSome};
ghost use Rattle.std.specs.Iterator.{at_most};
ghost use Rattle.sb_rawlog.specs.Steps.{op_todo, tuple_todo, OpGives, TupleGives};

use crate::log::ChangeLog;
use crate::spot::Spot;
use sb_value::Change;

/// The changes of a session, table and kind with their times, newest first.
#[derive(Drop)]
pub struct ByOp<'a, L: ChangeLog> {
    pub(crate) log: &'a L,
    pub(crate) next: Option<Spot>,
}

impl<'a, L: ChangeLog> Iterator for ByOp<'a, L> {
    type Item = (u64, &'a Change);

    ghost can_next = { λ s. IfSome s.next (L.stands s.log.now) };

    ghost next_gives = { λ s r t. (t.log.now ≡ s.log.now) × OpGives (L.records s.log.now) s.next r t.next };

    ghost remaining = { λ s. at_most (length (op_todo (L.records s.log.now) s.next)) };

    fn next(&mut self) -> Option<(u64, &'a Change)> {
        let Some(spot) = self.next else {
            return None;
        };
        let at = spot;
        self.next = self.log.op_next(at);
        Some(self.log.get(spot))
    }
}

/// The changes of a session's tuple with their times, newest first.
#[derive(Drop)]
pub struct ByTuple<'a, L: ChangeLog> {
    pub(crate) log: &'a L,
    pub(crate) next: Option<Spot>,
}

impl<'a, L: ChangeLog> Iterator for ByTuple<'a, L> {
    type Item = (u64, &'a Change);

    ghost can_next = { λ s. IfSome s.next (L.stands s.log.now) };

    ghost next_gives = { λ s r t. (t.log.now ≡ s.log.now) × TupleGives (L.records s.log.now) s.next r t.next };

    ghost remaining = { λ s. at_most (length (tuple_todo (L.records s.log.now) s.next)) };

    fn next(&mut self) -> Option<(u64, &'a Change)> {
        let Some(spot) = self.next else {
            return None;
        };
        let at = spot;
        self.next = self.log.tuple_next(at);
        Some(self.log.get(spot))
    }
}
