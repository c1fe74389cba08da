//! The calls of a file and their answers, which only clauses read.
ghost use Rattle.std.specs.Prelude.{◌≡◌, List, [], ◌∷◌};
ghost use Rattle.std.specs.Borrow.{ftrue};
ghost use Rattle.sqlite_disk.specs.Events.{Event};
ghost use Rattle.sb_durable.specs.PendingEntries.{event_of};

use std::marker::{Model, PhantomData};

#[derive(Drop)]
pub struct PendingEntries {
    marker: PhantomData<u8>,
    pub ghost events: { List Event },
}

impl Model for PendingEntries {
    ghost also_owns = { λ _. ftrue };
}

impl PendingEntries {
    pub(crate) fn new() -> PendingEntries
        ensures { result.events ≡ [] }
    {
        PendingEntries {
            marker: PhantomData,
        }
    }

    /// Notes a call: its number, an offset or a length, a count, and 1 where it succeeded.
    pub(crate) fn note(&mut self, _numbers: &[u64], _bytes: &[u8])
        ensures { self.new.events ≡ event_of _numbers.now _bytes.now ∷ self.old.events }
    {}
}
