//! The place that a walk has come to.
ghost use Rattle.std.specs.Prelude.{◌≡◌};
ghost use Rattle.sb_rawlog.specs.KeySteps.{spot_of};

use sb_value::{Change, ChangeKind, TableId, Who};

/// Names a record of a log: its place there and its time, whose and of what it is, and how far back its walk goes.
#[derive(Clone, Copy)]
pub struct Spot {
    pub place: usize,
    pub time: u64,
    pub since: u64,
    pub who: Who,
    pub table: TableId,
    pub kind: ChangeKind,
    pub tuple: u64,
}

/// The spot of the change that lies in the place with its time, on a walk that goes back to `since`.
pub(crate) fn spot_for(place: usize, since: u64, time: u64, change: &Change) -> Spot
    ensures { result ≡ spot_of place since (time, change.now) }
{
    Spot {
        place,
        time,
        since,
        who: Who {
            tenant: change.tenant,
            session: change.session,
        },
        table: change.table,
        kind: change.kind,
        tuple: change.tuple,
    }
}
