//! The changes that a walk looks for.
ghost use Rattle.std.specs.Prelude.{◌≡◌};
ghost use Rattle.sb_rawlog.specs.Changes.{is_by};
ghost use Rattle.sb_rawlog.specs.Keys.{fits};

use sb_value::{Change, ChangeKind, TableId, Who};

/// The changes that a walk looks for.
#[derive(Drop)]
pub(crate) enum Key {
    Op(Who, TableId, ChangeKind),
    Tuple(Who, TableId, u64),
    Session(Who),
}

/// True if the change is by the session.
fn is_by(change: &Change, who: Who) -> bool
    ensures { result ≡ is_by who change.now }
{
    change.tenant == who.tenant && change.session == who.session
}

impl Key {
    pub(crate) fn fits(&self, change: &Change) -> bool
        ensures { result ≡ fits self.now change.now }
    {
        match self {
            Key::Op(who, table, kind) => {
                is_by(change, *who) && change.table == *table && change.kind == *kind
            }
            Key::Tuple(who, table, tuple) => {
                is_by(change, *who) && change.table == *table && change.tuple == *tuple
            }
            Key::Session(who) => is_by(change, *who),
        }
    }
}
