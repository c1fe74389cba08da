//! The walk along a list of a log in places.
ghost use Rattle.sb_rawlog.specs.Buckets.{list_of};
ghost use Rattle.sb_rawlog.specs.Search.{BeginsList, FindsFirst};

use crate::key::Key;
use crate::node::Node;
use crate::spot::{Spot, spot_for};
use sb_arena::Arena;
use sb_value::Change;

/// The first change from `head` on that fits the key and is no older than `since`.
#[inline(always)]
pub(crate) fn search(
    arena: &Arena<Node<Change>>,
    head: Option<usize>,
    since: u64,
    key: &Key,
) -> Option<Spot>
    requires { BeginsList (list_of key.now) arena.now head }
    ensures { FindsFirst key.now since arena.now head result }
{
    let list = key.list();
    let mut at = head;
    'steps: while let Some(place) = at {
        let Some(node) = arena.get(place) else {
            return None;
        };
        // Those behind it are older still.
        if node.time < since {
            return None;
        }
        if key.fits(&node.item) {
            return Some(spot_for(place, since, node.time, &node.item));
        }
        at = node.links.get(list);
    }
    None
}
