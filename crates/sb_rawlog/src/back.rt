//! Steps of a walk along a tuple's changes that pass several at once.
ghost use Rattle.std.specs.Prelude.{◌≡◌, None, get_or, IfSome, Some};
ghost use Rattle.sb_rawlog.specs.Heads.{HoldSome};

use crate::heads::Heads;
use crate::key::Key;
use crate::node::{Back, Node};
use crate::search::search;
use sb_arena::Arena;
use sb_value::{Change, ChangeKind, Who};

impl Back {
    /// Of a tuple's first change.
    fn none() -> Back {
        Back {
            place: None,
            depth: 0,
        }
    }
}

/// The node of a place, if there is one.
pub(crate) fn node_at<T>(arena: &Arena<Node<T>>, place: usize) -> Option<&Node<T>>
    ensures { IfSome result (λ node. get_or arena.now place None ≡ Some node.now) }
{
    if place < arena.places() {
        return arena.get(place);
    }
    None
}

/// The note of the change in the place. A tuple's first change leads to itself.
fn back_at<T>(arena: &Arena<Node<T>>, place: usize) -> (usize, usize) {
    match node_at(arena, place) {
        Some(node) => (node.back.depth, node.back.place.unwrap_or(place)),
        None => (0, place),
    }
}

/// The note of the change behind the tuple's newest one so far. Two steps back of one length become one that is as long
/// as both, so that a change's older ones are few steps away, however many they are (E. W. Myers, "An applicative
/// random-access stack", 1983).
fn back_behind<T>(arena: &Arena<Node<T>>, newest: usize) -> Back {
    let (depth, middle) = back_at(arena, newest);
    let (middle_depth, far) = back_at(arena, middle);
    let (far_depth, _) = back_at(arena, far);
    let first = depth.wrapping_sub(middle_depth);
    let second = middle_depth.wrapping_sub(far_depth);
    Back {
        place: Some(if first == second { far } else { newest }),
        depth: depth.wrapping_add(1),
    }
}

/// The note of a change that comes next. An insert is its tuple's first change.
pub(crate) fn back_for(arena: &Arena<Node<Change>>, heads: &Heads, change: &Change) -> Back
    requires { HoldSome arena.now heads.now }
{
    if matches!(change.kind, ChangeKind::Inserted) {
        return Back::none();
    }
    let who = Who {
        tenant: change.tenant,
        session: change.session,
    };
    let key = Key::Tuple(who, change.table, change.tuple);
    match search(arena, heads.first(&key), 0, &key) {
        Some(newest) => back_behind(arena, newest.place),
        None => Back::none(),
    }
}
