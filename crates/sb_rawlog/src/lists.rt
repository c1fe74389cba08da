//! One code for all lists: `list` says which link of a node it follows.
ghost use Rattle.std.specs.Prelude.{◌≡◌, ◌≢◌, ℕ, ◌<◌, List, Option, Some, None, length, get_or, slice_set, slice_index_or};
ghost use Rattle.sb_rawlog.specs.Links.{link, link_of, with_link, relinked, IsNode, IsInList, LeavesList};

use crate::node::{Links, Node, Which};
use sb_arena::Arena;

impl Links {
    /// The link of the list.
    pub(crate) fn get(self, list: Which) -> Option<usize>
        ensures { result ≡ link_of list self }
    {
        match list {
            Which::Op => self.op,
            Which::Tuple => self.tuple,
            Which::Session => self.session,
        }
    }

    fn with(self, list: Which, to: Option<usize>) -> Links
        ensures { result ≡ with_link list to self }
    {
        match list {
            Which::Op => Links { op: to, ..self },
            Which::Tuple => Links { tuple: to, ..self },
            Which::Session => Links {
                session: to,
                ..self
            },
        }
    }
}

/// The next older place of the list.
pub(crate) fn link<T>(arena: &Arena<Node<T>>, list: Which, place: usize) -> Option<usize>
    requires { IsNode arena.now place }
    ensures { result ≡ link list arena.now place }
{
    match arena.get(place) {
        Some(node) => node.links.get(list),
        None => None,
    }
}

/// Sets the next older place of the list.
fn set_link<T>(arena: &mut Arena<Node<T>>, list: Which, place: usize, to: Option<usize>)
    requires { IsNode arena.old place }
    ensures places { arena.new ≡ relinked list place to arena.old }
    ensures link { link list arena.new place ≡ to }
{
    let mut node = arena.take(place);
    node.links = node.links.with(list, to);
    arena.put(place, node);
}

/// Takes the place out of the list that begins at `head`, and returns where the list begins then.
#[inline(always)]
pub(crate) fn unlink<T>(
    arena: &mut Arena<Node<T>>,
    list: Which,
    head: Option<usize>,
    place: usize,
) -> Option<usize>
    requires { IsInList list arena.old head place }
    ensures { LeavesList list arena.old arena.new head result place }
{
    let Some(first) = head else {
        return None;
    };
    if first == place {
        return link(arena, list, place);
    }
    unlink_behind(arena, list, first, place);
    head
}

/// Takes the place out of the list that begins at another one.
#[inline(never)]
fn unlink_behind<T>(arena: &mut Arena<Node<T>>, list: Which, first: usize, place: usize)
    requires within { IsInList list arena.old (Some first) place }
    requires behind { first ≢ place }
    ensures { LeavesList list arena.old arena.new (Some first) (Some first) place }
{
    let after = link(arena, list, place);
    let mut at = first;
    'steps: loop {
        let Some(next) = link(arena, list, at) else {
            return;
        };
        if next == place {
            set_link(arena, list, at, after);
            return;
        }
        at = next;
    }
}
