//! The graph of a tenant's rules.

use crate::nodes::Nodes;

/// Which rules may trigger which, and which precede which: for each rule, by its place, the places of others.
pub struct Graph {
    pub triggers: Vec<Nodes>,
    pub precedes: Vec<Nodes>,
}

impl Drop for Graph {
    fn drop(self) {
        let Self {
            triggers: _,
            precedes: _,
        } = self;
    }
}

impl Graph {
    /// True if there is an arrow from one place to another.
    pub(crate) fn has(arrows: &[Nodes], from: usize, to: usize) -> bool {
        match arrows.get(from) {
            Some(nodes) => nodes.has(to),
            None => false,
        }
    }
}

/// For each node all that can be reached from it by one arrow or more.
pub(crate) fn add_paths(arrows: &mut Vec<Nodes>) {
    for between in 0..arrows.len() {
        if let Some(behind) = arrows.get(between) {
            let behind = *behind;
            add_behind(arrows, between, &behind);
        }
    }
}

/// Whoever reaches the node between also reaches what is behind it.
fn add_behind(arrows: &mut Vec<Nodes>, between: usize, behind: &Nodes) {
    for nodes in arrows.iter_mut() {
        if nodes.has(between) {
            nodes.add_all(behind);
        }
    }
}
