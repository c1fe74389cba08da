//! Where the nodes of a graph stand: in layers, each behind those whose arrows lead to it. The nodes of a cycle stand in
//! one layer.

use crate::graph::{Graph, add_paths};
use crate::nodes::Nodes;
use std::alloc::{AllocError, Global};

/// The layer of a node, its row there, and whether a path leads from it to itself.
#[derive(Clone, Copy)]
pub(crate) struct NodePlace {
    pub(crate) layer: u64,
    pub(crate) row: u64,
    pub(crate) is_on_cycle: bool,
}

/// The places of all nodes, and the nodes that each can reach.
#[derive(Drop)]
pub(crate) struct Layout {
    pub(crate) places: Vec<NodePlace>,
    pub(crate) reach: Vec<Nodes>,
}

impl Layout {
    /// Puts each node behind the longest path that leads to it and that it is on no cycle with.
    pub(crate) fn of(alloc: Global, arrows: &[Nodes]) -> Result<Layout, AllocError> {
        let mut reach = arrows.to_vec(alloc)?;
        add_paths(&mut reach);
        let ahead = all_ahead(alloc, reach.as_slice())?;
        let layers = layers_of(alloc, ahead.as_slice())?;
        let places = places_of(alloc, layers.as_slice(), reach.as_slice())?;
        Ok(Layout { places, reach })
    }

    /// True if a path leads from one node to the other.
    pub(crate) fn reaches(&self, from: usize, to: usize) -> bool {
        Graph::has(self.reach.as_slice(), from, to)
    }
}

/// For each node those that reach it and that it doesn't reach.
fn all_ahead(alloc: Global, reach: &[Nodes]) -> Result<Vec<Nodes>, AllocError> {
    let mut all = Vec::new(alloc);
    for (node, behind) in reach.iter().enumerate() {
        all.push(ahead_of(reach, node, behind))?;
    }
    Ok(all)
}

fn ahead_of(reach: &[Nodes], node: usize, behind: &Nodes) -> Nodes {
    let mut ahead = Nodes::none();
    for (other, reached) in reach.iter().enumerate() {
        if reached.has(node) && !behind.has(other) {
            ahead.add(other);
        }
    }
    ahead
}

/// The layer of each node. What is ahead of a node has fewer nodes ahead, so their layers are known before its own.
fn layers_of(alloc: Global, ahead: &[Nodes]) -> Result<Vec<u64>, AllocError> {
    let mut layers = vec![in alloc; 0u64; ahead.len()]?;
    for count in 0..ahead.len() {
        for (node, nodes) in ahead.iter().enumerate() {
            if nodes.count() == count as u64 {
                put_behind(&mut layers, node, nodes);
            }
        }
    }
    Ok(layers)
}

/// Puts a node into the layer behind those that are ahead of it.
fn put_behind(layers: &mut Vec<u64>, node: usize, ahead: &Nodes) {
    let mut behind: u64 = 0;
    for (other, layer) in layers.as_slice().iter().enumerate() {
        if ahead.has(other) {
            behind = behind.max(layer.saturating_add(1));
        }
    }
    if let Some(layer) = layers.get_mut(node) {
        *layer = behind;
    }
}

/// The place of each node, in the next row of its layer.
fn places_of(alloc: Global, layers: &[u64], reach: &[Nodes]) -> Result<Vec<NodePlace>, AllocError> {
    let mut heights = vec![in alloc; 0u64; layers.len()]?;
    let mut places = Vec::new(alloc);
    for (node, layer) in layers.iter().enumerate() {
        places.push(NodePlace {
            layer: *layer,
            row: next_row(&mut heights, *layer),
            is_on_cycle: Graph::has(reach, node, node),
        })?;
    }
    Ok(places)
}

fn next_row(heights: &mut Vec<u64>, layer: u64) -> u64 {
    match heights.get_mut(layer as usize) {
        Some(height) => {
            let row = *height;
            *height = row.saturating_add(1);
            row
        }
        None => 0,
    }
}
