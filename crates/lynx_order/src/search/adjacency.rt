//! Which nodes an edge goes to from each node, and how many come to it.
use crate::search::edges::{Edge, Edges};
use lynx_names::Memory;
use std::alloc::Global;

/// The targets of all edges, those from one node beside each other.
#[derive(Drop)]
pub(crate) struct Adjacency {
    /// For each node where its targets begin, and at the end where the last ones end.
    starts: Vec<usize>,
    targets: Vec<usize>,
}

/// One more at that place.
fn count_one(counts: &mut [usize], place: usize) {
    if let Some(count) = counts.get_mut(place) {
        *count = count.wrapping_add(1);
    }
}

/// For each node how many edges go to it.
pub(crate) fn degrees_of(alloc: Global, edges: &Edges) -> Result<Vec<usize>, Memory> {
    let mut degrees = vec![in alloc; 0; edges.nodes]?;
    for edge in &edges.edges {
        count_one(&mut degrees, edge.to);
    }
    Ok(degrees)
}

/// For each node where the targets of its edges begin, if those of one node stand beside each
/// other; and one more.
fn starts_of(alloc: Global, edges: &Edges) -> Result<Vec<usize>, Memory> {
    let mut starts = vec![in alloc; 0; edges.nodes.saturating_add(2)]?;
    for edge in &edges.edges {
        count_one(&mut starts, edge.from.saturating_add(2));
    }
    let mut sum: usize = 0;
    for start in starts.iter_mut() {
        sum = sum.wrapping_add(*start);
        *start = sum;
    }
    Ok(starts)
}

/// Puts the edge's target at the next place of its node.
fn place_target(starts: &mut [usize], targets: &mut [usize], edge: Edge) {
    if let Some(next) = starts.get_mut(edge.from.saturating_add(1)) {
        if let Some(target) = targets.get_mut(*next) {
            *target = edge.to;
        }
        *next = next.wrapping_add(1);
    }
}

impl Adjacency {
    pub(crate) fn of(alloc: Global, edges: &Edges) -> Result<Adjacency, Memory> {
        let mut starts = starts_of(alloc, edges)?;
        let mut targets = vec![in alloc; 0; edges.edges.len()]?;
        for edge in edges.edges.iter().copied() {
            place_target(&mut starts, &mut targets, edge);
        }
        Ok(Adjacency { starts, targets })
    }

    /// The nodes to which an edge goes from that one.
    pub(crate) fn targets_of(&self, node: usize) -> &[usize] {
        let from = self.starts.get(node).copied();
        let to = self.starts.get(node.saturating_add(1)).copied();
        match (from, to) {
            (Some(from), Some(to)) => self.targets.get(from..to).unwrap_or(&[]),
            _ => &[],
        }
    }
}
