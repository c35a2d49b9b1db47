//! The hops of a set, and which two of them may conflict.
ghost use Rattle.std.specs.Prelude.{◌≡◌, ◌++◌, All, IfOk, OnOk};
ghost use Rattle.lynx_graph.specs.Edges.{HasConflicts, IsConflict, edges_from, edges_of};

use crate::meeting::{Place, joins};
use crate::nodes::places_of;
use lynx_names::{Items, Memory};
use lynx_set::ChainSet;
use std::alloc::Global;

/// Two hops of a set that may conflict, the left one not after the right one by program and then by
/// hop. Both may be one hop, which two instances of its program run.
#[derive(Clone, Copy, Debug, PartialEq, Eq)]
pub struct Edge {
    pub left: Place,
    pub right: Place,
}

/// Adds the edges from a hop to those of the others that it may conflict with.
fn add_edges(
    set: &ChainSet,
    left: &Place,
    others: &[Place],
    edges: &mut Items<Edge>,
) -> Result<(), Memory>
    ensures { OnOk result (edges.new ≡ edges.old ++ edges_from set.now left.now others.now) }
{
    for right in others {
        if joins(set, left, right) {
            edges.push(Edge {
                left: *left,
                right: *right,
            })?;
        }
    }
    Ok(())
}

/// All pairs of hops of the set that may conflict.
fn edges_of(alloc: Global, set: &ChainSet) -> Result<Items<Edge>, Memory>
    ensures { IfOk result (λ edges. edges ≡ edges_of set.now) }
{
    let all = places_of(alloc, set)?;
    let places = all.as_slice();
    let mut edges = Items::new(alloc);
    for (number, left) in places.iter().enumerate() {
        add_edges(set, left, &places[number..], &mut edges)?;
    }
    Ok(edges)
}

/// All pairs of hops of the set that may conflict, each pair once and in order. Its cost grows with
/// the square of the count of hops.
pub fn conflict_edges(alloc: Global, set: &ChainSet) -> Result<Vec<Edge>, Memory>
    ensures exact { IfOk result (λ edges. edges.items ≡ edges_of set.now) }
    ensures conflicts { IfOk result (λ edges. All (IsConflict set.now) edges.items) }
    ensures complete { IfOk result (λ edges. HasConflicts set.now edges.items) }
{
    let edges = edges_of(alloc, set)?;
    Ok(edges.into_vec())
}
