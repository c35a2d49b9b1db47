//! The conflict edges of worked sets.
use lynx_fixtures::texts::{PAY_AND_NOTE, TRIP, set_of};
use lynx_graph::{Edge, conflict_edges};
use lynx_names::Memory;
use std::alloc::Global;

/// An edge by numbers: the left program and hop, and the right ones.
type Numbers = (u8, usize, u8, usize);

fn numbers_of(edge: &Edge) -> Numbers {
    let left = &edge.left;
    let right = &edge.right;
    (
        left.program.number(),
        left.hop,
        right.program.number(),
        right.hop,
    )
}

/// Whether these are the edges, in that order.
fn are_edges(alloc: Global, text: &str, want: &[Numbers]) -> Result<bool, Memory> {
    let set = set_of(alloc, text)?;
    let edges = conflict_edges(alloc, &set)?;
    for (edge, want) in edges.iter().zip(want) {
        if numbers_of(edge) != *want {
            return Ok(false);
        }
    }
    Ok(edges.len() == want.len())
}

const EDGES: &[(&str, &[Numbers])] = &[(PAY_AND_NOTE, &[(0, 0, 0, 0), (0, 1, 1, 0)]), (TRIP, &[])];

#[test]
fn edges_of_worked_sets(rt: HostRuntime) {
    for &(text, edges) in EDGES {
        assert!(rt; are_edges(rt.alloc(), text, edges) == Ok(true), "{text}");
    }
}
