use crate::search::adjacency::{Adjacency, degrees_of};
use crate::search::candidate::Candidate;
use crate::search::nearest::predecessors;
use crate::search::picking::pick;
use crate::search::round::cycle_from;
use crate::search::stretches::edges_of;
use crate::search::touched::ChainTouch;
use lynx_names::{Items, Memory};
use std::alloc::Global;

/// A mark for each chain that isn't in the order.
fn left_of(alloc: Global, chains: usize, order: &[usize]) -> Result<Vec<bool>, Memory> {
    let mut is_left = vec![in alloc; true; chains]?;
    for chain in order {
        if let Some(mark) = is_left.get_mut(*chain) {
            *mark = false;
        }
    }
    Ok(is_left)
}

/// The order that a search through all edges takes.
fn order_of(alloc: Global, chains: usize, touches: &[ChainTouch]) -> Result<Items<usize>, Memory> {
    let edges = edges_of(alloc, chains, touches)?;
    let degrees = degrees_of(alloc, &edges)?;
    let adjacency = Adjacency::of(alloc, &edges)?;
    pick(alloc, chains, &adjacency, degrees)
}

/// An order of so many chains, or a cycle among them. The touches are in order of their cells,
/// those of one cell in order of the list.
///
/// The order takes again and again the first chain that none which is left precedes. Where there is
/// none, the cycle is found from the first chain that is left, going again and again to the first
/// among those that are left and precede it; it begins with its first chain.
///
/// For n chains and t touches it takes time for n log n + t steps, and at most some 200 bytes for
/// each touch and chain.
pub(crate) fn search(
    alloc: Global,
    chains: usize,
    touches: &[ChainTouch],
) -> Result<Candidate, Memory> {
    let order = order_of(alloc, chains, touches)?;
    let is_left = left_of(alloc, chains, order.as_slice())?;
    match is_left.iter().position(|is_left| *is_left) {
        None => Ok(Candidate::Order(order)),
        Some(start) => {
            let before = predecessors(alloc, touches, is_left.as_slice())?;
            let links = cycle_from(alloc, before.as_slice(), start)?;
            Ok(Candidate::Cycle(links))
        }
    }
}
