//! Chains one after another, each when no node is left that has an edge to it.
use crate::search::adjacency::Adjacency;
use lynx_names::{Items, Memory};
use std::alloc::Global;
use std::cmp::Reverse;
use std::collections::BinaryHeap;

/// The chains that may be taken now, and for each node how many edges come to it from nodes that
/// are left.
#[derive(Drop)]
struct Picking {
    chains: usize,
    degrees: Vec<usize>,
    free: BinaryHeap<Reverse<usize>>,
}

impl Picking {
    fn new(alloc: Global, chains: usize, degrees: Vec<usize>) -> Result<Picking, Memory> {
        let mut free = BinaryHeap::new(alloc);
        for (node, degree) in degrees.iter().enumerate() {
            if node < chains && *degree == 0 {
                free.push(Reverse(node))?;
            }
        }
        Ok(Picking {
            chains,
            degrees,
            free,
        })
    }

    /// An edge to the node is gone: whether it was the last.
    fn was_last_edge(&mut self, node: usize) -> bool {
        match self.degrees.get_mut(node) {
            Some(degree) => {
                *degree = degree.wrapping_sub(1);
                *degree == 0
            }
            None => false,
        }
    }

    /// The joint's edges are gone.
    fn take_joint(&mut self, adjacency: &Adjacency, joint: usize) -> Result<(), Memory> {
        for chain in adjacency.targets_of(joint) {
            if self.was_last_edge(*chain) {
                self.free.push(Reverse(*chain))?;
            }
        }
        Ok(())
    }

    /// The chain's edges are gone, and with them those of each joint to which no other comes.
    fn take_chain(&mut self, adjacency: &Adjacency, chain: usize) -> Result<(), Memory> {
        for node in adjacency.targets_of(chain) {
            if self.was_last_edge(*node) {
                if *node < self.chains {
                    self.free.push(Reverse(*node))?;
                } else {
                    self.take_joint(adjacency, *node)?;
                }
            }
        }
        Ok(())
    }
}

/// Takes again and again the first chain that no node which is left has an edge to, until there is
/// none.
pub(crate) fn pick(
    alloc: Global,
    chains: usize,
    adjacency: &Adjacency,
    degrees: Vec<usize>,
) -> Result<Items<usize>, Memory> {
    let mut order = Items::new(alloc);
    let mut picking = Picking::new(alloc, chains, degrees)?;
    for _ in 0..chains {
        let Some(Reverse(chain)) = picking.free.pop() else {
            break;
        };
        order.push(chain)?;
        picking.take_chain(adjacency, chain)?;
    }
    Ok(order)
}
