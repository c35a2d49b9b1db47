use lynx_names::Memory;
use std::alloc::Global;

/// The one node has to be taken before the other.
#[derive(Clone, Copy)]
pub(crate) struct Edge {
    pub from: usize,
    pub to: usize,
}

/// Edges between nodes: the chains, and behind them joints, through which many edges go as one.
#[derive(Drop)]
pub(crate) struct Edges {
    pub nodes: usize,
    pub edges: Vec<Edge>,
}

impl Edges {
    pub(crate) fn new(alloc: Global, chains: usize) -> Edges {
        Edges {
            nodes: chains,
            edges: Vec::new(alloc),
        }
    }

    /// A new node.
    pub(crate) fn add_joint(&mut self) -> usize {
        let joint = self.nodes;
        self.nodes = self.nodes.saturating_add(1);
        joint
    }

    /// Adds an edge, but none from a node to itself.
    pub(crate) fn add(&mut self, from: usize, to: usize) -> Result<(), Memory> {
        if from != to {
            self.edges.push(Edge { from, to })?;
        }
        Ok(())
    }
}
