//! The hops of a set, each with the row of those with which it may conflict.
use crate::walks::row::Row;
use lynx_graph::nodes;
use lynx_names::{Memory, ProgramId, ServerId};
use std::alloc::Global;

/// A hop, and what a search asks of it.
#[derive(Clone, Copy, Debug)]
pub(crate) struct Node {
    pub program: ProgramId,
    pub hop: usize,
    pub origin: Option<ServerId>,
    /// The hops with which it may conflict.
    pub meets: Row,
}

/// The hops of a set, named by their places in its list of hops.
#[derive(Debug, Drop)]
pub(crate) struct Map {
    pub nodes: Vec<Node>,
    /// The hops of each program, by its number.
    pub programs: Vec<Row>,
}

impl Map {
    /// The map of these hops, which are all of the set's, in its order.
    pub(crate) fn of(alloc: Global, hops: &[nodes::Node]) -> Result<Map, Memory> {
        let mut map = Map {
            nodes: Vec::new(alloc),
            programs: Vec::new(alloc),
        };
        for hop in hops {
            map.add(hop)?;
        }
        Ok(map)
    }

    /// Adds the next hop.
    fn add(&mut self, hop: &nodes::Node) -> Result<(), Memory> {
        let place = self.nodes.len();
        let program = hop.place.program;
        let mut meets = Row::none();
        for neighbour in hop.neighbours.as_slice() {
            meets.insert(*neighbour);
        }
        self.nodes.push(Node {
            program,
            hop: hop.place.hop,
            origin: hop.origin,
            meets,
        })?;
        for _ in self.programs.len()..=program.index() {
            self.programs.push(Row::none())?;
        }
        if let Some(hops) = self.programs.get_mut(program.index()) {
            hops.insert(place);
        }
        Ok(())
    }

    pub(crate) fn node(&self, place: usize) -> Option<&Node> {
        self.nodes.as_slice().get(place)
    }

    /// The hops of that program.
    pub(crate) fn hops_of(&self, program: ProgramId) -> Row {
        match self.programs.as_slice().get(program.index()) {
            Some(hops) => *hops,
            None => Row::none(),
        }
    }
}
