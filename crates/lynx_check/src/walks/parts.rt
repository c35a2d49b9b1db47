//! The parts of a map: hops of one program are in one part, and so are hops that may conflict.
use crate::walks::map::{Map, Node};
use crate::walks::row::Row;
use lynx_names::Memory;
use std::alloc::Global;

impl Map {
    /// The hops of its program, and those with which it may conflict.
    fn around(&self, node: &Node) -> Row {
        let mut around = self.hops_of(node.program);
        around.add(&node.meets);
        around
    }

    /// The hops that can be reached from the hop.
    fn part_of(&self, place: usize) -> Row {
        let mut part = Row::only(place);
        let mut fresh = part;
        for _ in 0..self.nodes.len() {
            let Some(node) = fresh.take_first().and_then(|next| self.node(next)) else {
                break;
            };
            let mut more = self.around(node);
            more.remove(&part);
            part.add(&more);
            fresh.add(&more);
        }
        part
    }

    /// For each hop the first hop of its part.
    pub(crate) fn parts(&self, alloc: Global) -> Result<Vec<usize>, Memory> {
        let mut parts = Vec::new(alloc);
        for place in 0..self.nodes.len() {
            parts.push(place)?;
        }
        let mut rest = Row::none();
        for place in 0..self.nodes.len() {
            rest.insert(place);
        }
        for _ in 0..self.nodes.len() {
            let Some(first) = rest.take_first() else {
                break;
            };
            let part = self.part_of(first);
            rest.remove(&part);
            name(parts.as_mut_slice(), part, first);
        }
        Ok(parts)
    }
}

/// Gives the hops of the row that name.
fn name(parts: &mut [usize], part: Row, first: usize) {
    let mut rest = part;
    for _ in 0..part.count() {
        if let Some(place) = rest.take_first() {
            if let Some(part) = parts.get_mut(place) {
                *part = first;
            }
        }
    }
}
