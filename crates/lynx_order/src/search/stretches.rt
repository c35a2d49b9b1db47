//! Stretches of touches of one cell that commute with each other. Each stretch precedes the one
//! behind it, and through that one all that come after, so edges between neighbours say all.
use crate::search::edges::Edges;
use crate::search::touched::ChainTouch;
use lynx_names::Memory;
use std::alloc::Global;
use std::mem;

/// The numbers of the last two stretches that a chain is in, from 1; 0 for none.
#[derive(Clone, Copy)]
struct Seen {
    last: usize,
    before: usize,
}

/// The stretch that is read and the one before it in the same cell, each chain once.
#[derive(Drop)]
struct Stretches {
    number: usize,
    earlier: Vec<usize>,
    later: Vec<usize>,
    seen: Vec<Seen>,
}

impl Stretches {
    fn new(alloc: Global, chains: usize) -> Result<Stretches, Memory> {
        Ok(Stretches {
            number: 1,
            earlier: Vec::new(alloc),
            later: Vec::new(alloc),
            seen: vec![in alloc; Seen { last: 0, before: 0 }; chains]?,
        })
    }

    /// The touch of a chain belongs to the stretch.
    fn add(&mut self, chain: usize) -> Result<(), Memory> {
        let Some(seen) = self.seen.get_mut(chain) else {
            return Ok(());
        };
        if seen.last != self.number {
            seen.before = seen.last;
            seen.last = self.number;
            self.later.push(chain)?;
        }
        Ok(())
    }

    /// Whether the chain is in both stretches.
    fn is_shared(&self, chain: usize) -> bool {
        match self.seen.get(chain) {
            Some(seen) => { seen.last == self.number && seen.before == self.number.wrapping_sub(1) }
            None => false,
        }
    }

    /// The node through which the edges go from all of the earlier stretch to all of the later: a
    /// chain that is in both, the only one of either, or a joint.
    fn hub(&self, edges: &mut Edges) -> Option<usize> {
        let shared = self
            .earlier
            .iter()
            .copied()
            .find(|chain| self.is_shared(*chain));
        match (shared, self.earlier.as_slice(), self.later.as_slice()) {
            (Some(chain), _, _) => Some(chain),
            (None, [], _) | (None, _, []) => None,
            (None, [chain], _) | (None, _, [chain]) => Some(*chain),
            (None, _, _) => Some(edges.add_joint()),
        }
    }

    /// Chains that are in both stretches precede each other: edges around all of them.
    fn join_shared(&self, edges: &mut Edges, first: usize) -> Result<(), Memory> {
        let mut last = first;
        for chain in self.earlier.iter().copied() {
            if self.is_shared(chain) {
                edges.add(last, chain)?;
                last = chain;
            }
        }
        edges.add(last, first)
    }

    /// Adds the edges from the earlier stretch to the later.
    fn join(&self, edges: &mut Edges) -> Result<(), Memory> {
        let Some(hub) = self.hub(edges) else {
            return Ok(());
        };
        for chain in self.earlier.iter().copied() {
            if !self.is_shared(chain) {
                edges.add(chain, hub)?;
            }
        }
        for chain in self.later.iter().copied() {
            if !self.is_shared(chain) {
                edges.add(hub, chain)?;
            }
        }
        if self.is_shared(hub) {
            self.join_shared(edges, hub)?;
        }
        Ok(())
    }

    /// A stretch begins: behind the one that was read, or the first of a cell.
    fn begin(&mut self, is_first: bool) {
        mem::swap(&mut self.earlier, &mut self.later);
        self.later.clear();
        if is_first {
            self.earlier.clear();
        }
        self.number = self.number.wrapping_add(1);
    }
}

/// The edges between the chains that touched each cell. The touches are in order of their cells,
/// those of one cell in order of the list. At most three edges for each touch.
pub(crate) fn edges_of(
    alloc: Global,
    chains: usize,
    touches: &[ChainTouch],
) -> Result<Edges, Memory> {
    let mut edges = Edges::new(alloc, chains);
    let mut stretches = Stretches::new(alloc, chains)?;
    let mut before: Option<&ChainTouch> = None;
    for touch in touches {
        let is_first = before.is_none_or(|before| before.cell() != touch.cell());
        let is_same = before.is_some_and(|before| before.touch.kind.commutes(touch.touch.kind));
        if is_first || !is_same {
            stretches.join(&mut edges)?;
            stretches.begin(is_first);
        }
        stretches.add(touch.chain)?;
        before = Some(touch);
    }
    stretches.join(&mut edges)?;
    Ok(edges)
}
