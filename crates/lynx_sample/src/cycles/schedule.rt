//! An order of the hops of some chains.
use crate::cycles::draft::{Draft, HopOf};
use crate::cycles::facts::Facts;
use crate::cycles::pool::bit;
use lynx_names::Memory;
use lynx_names::limits::MAX_HOPS;
use std::alloc::Global;

/// For each hop of a draft the hops that have to be done before it, by a bit for each place: a
/// chain has as many places as a program may have hops.
#[derive(Drop)]
struct Waits {
    masks: Vec<u128>,
}

/// The hops of the draft's chains in an order in which each conflict goes its way, and the chains
/// of an origin take turns as they began. None where there is no such order. Begins come as late as
/// they may.
pub(crate) fn schedule(
    alloc: Global,
    facts: &Facts<'_>,
    draft: &Draft,
) -> Result<Option<Vec<HopOf>>, Memory> {
    let waits = Waits::of(alloc, facts, draft)?;
    let mut order = Vec::new(alloc);
    let mut done = 0;
    for program in draft.chains.iter() {
        for _ in 0..facts.hops(*program) {
            let Some(place) = waits.next(done) else {
                return Ok(None);
            };
            done |= bit(place);
            order.push(HopOf {
                chain: place / MAX_HOPS,
                hop: place % MAX_HOPS,
            })?;
        }
    }
    Ok(Some(order))
}

fn place_of(chain: usize, hop: usize) -> usize {
    chain.saturating_mul(MAX_HOPS).saturating_add(hop)
}

impl Waits {
    fn of(alloc: Global, facts: &Facts<'_>, draft: &Draft) -> Result<Waits, Memory> {
        let mut masks = Vec::new(alloc);
        for program in draft.chains.iter() {
            for hop in 0..MAX_HOPS {
                // A place that no hop has waits for itself.
                let has_hop = hop < facts.hops(*program);
                masks.push(if has_hop { 0 } else { bit(masks.len()) })?;
            }
        }
        let mut waits = Waits { masks };
        for (chain, program) in draft.chains.iter().enumerate() {
            for hop in 1..facts.hops(*program) {
                waits.add(place_of(chain, hop.saturating_sub(1)), place_of(chain, hop));
            }
        }
        for (chain, joint) in draft.joints.iter().enumerate() {
            let first = place_of(chain, joint.left_hop);
            waits.add(first, place_of(draft.next(chain), joint.hop));
        }
        for (place, second) in draft.begins.iter().enumerate() {
            for first in draft.begins.iter().take(place) {
                waits.add_turns(facts, draft, *first, *second);
            }
        }
        Ok(waits)
    }

    /// The first hop has to be done before the second, by their places.
    fn add(&mut self, first: usize, second: usize) {
        if let Some(mask) = self.masks.get_mut(second) {
            *mask |= bit(first);
        }
    }

    /// The first chain is through at each server before the second acts there, where they are of
    /// one origin.
    fn add_turns(&mut self, facts: &Facts<'_>, draft: &Draft, first: usize, second: usize) {
        let one = facts.program(draft.program(first));
        let other = facts.program(draft.program(second));
        if let (Some(one), Some(other)) = (one, other) {
            if one.origin() == other.origin() {
                for (hop, server) in one.servers.iter().enumerate() {
                    if let Some(later) = other.first_at(*server) {
                        self.add(place_of(first, hop), place_of(second, later));
                    }
                }
            }
        }
    }

    /// The hop that is next: of those that may be, one that is no begin if there is.
    fn next(&self, done: u128) -> Option<usize> {
        let mut begin = None;
        for (place, mask) in self.masks.iter().enumerate() {
            if *mask & !done == 0 && done & bit(place) == 0 {
                if place % MAX_HOPS != 0 {
                    return Some(place);
                }
                begin = begin.or(Some(place));
            }
        }
        begin
    }
}
