//! The cycle to which the way back from a chain comes.
use crate::search::candidate::Link;
use crate::search::nearest::Predecessor;
use lynx_names::{Items, Memory};
use std::alloc::Global;

/// The chain before that one, itself where there is none.
fn step_back(before: &[Option<Predecessor>], chain: usize) -> usize {
    match before.get(chain) {
        Some(Some(found)) => found.chain,
        _ => chain,
    }
}

/// A chain of the cycle: after as many steps as there are chains the way is on it.
fn on_cycle(before: &[Option<Predecessor>], start: usize) -> usize {
    let mut chain = start;
    for _ in 0..before.len() {
        chain = step_back(before, chain);
    }
    chain
}

/// The first chain of the cycle that the chain is on.
fn first_of_cycle(before: &[Option<Predecessor>], start: usize) -> usize {
    let mut first = start;
    let mut chain = start;
    for _ in 0..before.len() {
        chain = step_back(before, chain);
        if chain == start {
            break;
        }
        first = first.min(chain);
    }
    first
}

/// The cycle, each chain before the next, which begins with its first chain.
pub(crate) fn cycle_from(
    alloc: Global,
    before: &[Option<Predecessor>],
    start: usize,
) -> Result<Items<Link>, Memory> {
    let first = first_of_cycle(before, on_cycle(before, start));
    let mut links = Vec::new(alloc);
    let mut chain = first;
    for _ in 0..before.len() {
        let Some(Some(found)) = before.get(chain) else {
            break;
        };
        links.push(Link {
            chain: found.chain,
            own: found.own,
            next: found.next,
        })?;
        chain = found.chain;
        if chain == first {
            break;
        }
    }
    links.reverse();
    Ok(Items::from_vec(links))
}
