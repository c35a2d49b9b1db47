//! The checker beside a plain enumeration of all walks of a few visits.
use crate::checker::small::small_set;
use crate::checker::walks::{given, judged};
use lynx_graph::{Visit, Walk, walk_holds};
use lynx_names::{Memory, ProgramId};
use lynx_set::ChainSet;
use std::alloc::Global;

fn push_visits(visits: &mut Vec<Visit>, program: ProgramId, hops: usize) -> Result<(), Memory> {
    for entered in 0..hops {
        for left in 0..hops {
            visits.push(Visit {
                program,
                entered,
                left,
            })?;
        }
    }
    Ok(())
}

/// Each visit that the programs allow.
fn all_visits(alloc: Global, set: &ChainSet) -> Result<Vec<Visit>, Memory> {
    let mut visits = Vec::new(alloc);
    for number in 0..3u8 {
        let program = ProgramId::new(number).ok_or(Memory)?;
        let hops = set.program(program).map_or(0, |found| found.hops.len());
        push_visits(&mut visits, program, hops)?;
    }
    Ok(visits)
}

/// The walk of a number, read in base of how many visits there are.
fn walk_of(alloc: Global, visits: &[Visit], number: usize, length: usize) -> Result<Walk, Memory> {
    let mut rest = number;
    let mut walk = Walk::new(alloc);
    for _ in 0..length {
        let place = rest.checked_rem(visits.len()).unwrap_or(0);
        if let Some(visit) = visits.get(place) {
            walk.push(*visit)?;
        }
        rest = rest.checked_div(visits.len()).unwrap_or(0);
    }
    Ok(walk)
}

/// The conflict edge of a visit: program, hop left, next program, hop entered.
fn edge(walk: &[Visit], place: usize) -> Option<[usize; 4]> {
    let visit = walk.get(place)?;
    let next = walk.get(place.saturating_add(1)).or(walk.first())?;
    Some([
        visit.program.index(),
        visit.left,
        next.program.index(),
        next.entered,
    ])
}

/// Whether the edges of a walk come before those of another of the same length.
fn comes_first(left: &[Visit], right: &[Visit]) -> bool {
    for place in 0..left.len() {
        let (left, right) = (edge(left, place), edge(right, place));
        if left != right {
            return left < right;
        }
    }
    false
}

/// Makes the walk of that number the best one, if it offends and the best one so far does not come
/// first.
fn try_walk(
    alloc: Global,
    set: &ChainSet,
    visits: &[Visit],
    (number, length): (usize, usize),
    best: &mut Walk,
) -> Result<(), Memory> {
    let walk = walk_of(alloc, visits, number, length)?;
    if walk_holds(set, &walk)
        && (best.is_empty() || comes_first(walk.as_slice(), best.as_slice()))
    {
        *best = walk;
    }
    Ok(())
}

/// The least walk of so many visits that offends, by trying all. It is empty where there is none.
fn least(alloc: Global, set: &ChainSet, visits: &[Visit], length: usize) -> Result<Walk, Memory> {
    let mut best = Walk::new(alloc);
    for number in 0..power(visits.len(), length) {
        try_walk(alloc, set, visits, (number, length), &mut best)?;
    }
    Ok(best)
}

fn power(base: usize, exponent: usize) -> usize {
    let mut power: usize = 1;
    for _ in 0..exponent {
        power = power.saturating_mul(base);
    }
    power
}

/// Whether the least walk of so many visits is given. There is no answer where none of them
/// offends.
fn is_least(
    alloc: Global,
    set: &ChainSet,
    visits: &[Visit],
    length: usize,
    given: &[Visit],
) -> Result<Option<bool>, Memory> {
    let least = least(alloc, set, visits, length)?;
    if least.is_empty() {
        return Ok(None);
    }
    Ok(Some(least.as_slice() == given))
}

/// Whether the walk that is given is the one that comes of trying all, as far as these can be
/// tried.
fn is_right(
    alloc: Global,
    set: &ChainSet,
    visits: &[Visit],
    given: &[Visit],
) -> Result<bool, Memory> {
    for length in 2..5usize {
        if power(visits.len(), length) > 20_000 {
            return Ok(given.is_empty() || given.len() >= length);
        }
        if let Some(is_least) = is_least(alloc, set, visits, length, given)? {
            return Ok(is_least);
        }
    }
    Ok(given.is_empty() || given.len() >= 5)
}

fn is_judged_right(alloc: Global, set: &ChainSet) -> Result<bool, Memory> {
    let visits = all_visits(alloc, set)?;
    let verdict = judged(alloc, set)?;
    is_right(alloc, set, visits.as_slice(), given(&verdict))
}

/// Whether the small set of a seed is judged as it is by trying all walks.
fn agrees(alloc: Global, seed: u64) -> Result<bool, Memory> {
    let set = small_set(alloc, seed)?;
    is_judged_right(alloc, &set)
}

#[test]
fn trying_all_walks_agrees(rt: HostRuntime) {
    for seed in 0..3_000u64 {
        assert!(rt; agrees(rt.alloc(), seed) == Ok(true), "{seed}");
    }
}
