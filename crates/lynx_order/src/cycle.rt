//! A cycle among chains that are left, where none of them is free.
ghost use Rattle.std.specs.Prelude.{◌≡◌, ◌<◌, length, All, IfOk, IfSome};
ghost use Rattle.std.specs.List.{Contains};
ghost use Rattle.lynx_order.specs.Lists.{IsIn};
ghost use Rattle.lynx_order.specs.inner.Picks.{IsClosed, IsMarked, IsPart, IsRound, IsSquare, LeftBefore, NoneFree};

use crate::picks::predecessor;
use lynx_names::{Items, Memory};
use std::alloc::Global;

/// The first chain that is left and precedes that one.
fn step_back(table: &[Items<bool>], left: &[bool], place: usize) -> usize
    requires square { IsSquare table.now }
    requires whole { length left.now ≡ length table.now }
    requires none_free { NoneFree table.now left.now }
    requires is_left { IsMarked left.now place }
    ensures { LeftBefore table.now left.now result place }
{
    match predecessor(table, left, place) {
        Some(one) => one,
        None => place,
    }
}

/// A walk back, from predecessor to predecessor, until it comes to a chain that it has met: those
/// that it met, the newest first, and that chain.
#[derive(Drop)]
struct Trail {
    path: Items<usize>,
    current: usize,
}

fn walk_back(
    alloc: Global,
    table: &[Items<bool>],
    left: &[bool],
    start: usize,
) -> Result<Trail, Memory>
    requires square { IsSquare table.now }
    requires whole { length left.now ≡ length table.now }
    requires none_free { NoneFree table.now left.now }
    requires is_left { IsMarked left.now start }
    ensures { IfOk result (λ trail. IsClosed table.now left.now trail.path trail.current) }
{
    let mut fresh = vec![in alloc; true; table.len()]?;
    let mut path = Vec::new(alloc);
    let mut current = start;
    'back: while fresh[current] {
        fresh[current] = false;
        path.insert(0, current)?;
        current = step_back(table, left, current);
    }
    Ok(Trail {
        path: Items::from_vec(path),
        current,
    })
}

/// The chain that the walk came to, and those that it met after it.
fn part_of(alloc: Global, path: &[usize], current: usize) -> Result<Items<usize>, Memory>
    requires { IsIn current path.now }
    ensures { IfOk result (λ round. IsPart path.now current round) }
{
    let mut round = Items::new(alloc);
    round.push(current)?;
    for place in path {
        if *place == current {
            return Ok(round);
        }
        round.push(*place)?;
    }
    Ok(round)
}

/// The cycle to which the walk back from a chain comes, each chain before the next.
fn round_from(
    alloc: Global,
    table: &[Items<bool>],
    left: &[bool],
    start: usize,
) -> Result<Items<usize>, Memory>
    requires square { IsSquare table.now }
    requires whole { length left.now ≡ length table.now }
    requires none_free { NoneFree table.now left.now }
    requires is_left { IsMarked left.now start }
    ensures round { IfOk result (λ round. IsRound table.now round) }
    ensures all_left { IfOk result (λ round. All (IsMarked left.now) round) }
{
    let trail = walk_back(alloc, table, left, start)?;
    part_of(alloc, trail.path.as_slice(), trail.current)
}

fn least(round: &[usize]) -> Option<usize>
    ensures { IfSome result (Contains round.now) }
{
    round.iter().copied().min()
}

/// The cycle that is found, going from the chain of that place to the first predecessor that is
/// left, from there to its first, and so on. It begins with its first chain.
pub(crate) fn cycle_from(
    alloc: Global,
    table: &[Items<bool>],
    left: &[bool],
    start: usize,
) -> Result<Items<usize>, Memory>
    requires square { IsSquare table.now }
    requires whole { length left.now ≡ length table.now }
    requires none_free { NoneFree table.now left.now }
    requires is_left { IsMarked left.now start }
    ensures { IfOk result (λ round. IsRound table.now round) }
{
    let round = round_from(alloc, table, left, start)?;
    match least(round.as_slice()) {
        Some(first) => round_from(alloc, table, left, first),
        None => Ok(round),
    }
}
