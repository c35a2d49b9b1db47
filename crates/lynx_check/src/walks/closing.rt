//! From which arrivals a walk can be closed, level by level of further visits.
use crate::walks::map::{Map, Node};
use crate::walks::marks::{Marks, WAYS};
use crate::walks::row::Row;
use lynx_names::{Items, Memory};
use std::alloc::Global;

/// More levels than this add no mark: each adds one of four for each hop.
const MAX_LEVELS: usize = 2_048;

/// Arrivals that close the walk with no further visit: at a hop of the start's program, from
/// abroad, and at another hop than the start unless some visit crossed.
fn goals(map: &Map, start: &Node, place: usize) -> Marks {
    let mut goals = Marks::none();
    let home = map.hops_of(start.program);
    goals.at_mut(true, true).add(&home);
    goals.at_mut(false, true).add(&home);
    goals.at_mut(false, true).remove(&Row::only(place));
    goals
}

/// The hops that may conflict with a hop of the row.
fn meeting(map: &Map, row: &Row) -> Row {
    let mut met = Row::none();
    let mut rest = *row;
    for _ in 0..row.count() {
        let node = rest.take_first().and_then(|place| map.node(place));
        if let Some(node) = node {
            met.add(&node.meets);
        }
    }
    met
}

/// Hops by which a walk that leaves comes to a marked arrival.
fn leaving(map: &Map, arrivals: &Marks) -> Marks {
    let mut leaving = Marks::none();
    for (crossed, abroad) in WAYS {
        let row = arrivals.at(crossed, abroad);
        *leaving.at_mut(crossed, abroad) = meeting(map, row);
    }
    leaving
}

/// Arrivals after which the program that was entered may be left by this hop, which is marked in
/// this way.
fn add_arrivals(
    map: &Map,
    start: &Node,
    place: usize,
    crossed: bool,
    abroad: bool,
    arrivals: &mut Marks,
) {
    let Some(left) = map.node(place) else {
        return;
    };
    let is_abroad = left.origin != start.origin;
    let itself = Row::only(place);
    let mut others = map.hops_of(left.program);
    others.remove(&itself);
    for before in [false, true] {
        if abroad != (before || is_abroad) {
            continue;
        }
        arrivals.at_mut(crossed, before).add(&itself);
        if crossed {
            arrivals.at_mut(true, before).add(&others);
            arrivals.at_mut(false, before).add(&others);
        }
    }
}

/// Arrivals after which the program that was entered may be left by a marked hop.
fn arrivals(map: &Map, start: &Node, leaving: &Marks) -> Marks {
    let mut arrivals = Marks::none();
    for (crossed, abroad) in WAYS {
        let mut rest = *leaving.at(crossed, abroad);
        for _ in 0..rest.count() {
            if let Some(place) = rest.take_first() {
                add_arrivals(map, start, place, crossed, abroad, &mut arrivals);
            }
        }
    }
    arrivals
}

/// The arrivals from which a walk that leaves at the start can be closed with no further visit,
/// with at most one, and so on, up to the first level that has a hop with which the start may
/// conflict. None where no level has, or none up to the limit.
pub(crate) fn levels_of(
    alloc: Global,
    map: &Map,
    start: &Node,
    place: usize,
    limit: Option<usize>,
) -> Result<Option<Items<Marks>>, Memory> {
    let mut levels = Items::new(alloc);
    let mut fresh = goals(map, start, place);
    let mut marked = fresh;
    let mut left = Marks::none();
    for level in 0..MAX_LEVELS {
        let mut leaving = leaving(map, &fresh);
        leaving.remove(&left);
        left.add(&leaving);
        levels.push(marked)?;
        if left.at(false, false).has(place) {
            return Ok(Some(levels));
        }
        fresh = arrivals(map, start, &leaving);
        fresh.remove(&marked);
        if fresh.is_empty() || limit.is_some_and(|limit| limit <= level) {
            return Ok(None);
        }
        marked.add(&fresh);
    }
    Ok(None)
}
