//! The least walk, read off the levels of its start.
use crate::walks::map::{Map, Node};
use crate::walks::marks::Marks;
use crate::walks::row::Row;
use lynx_graph::visit::{Visit, Walk};
use lynx_names::{Items, Memory};
use std::alloc::Global;

/// An arrival at a hop, and what the visits after the walk's first did before it.
#[derive(Clone, Copy)]
struct Arrival {
    place: usize,
    crossed: bool,
    abroad: bool,
}

/// The first marked arrival for a walk that leaves at this hop.
fn arrival_after(level: &Marks, left: &Node, crossed: bool, abroad: bool) -> Option<Arrival> {
    let mut marked: Row = *level.at(crossed, abroad);
    marked.keep(&left.meets);
    let place = marked.take_first()?;
    Some(Arrival {
        place,
        crossed,
        abroad,
    })
}

/// The visit that is left by the least hop with a marked arrival after it, and that arrival.
fn step_from(
    map: &Map,
    start: &Node,
    level: &Marks,
    arrival: &Arrival,
) -> Option<(Visit, Arrival)> {
    let here = map.node(arrival.place)?;
    let abroad = arrival.abroad || here.origin != start.origin;
    let mut exits = map.hops_of(here.program);
    for _ in 0..exits.count() {
        let exit = map.node(exits.take_first()?)?;
        let crossed = arrival.crossed || exit.hop != here.hop;
        if let Some(next) = arrival_after(level, exit, crossed, abroad) {
            let step = Visit {
                program: here.program,
                entered: here.hop,
                left: exit.hop,
            };
            return Some((step, next));
        }
    }
    None
}

/// Reads the walk off the levels, of which the last is the first that has a hop with which the
/// start may conflict.
pub(crate) fn read_walk(
    alloc: Global,
    map: &Map,
    start: &Node,
    levels: &[Marks],
) -> Result<Option<Walk>, Memory> {
    let mut steps = Vec::new(alloc);
    let Some(mut arrival) = levels
        .last()
        .and_then(|level| arrival_after(level, start, false, false))
    else {
        return Ok(None);
    };
    for level in levels.iter().rev().skip(1) {
        if level.at(arrival.crossed, arrival.abroad).has(arrival.place) {
            continue;
        }
        let Some((step, next)) = step_from(map, start, level, &arrival) else {
            return Ok(None);
        };
        steps.push(step)?;
        arrival = next;
    }
    let Some(last) = map.node(arrival.place) else {
        return Ok(None);
    };
    let first = Visit {
        program: start.program,
        entered: last.hop,
        left: start.hop,
    };
    steps.insert(0, first)?;
    Ok(Some(Items::from_vec(steps)))
}
