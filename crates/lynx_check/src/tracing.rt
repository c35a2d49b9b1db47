//! The least of the shortest walks from one start, read off its tables.
ghost use Rattle.std.specs.Prelude.{◌≡◌, IfOk, find};
ghost use Rattle.std.specs.List.{Contains};
ghost use Rattle.lynx_check.specs.inner.Marks.{mark_at};
ghost use Rattle.lynx_check.specs.inner.Tracing.{AreLevels, IsSound, arrival_after, first_step, next_step, step_by};

use crate::marks::{Marks, Table, is_abroad, mark_at};
use lynx_graph::nodes::{Exit, Node};
use lynx_graph::visit::{Visit, Walk};
use lynx_names::{Items, Memory};
use std::alloc::Global;

/// An arrival at a node, and what the visits after the walk's first did before it: whether one was
/// left by another hop than it was entered at, and whether one was of a program of another origin
/// than the first's.
#[derive(Clone, Copy)]
pub(crate) struct Arrival {
    pub node: usize,
    pub crossed: bool,
    pub abroad: bool,
}

/// A visit, and the arrival after it.
#[derive(Clone, Copy)]
pub(crate) struct Traced {
    pub visit: Visit,
    pub next: Arrival,
}

/// The first marked node with which the node may conflict.
fn marked_neighbour(table: &[Marks], left: &Node, crossed: bool, abroad: bool) -> Option<usize>
    ensures { result ≡ find (λ next. mark_at table.now next crossed abroad) left.now.neighbours }
{
    let neighbours = left.neighbours.as_slice();
    neighbours
        .iter()
        .copied()
        .find(|next| mark_at(table, *next, crossed, abroad))
}

/// The first marked arrival for a walk that leaves at this node.
fn arrival_after(table: &[Marks], left: &Node, crossed: bool, abroad: bool) -> Option<Arrival>
    ensures { result ≡ arrival_after table.now left.now crossed abroad }
{
    let node = marked_neighbour(table, left, crossed, abroad)?;
    Some(Arrival {
        node,
        crossed,
        abroad,
    })
}

/// The visit that was entered here and is left by that exit, where a marked arrival follows.
fn step_by(
    nodes: &[Node],
    start: &Node,
    table: &[Marks],
    here: &Node,
    arrival: &Arrival,
    exit: &Exit,
) -> Option<Traced>
    ensures { result ≡ step_by nodes.now start.now table.now here.now arrival.now exit.now }
{
    let crossed = arrival.crossed || here.place.hop != exit.hop;
    let abroad = arrival.abroad || is_abroad(start, here);
    let next = arrival_after(table, nodes.get(exit.node)?, crossed, abroad)?;
    let visit = Visit {
        program: here.place.program,
        entered: here.place.hop,
        left: exit.hop,
    };
    Some(Traced { visit, next })
}

/// The visit that was entered here and is left by the least hop with a marked arrival after it.
fn first_step(
    nodes: &[Node],
    start: &Node,
    table: &[Marks],
    here: &Node,
    arrival: &Arrival,
) -> Option<Traced>
    ensures { result ≡ first_step nodes.now start.now table.now here.now arrival.now
        here.now.exits }
{
    let exits = here.exits.as_slice();
    for exit in exits {
        let step = step_by(nodes, start, table, here, arrival, exit);
        if step.is_some() {
            return step;
        }
    }
    None
}

fn next_step(nodes: &[Node], start: &Node, table: &[Marks], arrival: &Arrival) -> Option<Traced>
    ensures { result ≡ next_step nodes.now start.now table.now arrival.now }
{
    let here = nodes.get(arrival.node)?;
    first_step(nodes, start, table, here, arrival)
}

/// Reads the walk off the tables of the start, of which the last is the first to mark a hop with
/// which it may conflict.
pub(crate) fn read_walk(
    alloc: Global,
    nodes: &[Node],
    start: &Node,
    levels: &[Table],
) -> Result<Walk, Memory>
    requires start { Contains nodes.now start.now }
    requires levels { AreLevels nodes.now start.now levels.now }
    ensures { IfOk result (IsSound nodes.now) }
{
    let mut level = levels.len() - 1;
    let mut arrival = arrival_after(levels[level].as_slice(), start, false, false).unwrap();
    let mut visits = Vec::new(alloc);
    while level > 0 {
        level -= 1;
        let table = levels[level].as_slice();
        if mark_at(table, arrival.node, arrival.crossed, arrival.abroad) {
            continue;
        }
        let step = next_step(nodes, start, table, &arrival).unwrap();
        visits.push(step.visit)?;
        arrival = step.next;
    }
    let last = &nodes[arrival.node];
    let first = Visit {
        program: start.place.program,
        entered: last.place.hop,
        left: start.place.hop,
    };
    visits.insert(0, first)?;
    Ok(Items::from_vec(visits))
}
