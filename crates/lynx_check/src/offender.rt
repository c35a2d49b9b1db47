//! A closed walk that offends: searched by rows of bits first, and looked at before it is believed.
ghost use Rattle.std.specs.Prelude.{◌≡◌, IfOk, IfSome, MatchOption};
ghost use Rattle.lynx_graph.specs.Walks.{IsOffending, NoWalkOffends};
ghost use Rattle.lynx_graph.specs.Nodes.{nodes_of as all_nodes};

use crate::parts::some_part_offends;
use crate::shortest::shortest;
use crate::walks::{Map, least_walk};
use lynx_graph::holds::walk_holds;
use lynx_graph::nodes::{Node, nodes_of};
use lynx_graph::visit::Walk;
use lynx_names::Memory;
use lynx_set::ChainSet;
use std::alloc::Global;

/// The walk that the search finds, if it offends.
fn found_walk(alloc: Global, set: &ChainSet, map: &Map) -> Result<Option<Walk>, Memory>
    ensures { IfOk result (λ found. IfSome found (IsOffending set.now)) }
{
    let Some(walk) = least_walk(alloc, map)? else {
        return Ok(None);
    };
    if walk_holds(set, &walk) {
        Ok(Some(walk))
    } else {
        Ok(None)
    }
}

/// The walk that the search alone finds, as [`check`](crate::check()) gives it. Only that a walk
/// offends is promised, not that one is found where there is one: tests see that.
pub fn search_walk(alloc: Global, set: &ChainSet) -> Result<Option<Walk>, Memory>
    ensures { IfOk result (λ found. IfSome found (IsOffending set.now)) }
{
    let nodes = nodes_of(alloc, set)?;
    let map = Map::of(alloc, nodes.as_slice())?;
    found_walk(alloc, set, &map)
}

/// A walk that offends, the least of the shortest, where there is one.
pub(crate) fn offending_walk(
    alloc: Global,
    set: &ChainSet,
    nodes: &[Node],
) -> Result<Option<Walk>, Memory>
    requires { nodes.now ≡ all_nodes set.now }
    ensures { IfOk result (λ found. MatchOption found (NoWalkOffends set.now)
        (IsOffending set.now)) }
{
    let map = Map::of(alloc, nodes)?;
    let parts = map.parts(alloc)?;
    if !some_part_offends(nodes, parts.as_slice()) {
        return Ok(None);
    }
    let found = found_walk(alloc, set, &map)?;
    if found.is_some() {
        return Ok(found);
    }
    // The search finds a walk where there is one. That isn't proved, and this is: it is slower.
    shortest(alloc, nodes)
}
