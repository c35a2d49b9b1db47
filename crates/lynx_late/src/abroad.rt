//! The hops of programs of other origins with which a hop may conflict.
ghost use Rattle.std.specs.Prelude.{◌≡◌, ◌↔◌, Contains, IfOk, IsTrue, filter, filter_map};
ghost use Rattle.std.specs.List.{list_any};
ghost use Rattle.lynx_graph.specs.Blocks.{Meets};
ghost use Rattle.lynx_graph.specs.Edges.{edges_of};
ghost use Rattle.lynx_graph.specs.declared.meeting.Place.{Place};
ghost use Rattle.lynx_late.specs.Abroad.{ReachesAbroad, are_apart, hops_abroad, reaches_abroad};
ghost use Rattle.lynx_late.specs.inner.Ends.{other_end};

use lynx_graph::meeting::same_server;
use lynx_graph::{Edge, Place};
use lynx_names::Memory;
use lynx_set::ChainSet;
use std::alloc::Global;

/// The other end of the edge where the hop is one of its ends, and the hop itself where it is both.
fn other_end(place: &Place, edge: &Edge) -> Option<Place>
    ensures { result ≡ other_end place.now edge.now }
{
    if edge.left == *place {
        Some(edge.right)
    } else if edge.right == *place {
        Some(edge.left)
    } else {
        None
    }
}

/// Whether the programs of the hops are of different origins.
fn are_apart(set: &ChainSet, left: &Place, right: &Place) -> bool
    ensures { result ≡ are_apart set.now left.now right.now }
{
    !same_server(set.origin(left.program), set.origin(right.program))
}

/// Whether some edge of the hop leads to a program of another origin.
fn is_led_abroad(set: &ChainSet, edges: &[Edge], place: &Place) -> bool
    ensures { result ≡ list_any (are_apart set.now place.now)
        (filter_map (other_end place.now) edges.now) }
{
    edges
        .iter()
        .filter_map(|edge| other_end(place, edge))
        .any(|other| are_apart(set, place, &other))
}

/// Where the edges of the hop lead to programs of other origins.
fn led_abroad(
    alloc: Global,
    set: &ChainSet,
    edges: &[Edge],
    place: &Place,
) -> Result<Vec<Place>, Memory>
    ensures { IfOk result (λ hops. hops.items ≡ filter (are_apart set.now place.now)
        (filter_map (other_end place.now) edges.now)) }
{
    let hops = edges
        .iter()
        .filter_map(|edge| other_end(place, edge))
        .filter(|other| are_apart(set, place, other))
        .collect(alloc)?;
    Ok(hops)
}

/// Whether the hop may conflict with some hop of a program of another origin, where these are the
/// set's edges. It takes no memory; its cost grows with the count of edges.
pub fn reaches_abroad(set: &ChainSet, edges: &[Edge], place: &Place) -> bool
    requires { edges.now ≡ edges_of set.now }
    ensures value { result ≡ reaches_abroad set.now place.now }
    ensures right { IsTrue result ↔ ReachesAbroad set.now place.now }
{
    is_led_abroad(set, edges, place)
}

/// The hops of programs of other origins with which the hop may conflict, where these are the set's
/// edges, in the set's order. Its cost grows with the count of edges. Memory is answered where a
/// growth was refused.
pub fn hops_abroad(
    alloc: Global,
    set: &ChainSet,
    edges: &[Edge],
    place: &Place,
) -> Result<Vec<Place>, Memory>
    requires { edges.now ≡ edges_of set.now }
    ensures exact { IfOk result (λ hops. hops.items ≡ hops_abroad set.now place.now) }
    ensures right { IfOk result (λ hops. (other : Place)
        → Contains hops.items other ↔ Meets set.now place.now other) }
{
    let hops = led_abroad(alloc, set, edges, place)?;
    Ok(hops)
}
