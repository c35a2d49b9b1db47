//! Parts of the graph: a division of its hops that no edge crosses tells that no walk offends,
//! where no part has both a program that a walk may cross and programs of two origins.
ghost use Rattle.std.specs.Prelude.{◌≡◌};
ghost use Rattle.lynx_check.specs.inner.Parts.{has_abroad, has_neighbours, has_other_exit, is_met, is_same_part, is_split, meets_other_part, part_offends, some_part_offends};

use lynx_graph::meeting::same_server;
use lynx_graph::nodes::Node;

/// Whether the hops are in one part.
fn is_same_part(parts: &[usize], left: usize, right: usize) -> bool
    ensures { result ≡ is_same_part parts.now left right }
{
    match (parts.get(left), parts.get(right)) {
        (Some(left), Some(right)) => left == right,
        _ => false,
    }
}

/// Whether some hop with which the hop may conflict is in another part.
fn meets_other_part(parts: &[usize], place: usize, node: &Node) -> bool
    ensures { result ≡ meets_other_part parts.now place node.now }
{
    let neighbours = node.neighbours.as_slice();
    neighbours
        .iter()
        .any(|next| !is_same_part(parts, place, *next))
}

/// Whether some hop of its program is in another part.
fn is_split(parts: &[usize], place: usize, node: &Node) -> bool
    ensures { result ≡ is_split parts.now place node.now }
{
    let exits = node.exits.as_slice();
    exits
        .iter()
        .any(|exit| !is_same_part(parts, place, exit.node))
}

/// Whether some hop may conflict with the hop.
fn is_met(node: &Node) -> bool
    ensures { result ≡ is_met node.now }
{
    !node.neighbours.as_slice().is_empty()
}

fn has_neighbours(nodes: &[Node], node: usize) -> bool
    ensures { result ≡ has_neighbours nodes.now node }
{
    match nodes.get(node) {
        Some(node) => is_met(node),
        None => false,
    }
}

/// Whether some other hop of the program may conflict with one.
fn has_other_exit(nodes: &[Node], node: &Node) -> bool
    ensures { result ≡ has_other_exit nodes.now node.now }
{
    let exits = node.exits.as_slice();
    exits.iter().any(|exit| exit.hop != node.place.hop && has_neighbours(nodes, exit.node))
}

/// Whether the part of the hop has a program of another origin.
fn has_abroad(nodes: &[Node], parts: &[usize], place: usize, node: &Node) -> bool
    ensures { result ≡ has_abroad nodes.now parts.now place node.now }
{
    nodes.iter().enumerate().any(|(next, other)| {
        !same_server(other.origin, node.origin) && is_same_part(parts, place, next)
    })
}

/// Whether the hop, or its program, has an edge to another part, or a walk may enter its program
/// here and leave it by another hop, while a program of another origin is in the part.
fn part_offends(nodes: &[Node], parts: &[usize], place: usize, node: &Node) -> bool
    ensures { result ≡ part_offends nodes.now parts.now place node.now }
{
    meets_other_part(parts, place, node)
        || is_split(parts, place, node)
        || is_met(node) && has_other_exit(nodes, node) && has_abroad(nodes, parts, place, node)
}

/// Whether this is no division into parts, or some part has both a program that a walk may cross
/// and programs of two origins.
pub(crate) fn some_part_offends(nodes: &[Node], parts: &[usize]) -> bool
    ensures { result ≡ some_part_offends nodes.now parts.now }
{
    nodes
        .iter()
        .enumerate()
        .any(|(place, node)| part_offends(nodes, parts, place, node))
}
