//! A walk of blocks that offends, where there is one: it takes a block that isn't forward, entered
//! and left at hops that programs of other origins meet, and goes back by the same chains.
ghost use Rattle.std.specs.Prelude.{◌≡◌, IfOk, MatchOption, find};
ghost use Rattle.lynx_graph.specs.Blocks.{IsOffendingBlockWalk, NoBlockWalkOffends};
ghost use Rattle.lynx_check.specs.inner.Backward.{backward_between, backward_from, backward_in, end_of, ends_of, is_abroad_at, one_at, round_of, turned};
ghost use Rattle.lynx_graph.specs.Nodes.{nodes_of};

use lynx_graph::block::{Block, BlockWalk};
use lynx_graph::block_holds::has_come;
use lynx_graph::meeting::{Place, same_server};
use lynx_graph::nodes::Node;
use lynx_names::{Items, Memory, ServerId};
use lynx_set::ChainSet;
use std::alloc::Global;

/// A hop that a program of another origin meets, and the hop where.
#[derive(Clone, Copy)]
pub(crate) struct End {
    pub place: Place,
    pub origin: Option<ServerId>,
    pub meets: Place,
}

/// A block that isn't forward, between two ends.
#[derive(Clone, Copy)]
pub(crate) struct Backward {
    pub entered: End,
    pub left: End,
    pub block: Block,
}

/// Whether the node is of a program of another origin.
fn is_abroad_at(nodes: &[Node], origin: Option<ServerId>, node: usize) -> bool
    ensures { result ≡ is_abroad_at nodes.now origin node }
{
    match nodes.get(node) {
        Some(other) => !same_server(origin, other.origin),
        None => false,
    }
}

/// The first node of a program of another origin with which the node may conflict.
fn abroad_of(nodes: &[Node], node: &Node) -> Option<usize>
    ensures { result ≡ find (is_abroad_at nodes.now node.now.origin) node.now.neighbours }
{
    let neighbours = node.neighbours.as_slice();
    neighbours
        .iter()
        .copied()
        .find(|next| is_abroad_at(nodes, node.origin, *next))
}

/// The node as an end, if a program of another origin meets it.
fn end_of(nodes: &[Node], node: &Node) -> Option<End>
    ensures { result ≡ end_of nodes.now node.now }
{
    let meets = nodes.get(abroad_of(nodes, node)?)?;
    Some(End {
        place: node.place,
        origin: node.origin,
        meets: meets.place,
    })
}

/// The hops that programs of other origins meet.
fn ends_of(alloc: Global, nodes: &[Node]) -> Result<Vec<End>, Memory>
    ensures { IfOk result (λ ends. ends.items ≡ ends_of nodes.now) }
{
    let ends = nodes
        .iter()
        .filter_map(|node| end_of(nodes, node))
        .collect(alloc)?;
    Ok(ends)
}

/// The block that is entered at the one end and left by the other, if there is one that isn't
/// forward.
fn backward_between(set: &ChainSet, entered: &End, left: &End) -> Option<Block>
    ensures { result ≡ backward_between set.now entered.now left.now }
{
    let first = entered.place;
    let second = left.place;
    if first.program == second.program && second.hop < first.hop {
        Some(Block::One {
            program: first.program,
            entered: first.hop,
            left: second.hop,
        })
    } else if same_server(entered.origin, left.origin)
        && !has_come(set, &first, second.program, second.hop)
    {
        Some(Block::Two {
            first: first.program,
            entered: first.hop,
            second: second.program,
            left: second.hop,
        })
    } else {
        None
    }
}

/// The first block that is entered at the end and isn't forward.
fn backward_from(set: &ChainSet, entered: &End, ends: &[End]) -> Option<Backward>
    ensures { result ≡ backward_from set.now entered.now ends.now }
{
    for left in ends {
        if let Some(block) = backward_between(set, entered, left) {
            return Some(Backward {
                entered: *entered,
                left: *left,
                block,
            });
        }
    }
    None
}

/// The first block between two of the ends that isn't forward.
fn backward_in(set: &ChainSet, ends: &[End]) -> Option<Backward>
    ensures { result ≡ backward_in set.now ends.now ends.now }
{
    for entered in ends {
        let found = backward_from(set, entered, ends);
        if found.is_some() {
            return found;
        }
    }
    None
}

/// One chain that is entered and left at the hop.
fn one_at(place: &Place) -> Block
    ensures { result ≡ one_at place.now }
{
    Block::One {
        program: place.program,
        entered: place.hop,
        left: place.hop,
    }
}

/// The same chains, entered where the block is left, and left where it is entered.
fn turned(block: &Block) -> Block
    ensures { result ≡ turned block.now }
{
    match *block {
        Block::One {
            program,
            entered,
            left,
        } => Block::One {
            program,
            entered: left,
            left: entered,
        },
        Block::Two {
            first,
            entered,
            second,
            left,
        } => Block::Two {
            first: second,
            entered: left,
            second: first,
            left: entered,
        },
    }
}

/// The walk through the block and back.
fn round_of(alloc: Global, backward: &Backward) -> Result<BlockWalk, Memory>
    ensures { IfOk result (λ walk. walk ≡ round_of backward.now) }
{
    let mut walk = Items::new(alloc);
    walk.push(backward.block)?;
    walk.push(one_at(&backward.left.meets))?;
    walk.push(turned(&backward.block))?;
    walk.push(one_at(&backward.entered.meets))?;
    Ok(walk)
}

/// A walk of blocks that offends, where there is one. For n hops it looks at n * n blocks.
pub(crate) fn offending_blocks(
    alloc: Global,
    set: &ChainSet,
    nodes: &[Node],
) -> Result<Option<BlockWalk>, Memory>
    requires { nodes.now ≡ nodes_of set.now }
    ensures { IfOk result (λ found. MatchOption found (NoBlockWalkOffends set.now)
        (IsOffendingBlockWalk set.now)) }
{
    let ends = ends_of(alloc, nodes)?;
    match backward_in(set, ends.as_slice()) {
        Some(backward) => Ok(Some(round_of(alloc, &backward)?)),
        None => Ok(None),
    }
}
