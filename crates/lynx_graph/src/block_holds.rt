ghost use Rattle.std.specs.Prelude.{◌≡◌, ◌↔◌, IsTrue};
ghost use Rattle.std.specs.List.{list_any};
ghost use Rattle.lynx_graph.specs.Blocks.{IsOffendingBlockWalk, entrance_of, exit_of};
ghost use Rattle.lynx_graph.specs.inner.BlockTests.{block_offends, is_backward, is_block, is_block_walk, meets, meets_around, some_is_no_block};
ghost use Rattle.lynx_graph.specs.Tests.{has_come, server_of, serves_upto};

use crate::block::{Block, BlockWalk};
use crate::meeting::{Place, joins, same_server};
use lynx_names::{ProgramId, ServerId};
use lynx_set::{ChainSet, Hop};

/// The hop at which the block is entered.
pub fn entrance_of(block: &Block) -> Place
    ensures { result ≡ entrance_of block.now }
{
    match *block {
        Block::One {
            program,
            entered,
            ..
        } => Place {
            program,
            hop: entered,
        },
        Block::Two { first, entered, .. } => Place {
            program: first,
            hop: entered,
        },
    }
}

/// The hop by which the block is left.
pub fn exit_of(block: &Block) -> Place
    ensures { result ≡ exit_of block.now }
{
    match *block {
        Block::One { program, left, .. } => Place { program, hop: left },
        Block::Two { second, left, .. } => Place {
            program: second,
            hop: left,
        },
    }
}

fn is_block(set: &ChainSet, block: &Block) -> bool
    ensures { result ≡ is_block set.now block.now }
{
    match *block {
        Block::One { .. } => true,
        Block::Two { first, second, .. } => same_server(set.origin(first), set.origin(second)),
    }
}

fn server_of(set: &ChainSet, place: &Place) -> Option<ServerId>
    ensures { result ≡ server_of set.now place.now }
{
    let hop = set.hop(place.program, place.hop)?;
    Some(hop.server)
}

/// Whether one of the hops, of that number or a lower one, is at the server.
fn serves_upto(hops: &[Hop], server: ServerId, last: usize) -> bool
    ensures { result ≡ serves_upto hops.now server last }
{
    hops.iter()
        .enumerate()
        .any(|(number, hop)| number <= last && hop.server == server)
}

/// Whether a hop of the program, of that number or a lower one, is at the server of the place.
pub fn has_come(set: &ChainSet, place: &Place, program: ProgramId, last: usize) -> bool
    ensures { result ≡ has_come set.now place.now program last }
{
    match server_of(set, place) {
        Some(server) => serves_upto(set.hops(program), server, last),
        None => false,
    }
}

fn is_backward(set: &ChainSet, block: &Block) -> bool
    ensures { result ≡ is_backward set.now block.now }
{
    match *block {
        Block::One { entered, left, .. } => left < entered,
        Block::Two { second, left, .. } => !has_come(set, &entrance_of(block), second, left),
    }
}

/// Whether the places may conflict, and their programs are of different origins.
fn meets(set: &ChainSet, left: &Place, right: &Place) -> bool
    ensures { result ≡ meets set.now left.now right.now }
{
    joins(set, left, right) && !same_server(set.origin(left.program), set.origin(right.program))
}

/// Whether each block meets the one after it, and the last the first.
fn meets_around(set: &ChainSet, first: &Block, rest: &[Block]) -> bool
    ensures { result ≡ meets_around set.now first.now first.now rest.now }
{
    let mut block = first;
    for next in rest {
        if !meets(set, &exit_of(block), &entrance_of(next)) {
            return false;
        }
        block = next;
    }
    meets(set, &exit_of(block), &entrance_of(first))
}

fn is_block_walk(set: &ChainSet, walk: &[Block]) -> bool
    ensures { result ≡ is_block_walk set.now walk.now }
{
    match walk {
        [first, rest @ ..] => !rest.is_empty() && meets_around(set, first, rest),
        [] => false,
    }
}

fn some_is_no_block(set: &ChainSet, walk: &[Block]) -> bool
    ensures { result ≡ some_is_no_block set.now walk.now }
{
    walk.iter().any(|block| !is_block(set, block))
}

fn some_is_backward(set: &ChainSet, walk: &[Block]) -> bool
    ensures { result ≡ list_any (is_backward set.now) walk.now }
{
    walk.iter().any(|block| is_backward(set, block))
}

fn block_offends(set: &ChainSet, walk: &[Block]) -> bool
    ensures { result ≡ block_offends set.now walk.now }
{
    is_block_walk(set, walk) && !some_is_no_block(set, walk) && some_is_backward(set, walk)
}

/// Whether the list is a walk of blocks that offends: of two blocks or more, each meets the next
/// and the last the first, at hops that may conflict and of programs of different origins; each is
/// of one chain, or of two of one origin; and some block isn't forward. It takes no memory.
pub fn blocks_hold(set: &ChainSet, walk: &BlockWalk) -> bool
    ensures { IsTrue result ↔ IsOffendingBlockWalk set.now walk.now }
{
    block_offends(set, walk.as_slice())
}
