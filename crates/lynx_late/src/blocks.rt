//! The late blocks of a set.
ghost use Rattle.std.specs.Prelude.{◌≡◌, ◌++◌, ◌↔◌, Contains, IfOk, OnOk, filter, map};
ghost use Rattle.std.specs.List.{flat_map};
ghost use Rattle.lynx_graph.specs.Edges.{edges_of};
ghost use Rattle.lynx_graph.specs.declared.block.Block.{Block};
ghost use Rattle.lynx_late.specs.Blocks.{IsLate, IsListed, ends_of, has_not_come, is_before, late_blocks, late_from, one_chain, two_chains};

use crate::abroad::reaches_abroad;
use lynx_graph::block_holds::has_come;
use lynx_graph::meeting::same_server;
use lynx_graph::{Block, Edge, Place, places_of};
use lynx_names::{Items, Memory};
use lynx_set::ChainSet;
use std::alloc::Global;

/// The hops that reach abroad.
fn ends_of(alloc: Global, set: &ChainSet, edges: &[Edge]) -> Result<Vec<Place>, Memory>
    requires { edges.now ≡ edges_of set.now }
    ensures { IfOk result (λ ends. ends.items ≡ ends_of set.now) }
{
    let places = places_of(alloc, set)?;
    let ends = places
        .as_slice()
        .iter()
        .copied()
        .filter(|place| reaches_abroad(set, edges, place))
        .collect(alloc)?;
    Ok(ends)
}

/// Whether the one hop stands before the other in its program.
fn is_before(exit: &Place, entrance: &Place) -> bool
    ensures { result ≡ is_before entrance.now exit.now }
{
    exit.program == entrance.program && exit.hop < entrance.hop
}

/// Whether the one hop is of another program of the same origin that by then hasn't been at the
/// server of the other.
fn has_not_come(set: &ChainSet, exit: &Place, entrance: &Place) -> bool
    ensures { result ≡ has_not_come set.now entrance.now exit.now }
{
    exit.program != entrance.program
        && same_server(set.origin(entrance.program), set.origin(exit.program))
        && !has_come(set, entrance, exit.program, exit.hop)
}

fn one_chain(entrance: &Place, exit: &Place) -> Block
    ensures { result ≡ one_chain entrance.now exit.now }
{
    Block::One {
        program: entrance.program,
        entered: entrance.hop,
        left: exit.hop,
    }
}

fn two_chains(entrance: &Place, exit: &Place) -> Block
    ensures { result ≡ two_chains entrance.now exit.now }
{
    Block::Two {
        first: entrance.program,
        entered: entrance.hop,
        second: exit.program,
        left: exit.hop,
    }
}

/// Adds the late blocks of one chain that are entered at the hop.
fn add_one_chain(entrance: &Place, ends: &[Place], blocks: &mut Items<Block>) -> Result<(), Memory>
    ensures { OnOk result (blocks.new ≡ blocks.old
        ++ map (one_chain entrance.now) (filter (is_before entrance.now) ends.now)) }
{
    for exit in ends {
        if is_before(exit, entrance) {
            blocks.push(one_chain(entrance, exit))?;
        }
    }
    Ok(())
}

/// Adds the late blocks of two chains that are entered at the hop.
fn add_two_chains(
    set: &ChainSet,
    entrance: &Place,
    ends: &[Place],
    blocks: &mut Items<Block>,
) -> Result<(), Memory>
    ensures { OnOk result (blocks.new ≡ blocks.old
        ++ map (two_chains entrance.now) (filter (has_not_come set.now entrance.now) ends.now)) }
{
    for exit in ends {
        if has_not_come(set, exit, entrance) {
            blocks.push(two_chains(entrance, exit))?;
        }
    }
    Ok(())
}

/// The late blocks between the ends.
fn blocks_between(alloc: Global, set: &ChainSet, ends: &[Place]) -> Result<Items<Block>, Memory>
    ensures { IfOk result (λ blocks. blocks ≡ flat_map (late_from set.now ends.now) ends.now) }
{
    let mut blocks = Items::new(alloc);
    for entrance in ends {
        add_one_chain(entrance, ends, &mut blocks)?;
        add_two_chains(set, entrance, ends, &mut blocks)?;
    }
    Ok(blocks)
}

/// The late blocks of the set, where these are its edges: by the hop at which they are entered, one
/// chain before two, and then by the hop by which they are left. Two chains of one program aren't
/// listed; they are late only where the one chain with the same ends is. For n hops it looks at
/// n * n blocks, and at each edge for each hop. Memory is answered where a growth was refused.
pub fn late_blocks(alloc: Global, set: &ChainSet, edges: &[Edge]) -> Result<Vec<Block>, Memory>
    requires { edges.now ≡ edges_of set.now }
    ensures exact { IfOk result (λ blocks. blocks.items ≡ late_blocks set.now) }
    ensures late { IfOk result (λ blocks. (block : Block)
        → Contains blocks.items block ↔ (IsLate set.now block × IsListed block)) }
{
    let ends = ends_of(alloc, set, edges)?;
    let blocks = blocks_between(alloc, set, ends.as_slice())?;
    Ok(blocks.into_vec())
}
