//! The lines of blocks that are late, and of the hops of other origins that they meet.

ghost use Rattle.std.specs.Prelude.{◌≡◌, ◌++◌, All, IfOk, OnOk};
ghost use Rattle.lynx_set.specs.Rules.{IsSet};
ghost use Rattle.lynx_graph.specs.Edges.{edges_of};
ghost use Rattle.lynx_reasons.specs.Late.{abroad_line, abroad_lines, exit_text, late_line, late_lines, late_text};
ghost use Rattle.lynx_reasons.specs.inner.Tellings.{IsTold};

use crate::meets::{put_hop_lines, put_pair, put_place};
use lynx_graph::{Block, Edge, Place, entrance_of, exit_of, places_of};
use lynx_late::{hops_abroad, late_blocks};
use lynx_names::{Items, Memory};
use lynx_set::ChainSet;
use lynx_text::printing::put_number;
use std::alloc::Global;

/// Writes the hop by which the block is left: of one chain its number alone.
fn put_exit(alloc: Global, out: &mut Vec<u8>, set: &ChainSet, block: &Block) -> Result<(), Memory>
    ensures { OnOk result (out.new.items ≡ out.old.items ++ exit_text set.now block.now) }
{
    match *block {
        Block::One { left, .. } => {
            out.push(b' ')?;
            put_number(alloc, out, left as u64)
        }
        Block::Two { .. } => put_place(alloc, out, set, &exit_of(block)),
    }
}

/// Writes the line of a late block.
fn put_late(alloc: Global, out: &mut Vec<u8>, set: &ChainSet, block: &Block) -> Result<(), Memory>
    requires { IsSet set.now }
    ensures { OnOk result (out.new.items ≡ out.old.items ++ late_line set.now block.now) }
{
    out.extend_from_slice(b"late".as_slice())?;
    put_place(alloc, out, set, &entrance_of(block))?;
    put_exit(alloc, out, set, block)?;
    put_hop_lines(alloc, out, set, &entrance_of(block), &exit_of(block))?;
    out.push(b'\n')?;
    Ok(())
}

/// Writes the line of a hop and one of another origin that it meets.
fn put_abroad(
    alloc: Global,
    out: &mut Vec<u8>,
    set: &ChainSet,
    left: Place,
    right: Place,
) -> Result<(), Memory>
    requires { IsSet set.now }
    ensures { OnOk result (out.new.items ≡ out.old.items ++ abroad_line set.now left right) }
{
    out.extend_from_slice(b"abroad".as_slice())?;
    put_pair(alloc, out, set, &Edge { left, right })?;
    out.push(b'\n')?;
    Ok(())
}

/// Writes a line for each hop of another origin that the hop meets.
fn put_abroad_lines(
    alloc: Global,
    out: &mut Vec<u8>,
    set: &ChainSet,
    edges: &[Edge],
    place: Place,
) -> Result<(), Memory>
    requires text { IsSet set.now }
    requires edges { edges.now ≡ edges_of set.now }
    ensures { OnOk result (out.new.items ≡ out.old.items ++ abroad_lines set.now place) }
{
    let hops = hops_abroad(alloc, set, edges, &place)?;
    for hop in hops.as_slice() {
        put_abroad(alloc, out, set, place, *hop)?;
    }
    Ok(())
}

/// A hop, and the lines of the hops of other origins that it meets.
#[derive(Drop)]
struct Told {
    place: Place,
    lines: Items<u8>,
}

/// The lines of what a hop meets.
fn lines_of(
    alloc: Global,
    set: &ChainSet,
    edges: &[Edge],
    place: Place,
) -> Result<Items<u8>, Memory>
    requires text { IsSet set.now }
    requires edges { edges.now ≡ edges_of set.now }
    ensures { IfOk result (λ lines. lines ≡ abroad_lines set.now place) }
{
    let mut lines = Vec::new(alloc);
    put_abroad_lines(alloc, &mut lines, set, edges, place)?;
    Ok(Items::from_vec(lines))
}

/// Each hop of the set, with the lines of what it meets.
fn each_told(alloc: Global, set: &ChainSet, edges: &[Edge]) -> Result<Vec<Told>, Memory>
    requires text { IsSet set.now }
    requires edges { edges.now ≡ edges_of set.now }
    ensures { IfOk result (λ all. All (IsTold set.now) all.items) }
{
    let places = places_of(alloc, set)?;
    let mut all = Vec::new(alloc);
    for place in places.as_slice() {
        all.push(Told {
            place: *place,
            lines: lines_of(alloc, set, edges, *place)?,
        })?;
    }
    Ok(all)
}

/// Writes the lines of what the hop meets, as they were told.
fn put_told(
    alloc: Global,
    out: &mut Vec<u8>,
    set: &ChainSet,
    edges: &[Edge],
    all: &[Told],
    place: Place,
) -> Result<(), Memory>
    requires text { IsSet set.now }
    requires edges { edges.now ≡ edges_of set.now }
    requires told { All (IsTold set.now) all.now }
    ensures { OnOk result (out.new.items ≡ out.old.items ++ abroad_lines set.now place) }
{
    for told in all {
        if told.place == place {
            out.extend_from_slice(told.lines.as_slice())?;
            return Ok(());
        }
    }
    put_abroad_lines(alloc, out, set, edges, place)
}

/// Writes a late block, and what it meets where it is entered and where it is left.
fn put_block(
    alloc: Global,
    out: &mut Vec<u8>,
    set: &ChainSet,
    edges: &[Edge],
    all: &[Told],
    block: &Block,
) -> Result<(), Memory>
    requires text { IsSet set.now }
    requires edges { edges.now ≡ edges_of set.now }
    requires told { All (IsTold set.now) all.now }
    ensures { OnOk result (out.new.items ≡ out.old.items ++ late_text set.now block.now) }
{
    put_late(alloc, out, set, block)?;
    put_told(alloc, out, set, edges, all, entrance_of(block))?;
    put_told(alloc, out, set, edges, all, exit_of(block))
}

/// Writes the late blocks of the set.
pub(crate) fn put_late_lines(
    alloc: Global,
    out: &mut Vec<u8>,
    set: &ChainSet,
    edges: &[Edge],
) -> Result<(), Memory>
    requires text { IsSet set.now }
    requires edges { edges.now ≡ edges_of set.now }
    ensures { OnOk result (out.new.items ≡ out.old.items ++ late_lines set.now) }
{
    let blocks = late_blocks(alloc, set, edges)?;
    let all = each_told(alloc, set, edges)?;
    for block in blocks.as_slice() {
        put_block(alloc, out, set, edges, all.as_slice(), block)?;
    }
    Ok(())
}
