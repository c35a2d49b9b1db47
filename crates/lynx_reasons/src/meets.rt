//! The lines of hops that meet.

ghost use Rattle.std.specs.Prelude.{◌≡◌, ◌++◌, OnOk};
ghost use Rattle.std.specs.List.{flat_map};
ghost use Rattle.lynx_lex.specs.Lines.{spaced};
ghost use Rattle.lynx_set.specs.Rules.{IsSet};
ghost use Rattle.lynx_reasons.specs.Meets.{hops_text, lines_text, meet_line, meet_lines, pair_text, place_text, server_text, tables_text};

use crate::hop_lines::line_of;
use lynx_graph::{Edge, Place, tables_met};
use lynx_names::Memory;
use lynx_set::{ChainSet, Name};
use lynx_text::printing::{put_number, put_word};
use std::alloc::Global;

/// Writes a hop: its program, and its number from 0.
pub(crate) fn put_place(
    alloc: Global,
    out: &mut Vec<u8>,
    set: &ChainSet,
    place: &Place,
) -> Result<(), Memory>
    ensures { OnOk result (out.new.items ≡ out.old.items ++ place_text set.now place.now) }
{
    put_word(out, set.program_name(place.program))?;
    out.push(b' ')?;
    put_number(alloc, out, place.hop as u64)
}

/// Writes the server of a hop.
pub(crate) fn put_server(
    alloc: Global,
    out: &mut Vec<u8>,
    set: &ChainSet,
    place: &Place,
) -> Result<(), Memory>
    ensures { OnOk result (out.new.items ≡ out.old.items ++ server_text set.now place.now) }
{
    if let Some(hop) = set.hop(place.program, place.hop) {
        out.extend_from_slice(b" server ".as_slice())?;
        put_number(alloc, out, u64::from(hop.server.number()))?;
    }
    Ok(())
}

/// Writes each name after a space.
fn put_names(out: &mut Vec<u8>, names: &[Name]) -> Result<(), Memory>
    ensures { OnOk result (out.new.items ≡ out.old.items ++ spaced names.now) }
{
    for name in names {
        put_word(out, name.as_bytes())?;
    }
    Ok(())
}

/// Writes the tables in which the hops meet.
pub(crate) fn put_tables(
    alloc: Global,
    out: &mut Vec<u8>,
    set: &ChainSet,
    left: &Place,
    right: &Place,
) -> Result<(), Memory>
    ensures { OnOk result (out.new.items ≡ out.old.items
        ++ tables_text set.now left.now right.now) }
{
    let names = tables_met(alloc, set, left, right)?;
    out.extend_from_slice(b" table".as_slice())?;
    put_names(out, names.as_slice())
}

/// Writes the lines of the set's text on which the hops stand.
pub(crate) fn put_hop_lines(
    alloc: Global,
    out: &mut Vec<u8>,
    set: &ChainSet,
    left: &Place,
    right: &Place,
) -> Result<(), Memory>
    requires { IsSet set.now }
    ensures { OnOk result (out.new.items ≡ out.old.items
        ++ lines_text set.now left.now right.now) }
{
    out.extend_from_slice(b" lines ".as_slice())?;
    put_number(alloc, out, line_of(set, left) as u64)?;
    out.push(b' ')?;
    put_number(alloc, out, line_of(set, right) as u64)
}

/// Writes two hops that meet, and their server.
fn put_hops(alloc: Global, out: &mut Vec<u8>, set: &ChainSet, edge: &Edge) -> Result<(), Memory>
    ensures { OnOk result (out.new.items ≡ out.old.items ++ hops_text set.now edge.now) }
{
    put_place(alloc, out, set, &edge.left)?;
    put_place(alloc, out, set, &edge.right)?;
    put_server(alloc, out, set, &edge.left)
}

/// Writes two hops that meet, and where they do.
pub(crate) fn put_pair(
    alloc: Global,
    out: &mut Vec<u8>,
    set: &ChainSet,
    edge: &Edge,
) -> Result<(), Memory>
    requires { IsSet set.now }
    ensures { OnOk result (out.new.items ≡ out.old.items ++ pair_text set.now edge.now) }
{
    put_hops(alloc, out, set, edge)?;
    put_tables(alloc, out, set, &edge.left, &edge.right)?;
    put_hop_lines(alloc, out, set, &edge.left, &edge.right)
}

/// Writes the line of two hops that meet.
fn put_meet(alloc: Global, out: &mut Vec<u8>, set: &ChainSet, edge: &Edge) -> Result<(), Memory>
    requires { IsSet set.now }
    ensures { OnOk result (out.new.items ≡ out.old.items ++ meet_line set.now edge.now) }
{
    out.extend_from_slice(b"meet".as_slice())?;
    put_pair(alloc, out, set, edge)?;
    out.push(b'\n')?;
    Ok(())
}

/// Writes a line for each two hops that meet.
pub(crate) fn put_meet_lines(
    alloc: Global,
    out: &mut Vec<u8>,
    set: &ChainSet,
    edges: &[Edge],
) -> Result<(), Memory>
    requires { IsSet set.now }
    ensures { OnOk result (out.new.items ≡ out.old.items ++ meet_lines set.now edges.now) }
{
    for edge in edges {
        put_meet(alloc, out, set, edge)?;
    }
    Ok(())
}
