//! Hops as nodes.

ghost use Rattle.std.specs.Prelude.{◌≡◌, ◌<◌, ◌^◌, ◌+◌, ◌++◌, IfOk, OnOk};
ghost use Rattle.lynx_names.specs.declared.limits.TheConstants.{MAX_ACTIONS};
ghost use Rattle.lynx_set.specs.Text.{bound_in};
ghost use Rattle.lynx_draw.specs.Nodes.{action_text, actions_text, arrow_text, drawn_hops, hop_label, hop_text, node_end, node_head, node_line, spot_at};

use crate::colours::colour_at;
use crate::spot::{Spot, put_spot};
use lynx_graph::Place;
use lynx_lex::Name;
use lynx_names::{Memory, ProgramId, ServerId};
use lynx_set::{Action, ChainSet, Hop};
use lynx_text::printing::{bound_names, put_action_words, put_number};
use std::alloc::Global;

/// Writes an action on a line of its own, as the set's text has it.
fn put_action(
    alloc: Global,
    out: &mut Vec<u8>,
    tables: &[Name],
    names: &[Name],
    place: usize,
    action: &Action,
) -> Result<(), Memory>
    ensures { OnOk result (out.new.items ≡ out.old.items
        ++ action_text tables.now names.now place action.now) }
{
    put_action_words(alloc, out, tables, names, place, action)?;
    out.extend_from_slice(b"\\l".as_slice())?;
    Ok(())
}

/// Writes the actions, the first binding one of which binds the name at that place, and answers the
/// next place.
pub(crate) fn put_actions(
    alloc: Global,
    out: &mut Vec<u8>,
    tables: &[Name],
    names: &[Name],
    place: usize,
    hop: &Hop,
) -> Result<usize, Memory>
    requires { place + MAX_ACTIONS < 2 ^ 64 }
    ensures next { IfOk result (λ next. next ≡ place + bound_in hop.now.actions) }
    ensures written { OnOk result (out.new.items ≡ out.old.items
        ++ actions_text tables.now names.now place hop.now.actions) }
{
    let mut next = place;
    for action in hop.actions.as_slice() {
        put_action(alloc, out, tables, names, next, action)?;
        next += bound_names(action);
    }
    Ok(next)
}

/// Writes which hop it is, and where.
fn put_hop_label(
    alloc: Global,
    out: &mut Vec<u8>,
    number: usize,
    server: ServerId,
) -> Result<(), Memory>
    ensures { OnOk result (out.new.items ≡ out.old.items ++ hop_label number server) }
{
    out.extend_from_slice(b"hop ".as_slice())?;
    put_number(alloc, out, number as u64)?;
    out.extend_from_slice(b" at server ".as_slice())?;
    put_number(alloc, out, u64::from(server.number()))?;
    out.extend_from_slice(b"\\n".as_slice())?;
    Ok(())
}

/// Writes a node's name, and where its label begins.
fn put_node_head(
    alloc: Global,
    out: &mut Vec<u8>,
    set: &ChainSet,
    spot: &Spot,
) -> Result<(), Memory>
    ensures { OnOk result (out.new.items ≡ out.old.items ++ node_head set.now spot.now) }
{
    out.extend_from_slice(b"    ".as_slice())?;
    put_spot(alloc, out, set, spot)?;
    out.extend_from_slice(b" [label=\"".as_slice())?;
    Ok(())
}

/// Writes where a node's label ends, and its colour.
fn put_node_end(out: &mut Vec<u8>, server: ServerId) -> Result<(), Memory>
    ensures { OnOk result (out.new.items ≡ out.old.items ++ node_end server) }
{
    out.extend_from_slice(b"\", fillcolor=\"".as_slice())?;
    out.extend_from_slice(colour_at(server.index()))?;
    out.extend_from_slice(b"\"];\n".as_slice())?;
    Ok(())
}

/// Writes the node of a hop, whose first binding action binds the name at that place, and answers
/// the next place.
fn put_node(
    alloc: Global,
    out: &mut Vec<u8>,
    set: &ChainSet,
    names: &[Name],
    place: usize,
    spot: &Spot,
    hop: &Hop,
) -> Result<usize, Memory>
    requires { place + MAX_ACTIONS < 2 ^ 64 }
    ensures next { IfOk result (λ next. next ≡ place + bound_in hop.now.actions) }
    ensures written { OnOk result (out.new.items ≡ out.old.items
        ++ node_line set.now names.now place spot.now hop.now) }
{
    let tables = set.tables().as_slice();
    put_node_head(alloc, out, set, spot)?;
    put_hop_label(alloc, out, spot.place.hop, hop.server)?;
    let next = put_actions(alloc, out, tables, names, place, hop)?;
    put_node_end(out, hop.server)?;
    Ok(next)
}

/// Writes the arrow to a hop from the one before it, if there is one.
fn put_arrow(alloc: Global, out: &mut Vec<u8>, set: &ChainSet, spot: &Spot) -> Result<(), Memory>
    ensures { OnOk result (out.new.items ≡ out.old.items ++ arrow_text set.now spot.now) }
{
    let Place { program, hop } = spot.place;
    if hop == 0 {
        return Ok(());
    }
    let before = Spot {
        place: Place {
            program,
            hop: hop - 1,
        },
        again: spot.again,
    };
    out.extend_from_slice(b"    ".as_slice())?;
    put_spot(alloc, out, set, &before)?;
    out.extend_from_slice(b" -> ".as_slice())?;
    put_spot(alloc, out, set, spot)?;
    out.extend_from_slice(b";\n".as_slice())?;
    Ok(())
}

/// Writes the node of a hop and the arrow to it, and answers the place of the next name that is
/// bound.
fn put_hop(
    alloc: Global,
    out: &mut Vec<u8>,
    set: &ChainSet,
    names: &[Name],
    place: usize,
    spot: &Spot,
    hop: &Hop,
) -> Result<usize, Memory>
    requires { place + MAX_ACTIONS < 2 ^ 64 }
    ensures next { IfOk result (λ next. next ≡ place + bound_in hop.now.actions) }
    ensures written { OnOk result (out.new.items ≡ out.old.items
        ++ hop_text set.now names.now place spot.now hop.now) }
{
    let next = put_node(alloc, out, set, names, place, spot, hop)?;
    put_arrow(alloc, out, set, spot)?;
    Ok(next)
}

/// Where a hop of a program is drawn.
pub(crate) fn spot_at(program: ProgramId, hop: usize, again: bool) -> Spot
    ensures { result ≡ spot_at program hop again }
{
    Spot {
        place: Place { program, hop },
        again,
    }
}

/// Writes the nodes of the hops, and the arrows from each to the next.
pub(crate) fn put_hops(
    alloc: Global,
    out: &mut Vec<u8>,
    set: &ChainSet,
    program: ProgramId,
    again: bool,
) -> Result<(), Memory>
    ensures { OnOk result (out.new.items ≡ out.old.items
        ++ drawn_hops set.now program again) }
{
    let Some(found) = set.program(program) else {
        return Ok(());
    };
    let names = found.names.as_slice();
    let hops = found.hops.as_slice();
    let mut place = found.parameters;
    for (number, hop) in hops.iter().enumerate() {
        let spot = spot_at(program, number, again);
        place = put_hop(alloc, out, set, names, place, &spot, hop)?;
    }
    Ok(())
}
