//! The lines of conflicts, and of the steps of a walk.

ghost use Rattle.std.specs.Prelude.{◌≡◌, ◌<◌, ◌^◌, ◌++◌, OnOk, not, filter};
ghost use Rattle.std.specs.List.{flat_map};
ghost use Rattle.lynx_draw.specs.Steps.{is_walked};
ghost use Rattle.lynx_draw.specs.Lines.{arrow, conflict_line, conflict_lines, met_text, step_end, step_line, step_lines};

use crate::spot::{Spot, left_spot, put_spot, right_spot};
use crate::steps::{Step, Way, is_walked};
use crate::tables::put_listed;
use lynx_graph::{Edge, Place, tables_met};
use lynx_names::Memory;
use lynx_set::ChainSet;
use lynx_text::printing::put_number;
use std::alloc::Global;

/// Writes a line's beginning: the two nodes, and where its label begins.
fn put_arrow(
    alloc: Global,
    out: &mut Vec<u8>,
    set: &ChainSet,
    from: &Spot,
    to: &Spot,
) -> Result<(), Memory>
    ensures { OnOk result (out.new.items ≡ out.old.items ++ arrow set.now from.now to.now) }
{
    out.extend_from_slice(b"  ".as_slice())?;
    put_spot(alloc, out, set, from)?;
    out.extend_from_slice(b" -> ".as_slice())?;
    put_spot(alloc, out, set, to)?;
    out.extend_from_slice(b" [label=\" ".as_slice())?;
    Ok(())
}

/// Writes the tables at which the hops may conflict.
fn put_met(
    alloc: Global,
    out: &mut Vec<u8>,
    set: &ChainSet,
    left: &Place,
    right: &Place,
) -> Result<(), Memory>
    ensures { OnOk result (out.new.items ≡ out.old.items
        ++ met_text set.now left.now right.now) }
{
    let names = tables_met(alloc, set, left, right)?;
    put_listed(out, names.as_slice())
}

fn put_conflict(alloc: Global, out: &mut Vec<u8>, set: &ChainSet, edge: &Edge) -> Result<(), Memory>
    ensures { OnOk result (out.new.items ≡ out.old.items ++ conflict_line set.now edge.now) }
{
    put_arrow(alloc, out, set, &left_spot(edge), &right_spot(edge))?;
    put_met(alloc, out, set, &edge.left, &edge.right)?;
    out.extend_from_slice(b"\"];\n".as_slice())?;
    Ok(())
}

/// Writes a line for each edge by which no step goes.
pub(crate) fn put_conflicts(
    alloc: Global,
    out: &mut Vec<u8>,
    set: &ChainSet,
    edges: &[Edge],
    steps: &[Step],
) -> Result<(), Memory>
    ensures { OnOk result (out.new.items ≡ out.old.items
        ++ conflict_lines set.now steps.now edges.now) }
{
    for edge in edges {
        if !is_walked(edge, steps) {
            put_conflict(alloc, out, set, edge)?;
        }
    }
    Ok(())
}

/// Writes the rest of a step's label, and how it is drawn.
fn put_step_end(alloc: Global, out: &mut Vec<u8>, set: &ChainSet, step: &Step) -> Result<(), Memory>
    ensures { OnOk result (out.new.items ≡ out.old.items ++ step_end set.now step.now) }
{
    match step.way {
        Way::Conflict => {
            out.push(b' ')?;
            put_met(alloc, out, set, &step.from.place, &step.to.place)?;
            out.extend_from_slice(b"\"];\n".as_slice())?;
        }
        Way::Chain => out.extend_from_slice(b"\", style=solid, constraint=false];\n".as_slice())?,
    }
    Ok(())
}

/// Writes the step of that number.
fn put_step(
    alloc: Global,
    out: &mut Vec<u8>,
    set: &ChainSet,
    number: u64,
    step: &Step,
) -> Result<(), Memory>
    ensures { OnOk result (out.new.items ≡ out.old.items ++ step_line set.now number step.now) }
{
    put_arrow(alloc, out, set, &step.from, &step.to)?;
    put_number(alloc, out, number)?;
    put_step_end(alloc, out, set, step)
}

/// Writes the steps of a walk, numbered from 1.
pub(crate) fn put_steps(
    alloc: Global,
    out: &mut Vec<u8>,
    set: &ChainSet,
    steps: &[Step],
) -> Result<(), Memory>
    ensures { OnOk result (out.new.items ≡ out.old.items ++ step_lines set.now 1 steps.now) }
{
    for (number, step) in steps.iter().enumerate() {
        put_step(alloc, out, set, number as u64 + 1, step)?;
    }
    Ok(())
}
