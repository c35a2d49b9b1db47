//! The marks on the changed hops of a changed set.

ghost use Rattle.std.specs.Prelude.{◌≡◌, ◌++◌, OnOk};
ghost use Rattle.std.specs.List.{flat_map};
ghost use Rattle.lynx_draw.specs.Marks.{drawn_marks, hop_marks, mark_line, marks_text, program_marks};

use crate::boxes::{Boxes, is_boxed};
use crate::captions::mark_end;
use crate::changes::changed_hops;
use crate::nodes::spot_at;
use crate::spot::{Spot, is_drawn_twice, put_spot};
use lynx_graph::Edge;
use lynx_names::{Memory, ProgramId};
use lynx_set::ChainSet;
use std::alloc::Global;

/// Writes a thick frame around a hop's node.
fn put_mark(alloc: Global, out: &mut Vec<u8>, set: &ChainSet, spot: &Spot) -> Result<(), Memory>
    ensures { OnOk result (out.new.items ≡ out.old.items ++ mark_line set.now spot.now) }
{
    out.extend_from_slice(b"    ".as_slice())?;
    put_spot(alloc, out, set, spot)?;
    out.extend_from_slice(mark_end())?;
    Ok(())
}

/// Writes the frames of a hop, of whose program it says whether it is drawn twice.
fn put_hop_marks(
    alloc: Global,
    out: &mut Vec<u8>,
    set: &ChainSet,
    twice: bool,
    program: ProgramId,
    hop: usize,
) -> Result<(), Memory>
    ensures { OnOk result (out.new.items ≡ out.old.items ++ hop_marks set.now twice program hop) }
{
    put_mark(alloc, out, set, &spot_at(program, hop, false))?;
    if twice {
        put_mark(alloc, out, set, &spot_at(program, hop, true))?;
    }
    Ok(())
}

/// Writes the frames of a program's changed hops.
fn put_program_marks(
    alloc: Global,
    out: &mut Vec<u8>,
    before: &ChainSet,
    set: &ChainSet,
    edges: &[Edge],
    program: ProgramId,
) -> Result<(), Memory>
    ensures { OnOk result (out.new.items ≡ out.old.items
        ++ program_marks before.now set.now edges.now program) }
{
    let hops = changed_hops(alloc, before, set, program)?;
    let twice = is_drawn_twice(edges, program);
    for hop in hops.as_slice() {
        put_hop_marks(alloc, out, set, twice, program, *hop)?;
    }
    Ok(())
}

/// Writes the frames of a program that is drawn. One of a box has none.
fn put_drawn_marks(
    alloc: Global,
    out: &mut Vec<u8>,
    before: &ChainSet,
    set: &ChainSet,
    boxes: &Boxes,
    edges: &[Edge],
    program: ProgramId,
) -> Result<(), Memory>
    ensures { OnOk result (out.new.items ≡ out.old.items
        ++ drawn_marks before.now set.now boxes.now edges.now program) }
{
    if is_boxed(boxes, program) {
        Ok(())
    } else {
        put_program_marks(alloc, out, before, set, edges, program)
    }
}

/// Writes the frames of these programs.
pub(crate) fn put_marks(
    alloc: Global,
    out: &mut Vec<u8>,
    before: &ChainSet,
    set: &ChainSet,
    boxes: &Boxes,
    edges: &[Edge],
    programs: &[ProgramId],
) -> Result<(), Memory>
    ensures { OnOk result (out.new.items ≡ out.old.items
        ++ marks_text before.now set.now boxes.now edges.now programs.now) }
{
    for program in programs {
        put_drawn_marks(alloc, out, before, set, boxes, edges, *program)?;
    }
    Ok(())
}
