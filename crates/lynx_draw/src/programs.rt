//! The programs of a picture.

ghost use Rattle.std.specs.Prelude.{◌≡◌, ◌++◌, OnOk};
ghost use Rattle.std.specs.List.{flat_map};
ghost use Rattle.lynx_draw.specs.Programs.{drawn_text, program_text, programs_text};

use crate::boxes::{Boxes, is_boxed, put_box};
use crate::clusters::put_cluster;
use crate::late::{LateBlocks, is_late};
use crate::spot::is_drawn_twice;
use lynx_graph::{Edge, leader_of};
use lynx_names::{Memory, ProgramId};
use lynx_set::ChainSet;
use std::alloc::Global;

/// Writes a program once or twice.
fn put_program(
    alloc: Global,
    out: &mut Vec<u8>,
    set: &ChainSet,
    late: &LateBlocks,
    edges: &[Edge],
    program: ProgramId,
) -> Result<(), Memory>
    ensures { OnOk result (out.new.items ≡ out.old.items
        ++ program_text set.now late.now edges.now program) }
{
    let own = is_late(late, program);
    put_cluster(alloc, out, set, own, program, false)?;
    if is_drawn_twice(edges, program) {
        put_cluster(alloc, out, set, own, program, true)?;
    }
    Ok(())
}

/// Writes a program. One that leads a large group stands for its box, and the others of the group
/// for nothing.
fn put_drawn(
    alloc: Global,
    out: &mut Vec<u8>,
    set: &ChainSet,
    boxes: &Boxes,
    late: &LateBlocks,
    edges: &[Edge],
    program: ProgramId,
) -> Result<(), Memory>
    ensures { OnOk result (out.new.items ≡ out.old.items
        ++ drawn_text set.now boxes.now late.now edges.now program) }
{
    if !is_boxed(boxes, program) {
        put_program(alloc, out, set, late, edges, program)
    } else if leader_of(boxes.members.as_slice(), program) == program {
        put_box(alloc, out, set, boxes, edges, program)
    } else {
        Ok(())
    }
}

/// Writes these programs of a set of which these hops may conflict.
pub(crate) fn put_programs(
    alloc: Global,
    out: &mut Vec<u8>,
    set: &ChainSet,
    boxes: &Boxes,
    late: &LateBlocks,
    edges: &[Edge],
    programs: &[ProgramId],
) -> Result<(), Memory>
    ensures { OnOk result (out.new.items ≡ out.old.items
        ++ programs_text set.now boxes.now late.now edges.now programs.now) }
{
    for program in programs {
        put_drawn(alloc, out, set, boxes, late, edges, *program)?;
    }
    Ok(())
}
