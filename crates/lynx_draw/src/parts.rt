//! What a picture is drawn by.

ghost use Rattle.std.specs.Prelude.{◌≡◌, IfOk};
ghost use Rattle.lynx_graph.specs.Edges.{edges_of};
ghost use Rattle.lynx_graph.specs.Together.{AreLed};
ghost use Rattle.lynx_draw.specs.Boxes.{boxes_of};
ghost use Rattle.lynx_draw.specs.Parts.{parts_of, steps_in};

use crate::boxes::{Boxes, boxes_of};
use crate::late::{LateBlocks, late_of};
use crate::shown::{Extent, shown_programs, walk_drawn};
use crate::steps::{Step, steps_of};
use lynx_check::Verdict;
use lynx_graph::{Edge, members_of};
use lynx_names::{Items, Memory, ProgramId};
use lynx_set::ChainSet;
use std::alloc::Global;

/// The large groups, what stands in the way, the programs that are drawn, and the steps of the
/// walk.
#[derive(Drop)]
pub(crate) struct Parts {
    pub boxes: Boxes,
    pub late: LateBlocks,
    pub programs: Items<ProgramId>,
    pub steps: Items<Step>,
}

/// The boxes of a set of which these hops may conflict.
fn boxes_in(alloc: Global, set: &ChainSet, edges: &[Edge]) -> Result<Boxes, Memory>
    requires { edges.now ≡ edges_of set.now }
    ensures { IfOk result (λ boxes. (boxes ≡ boxes_of set.now boxes.members)
        × AreLed set.now boxes.members) }
{
    let members = members_of(alloc, set, edges)?;
    boxes_of(alloc, set, Items::from_vec(members))
}

/// The steps that are drawn.
fn steps_in(
    alloc: Global,
    edges: &[Edge],
    verdict: &Verdict,
    shown: Extent,
) -> Result<Items<Step>, Memory>
    ensures { IfOk result (λ steps. steps ≡ steps_in shown edges.now verdict.now) }
{
    steps_of(alloc, edges, walk_drawn(shown, verdict))
}

/// The parts of the picture of a set of which these hops may conflict, and of the verdict on it.
pub(crate) fn parts_of(
    alloc: Global,
    set: &ChainSet,
    edges: &[Edge],
    verdict: &Verdict,
    shown: Extent,
) -> Result<Parts, Memory>
    requires { edges.now ≡ edges_of set.now }
    ensures { IfOk result (λ parts. (parts
        ≡ parts_of shown set.now verdict.now parts.boxes.members)
        × AreLed set.now parts.boxes.members) }
{
    let boxes = boxes_in(alloc, set, edges)?;
    let late = late_of(alloc, set, edges, verdict)?;
    let programs = shown_programs(alloc, set, verdict, &late, shown)?;
    let steps = steps_in(alloc, edges, verdict, shown)?;
    Ok(Parts {
        boxes,
        late,
        programs: Items::from_vec(programs),
        steps,
    })
}
