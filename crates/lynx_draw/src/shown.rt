//! Which programs and conflicts of a set are drawn.
ghost use Rattle.std.specs.Prelude.{◌≡◌, ◌&&◌, IfOk, not};
ghost use Rattle.lynx_draw.specs.Shown.{is_one_of, shown_edges, shown_programs, shows, shows_edge, walk_drawn, walk_in};

use crate::boxes::{Boxes, is_boxed};
use crate::late::{LateBlocks, is_late, is_met};
use crate::steps::visits;
use lynx_check::Verdict;
use lynx_graph::{Edge, Visit, program_of};
use lynx_names::{Memory, ProgramId};
use lynx_set::ChainSet;
use std::alloc::Global;

/// Which programs of a set are drawn.
#[derive(Clone, Copy, Debug, Default, PartialEq, Eq)]
pub enum Extent {
    /// All of them.
    #[default]
    All,
    /// Those alone that the closed walk visits which offends, excused or not: none where no walk
    /// does.
    Walk,
    /// Those alone of the blocks that stand in the way of an offending set, and those that these
    /// meet, without the steps of a walk: none of an accepted set.
    Late,
}

/// The closed walk that offends, excused or not; no visit where no walk does.
pub(crate) fn walk_in(verdict: &Verdict) -> &[Visit]
    ensures { result.now ≡ walk_in verdict.now }
{
    match verdict {
        Verdict::Accepted(accepted) => match accepted.excused() {
            Some(walk) => walk.as_slice(),
            None => &[],
        },
        Verdict::Offending(walk, _) => walk.as_slice(),
    }
}

/// The walk of which the steps are drawn.
pub(crate) fn walk_drawn(shown: Extent, verdict: &Verdict) -> &[Visit]
    ensures { result.now ≡ walk_drawn shown verdict.now }
{
    match shown {
        Extent::All | Extent::Walk => walk_in(verdict),
        Extent::Late => &[],
    }
}

/// Whether the program is drawn.
fn shows(shown: Extent, verdict: &Verdict, late: &LateBlocks, program: ProgramId) -> bool
    ensures { result ≡ shows shown verdict.now late.now program }
{
    match shown {
        Extent::All => true,
        Extent::Walk => visits(walk_in(verdict), program),
        Extent::Late => is_late(late, program) || is_met(late, program),
    }
}

/// The programs that are drawn, in the order of the set.
pub(crate) fn shown_programs(
    alloc: Global,
    set: &ChainSet,
    verdict: &Verdict,
    late: &LateBlocks,
    shown: Extent,
) -> Result<Vec<ProgramId>, Memory>
    ensures { IfOk result (λ programs. programs.items
        ≡ shown_programs shown set.now verdict.now late.now) }
{
    let mut programs = Vec::new(alloc);
    for number in 0..set.programs().len() {
        let program = program_of(number);
        if shows(shown, verdict, late, program) {
            programs.push(program)?;
        }
    }
    Ok(programs)
}

/// Whether the program is one of these.
fn is_one_of(programs: &[ProgramId], program: ProgramId) -> bool
    ensures { result ≡ is_one_of programs.now program }
{
    programs.iter().any(|own| *own == program)
}

/// Whether both ends of the edge are of these programs, and it isn't within a box.
fn shows_edge(programs: &[ProgramId], boxes: &Boxes, edge: &Edge) -> bool
    ensures { result ≡ shows_edge programs.now boxes.now edge.now }
{
    is_one_of(programs, edge.left.program)
        && is_one_of(programs, edge.right.program)
        && !is_boxed(boxes, edge.left.program)
}

/// The edges that are drawn where these programs are.
pub(crate) fn shown_edges(
    alloc: Global,
    edges: &[Edge],
    boxes: &Boxes,
    programs: &[ProgramId],
) -> Result<Vec<Edge>, Memory>
    ensures { IfOk result (λ drawn. drawn.items
        ≡ shown_edges programs.now boxes.now edges.now) }
{
    let mut drawn = Vec::new(alloc);
    for edge in edges {
        if shows_edge(programs, boxes, edge) {
            drawn.push(*edge)?;
        }
    }
    Ok(drawn)
}
