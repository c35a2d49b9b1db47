//! The blocks that stand in the way of an offending set, and what they meet.
ghost use Rattle.std.specs.Prelude.{◌≡◌, IfOk};
ghost use Rattle.lynx_graph.specs.Edges.{edges_of};
ghost use Rattle.lynx_draw.specs.Late.{blocks_in, hops_met, is_end, is_late, is_met, late_of};

use lynx_check::Verdict;
use lynx_graph::{Block, Edge, Place, entrance_of, exit_of, places_of};
use lynx_late::{hops_abroad, late_blocks};
use lynx_names::{Items, Memory, ProgramId};
use lynx_set::ChainSet;
use std::alloc::Global;

/// The late blocks of an offending set, and the hops of programs of other origins that they meet
/// where they are entered and where they are left.
#[derive(Drop)]
pub(crate) struct LateBlocks {
    pub blocks: Items<Block>,
    pub met: Items<Place>,
}

/// The blocks that stand in the way; none does of an accepted set.
fn blocks_in(
    alloc: Global,
    set: &ChainSet,
    edges: &[Edge],
    verdict: &Verdict,
) -> Result<Vec<Block>, Memory>
    requires { edges.now ≡ edges_of set.now }
    ensures { IfOk result (λ blocks. blocks.items ≡ blocks_in set.now verdict.now) }
{
    match verdict {
        Verdict::Accepted(_) => Ok(Vec::new(alloc)),
        Verdict::Offending(_, _) => late_blocks(alloc, set, edges),
    }
}

/// Whether one of the blocks is entered or left at the hop.
fn is_end(blocks: &[Block], place: &Place) -> bool
    ensures { result ≡ is_end blocks.now place.now }
{
    blocks.iter().any(|block| entrance_of(block) == *place || exit_of(block) == *place)
}

/// The hops of programs of other origins that the blocks meet.
fn hops_met(
    alloc: Global,
    set: &ChainSet,
    edges: &[Edge],
    blocks: &[Block],
) -> Result<Vec<Place>, Memory>
    requires { edges.now ≡ edges_of set.now }
    ensures { IfOk result (λ hops. hops.items ≡ hops_met set.now blocks.now) }
{
    let places = places_of(alloc, set)?;
    let mut met = Vec::new(alloc);
    for place in places.as_slice() {
        if is_end(blocks, place) {
            let hops = hops_abroad(alloc, set, edges, place)?;
            met.extend_from_slice(hops.as_slice())?;
        }
    }
    Ok(met)
}

/// The late blocks of an offending set of which these are the edges, and what they meet.
pub(crate) fn late_of(
    alloc: Global,
    set: &ChainSet,
    edges: &[Edge],
    verdict: &Verdict,
) -> Result<LateBlocks, Memory>
    requires { edges.now ≡ edges_of set.now }
    ensures { IfOk result (λ late. late ≡ late_of set.now verdict.now) }
{
    let blocks = blocks_in(alloc, set, edges, verdict)?;
    let met = hops_met(alloc, set, edges, blocks.as_slice())?;
    Ok(LateBlocks {
        blocks: Items::from_vec(blocks),
        met: Items::from_vec(met),
    })
}

/// Whether one of the blocks is of the program.
pub(crate) fn is_late(late: &LateBlocks, program: ProgramId) -> bool
    ensures { result ≡ is_late late.now program }
{
    late.blocks.as_slice().iter().any(|block| {
        entrance_of(block).program == program || exit_of(block).program == program
    })
}

/// Whether one of the blocks meets the program.
pub(crate) fn is_met(late: &LateBlocks, program: ProgramId) -> bool
    ensures { result ≡ is_met late.now program }
{
    late.met
        .as_slice()
        .iter()
        .any(|place| place.program == program)
}
