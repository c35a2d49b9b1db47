ghost use Rattle.std.specs.Prelude.{IfOk};
ghost use Rattle.lynx_check.specs.Verdicts.{Judges};

use crate::accepted::AcceptedSet;
use crate::backward::offending_blocks;
use crate::offender::offending_walk;
use crate::verdict::Verdict;
use lynx_graph::nodes::nodes_of;
use lynx_names::{Memory, TryCopy};
use lynx_set::ChainSet;
use std::alloc::Global;

/// Judges the set: it is accepted if no closed walk offends, or no walk of blocks does. The closed
/// walk given has the fewest visits of all that offend; of those it is the one whose list of
/// conflict edges (program, hop left, next program, hop entered) is the least, compared number by
/// number, and it begins with the visit whose leaving edge stands first in that list. Memory is
/// answered where a growth was refused.
pub fn check(alloc: Global, set: &ChainSet) -> Result<Verdict, Memory>
    ensures { IfOk result (Judges set.now) }
{
    let nodes = nodes_of(alloc, set)?;
    let nodes = nodes.as_slice();
    match offending_walk(alloc, set, nodes)? {
        None => Ok(Verdict::Accepted(AcceptedSet::new(set.copy(alloc)?, None))),
        Some(walk) => match offending_blocks(alloc, set, nodes)? {
            None => Ok(Verdict::Accepted(AcceptedSet::new(set.copy(alloc)?, Some(walk)))),
            Some(blocks) => Ok(Verdict::Offending(walk, blocks)),
        },
    }
}
