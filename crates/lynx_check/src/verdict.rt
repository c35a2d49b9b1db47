use crate::accepted::AcceptedSet;
use lynx_graph::block::BlockWalk;
use lynx_graph::visit::Walk;

/// What is judged of a set.
#[derive(Debug, Drop)]
pub enum Verdict {
    /// No closed walk of the set offends, or no walk of blocks does.
    Accepted(AcceptedSet),
    /// A closed walk that offends, and a walk of blocks that does.
    Offending(Walk, BlockWalk),
}
