//! Which hops of a set join.
ghost use Rattle.std.specs.Prelude.{◌≡◌};
ghost use Rattle.lynx_graph.specs.Tests.{joins, same_server};

use lynx_foot::may_conflict;
use lynx_names::{ProgramId, ServerId};
use lynx_set::ChainSet;

/// One hop of one program of a set, hops counted from 0.
#[derive(Clone, Copy, Debug, PartialEq, Eq)]
pub struct Place {
    pub program: ProgramId,
    pub hop: usize,
}

/// Whether the hops may conflict.
pub fn joins(set: &ChainSet, left: &Place, right: &Place) -> bool
    ensures { result ≡ joins set.now left.now right.now }
{
    may_conflict(set, left.program, left.hop, right.program, right.hop)
}

/// Whether the servers are one, or both are wanting.
pub fn same_server(left: Option<ServerId>, right: Option<ServerId>) -> bool
    ensures { result ≡ same_server left right }
{
    match (left, right) {
        (Some(left), Some(right)) => left == right,
        (None, None) => true,
        _ => false,
    }
}
