//! The least of the shortest walks of a set.
ghost use Rattle.std.specs.Prelude.{◌≡◌, ◌↔◌, IfOk, IsSome, MatchOption};
ghost use Rattle.lynx_check.specs.inner.Tracing.{IsSound};
ghost use Rattle.lynx_check.specs.inner.Searches.{HasNone, better};

use crate::search::{Outcome, search};
use lynx_graph::nodes::Node;
use lynx_graph::visit::Walk;
use lynx_names::Memory;
use std::alloc::Global;

/// With fewer visits than this walk a walk has at most so many after the first.
fn limit_below(best: &Option<Walk>) -> Option<usize>
    ensures { IsSome result ↔ IsSome best.now }
{
    match best {
        Some(walk) => Some(walk.len().saturating_sub(2)),
        None => None,
    }
}

/// A walk that was found within the limit has fewer visits than the best so far.
fn better(best: Option<Walk>, outcome: Outcome) -> Option<Walk>
    ensures { result ≡ better best outcome }
{
    match outcome {
        Outcome::Found(walk) => Some(walk),
        Outcome::Nothing | Outcome::Longer => best,
    }
}

/// The walk with the fewest visits of all that offend, the least of those, where there is one.
pub(crate) fn shortest(alloc: Global, nodes: &[Node]) -> Result<Option<Walk>, Memory>
    ensures { IfOk result (λ found. MatchOption found (HasNone nodes.now) (IsSound nodes.now)) }
{
    let mut best = None;
    for start in nodes {
        let outcome = search(alloc, nodes, start, limit_below(&best))?;
        best = better(best, outcome);
    }
    Ok(best)
}
