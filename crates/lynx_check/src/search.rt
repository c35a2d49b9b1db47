//! The least of the shortest walks that begin by leaving at one hop.
ghost use Rattle.std.specs.Prelude.{◌≡◌, ◌↔◌, IsTrue, IfOk, false, nat_le};
ghost use Rattle.std.specs.Option.{option_map_or};
ghost use Rattle.std.specs.List.{Contains};
ghost use Rattle.lynx_check.specs.inner.Searches.{Answers};

use crate::marks::{Marks, first_table, leaves, next_table};
use crate::tracing::read_walk;
use lynx_graph::nodes::Node;
use lynx_graph::visit::Walk;
use lynx_names::{Items, Memory};
use std::alloc::Global;

/// What a search from one start came to.
#[derive(Drop)]
pub(crate) enum Outcome {
    Found(Walk),
    /// No walk from here, of whatever length.
    Nothing,
    /// No walk within the limit.
    Longer,
}

fn is_reached(limit: Option<usize>, count: usize) -> bool
    ensures { result ≡ option_map_or (λ most. nat_le most count) limit false }
{
    match limit {
        Some(limit) => limit <= count,
        None => false,
    }
}

fn is_same(left: &[Marks], right: &[Marks]) -> bool
    ensures { IsTrue result ↔ (left.now ≡ right.now) }
{
    left == right
}

/// Searches for the least of the shortest walks whose first visit is left at the start. With a
/// limit, only for walks with at most so many visits after the first.
pub(crate) fn search(
    alloc: Global,
    nodes: &[Node],
    start: &Node,
    limit: Option<usize>,
) -> Result<Outcome, Memory>
    requires { Contains nodes.now start.now }
    ensures { IfOk result (λ outcome. Answers nodes.now start.now limit outcome) }
{
    let mut levels = Items::new(alloc);
    let mut table = Items::from_vec(first_table(alloc, nodes, start)?);
    'deeper: while !leaves(table.as_slice(), start, false, false) {
        if is_reached(limit, levels.len()) {
            return Ok(Outcome::Longer);
        }
        let next = Items::from_vec(next_table(alloc, nodes, start, table.as_slice())?);
        if is_same(next.as_slice(), table.as_slice()) {
            return Ok(Outcome::Nothing);
        }
        levels.push(table)?;
        table = next;
    }
    levels.push(table)?;
    let walk = read_walk(alloc, nodes, start, levels.as_slice())?;
    Ok(Outcome::Found(walk))
}
