//! The tables in which two hops meet.

ghost use Rattle.std.specs.Prelude.{◌≡◌, ◌==◌, ◌&&◌, IfOk};
ghost use Rattle.std.specs.List.{list_any};
ghost use Rattle.lynx_foot.specs.Tests.{may_collide};
ghost use Rattle.lynx_graph.specs.Tables.{met_at, tables_met};

use crate::meeting::Place;
use lynx_foot::{Reach, reaches, reaches_may_collide};
use lynx_names::Memory;
use lynx_set::{ChainSet, Name};
use std::alloc::Global;

/// Whether the reach may collide with one of the others.
fn collides_with_any(left: Reach, rights: &[Reach]) -> bool
    ensures { result ≡ list_any (may_collide left) rights.now }
{
    rights.iter().any(|right| reaches_may_collide(left, *right))
}

/// Whether the reach is of the table of that number, and may collide with one of the others.
fn collides_at(left: Reach, rights: &[Reach], table: usize) -> bool
    ensures { result ≡ (left.table == table && list_any (may_collide left) rights.now) }
{
    left.table.index() == table && collides_with_any(left, rights)
}

/// Whether two reaches may collide in the table of that number.
fn met_at(lefts: &[Reach], rights: &[Reach], table: usize) -> bool
    ensures { result ≡ met_at lefts.now rights.now table }
{
    lefts.iter().any(|left| collides_at(*left, rights, table))
}

/// The names of the tables in which the hops may collide, in the order of the set.
pub fn tables_met(
    alloc: Global,
    set: &ChainSet,
    left: &Place,
    right: &Place,
) -> Result<Vec<Name>, Memory>
    ensures { IfOk result (λ names. names.items ≡ tables_met set.now left.now right.now) }
{
    let lefts = reaches(alloc, set, left.program, left.hop)?;
    let rights = reaches(alloc, set, right.program, right.hop)?;
    let names = set
        .tables()
        .as_slice()
        .iter()
        .enumerate()
        .filter(|(table, _)| met_at(lefts.as_slice(), rights.as_slice(), *table))
        .map(|(_, name)| *name)
        .collect(alloc)?;
    Ok(names)
}
