//! Sessions that were made and aren't handed in.
ghost use Rattle.std.specs.Prelude.{◌≡◌, ◌⊎◌, ℕ, true, IfOk, length};
ghost use Rattle.lynx_cluster.specs.inner.Absent.{AreMarked, IsAbsent, IsFirstUnmarked, is_marked};

use crate::session::Session;
use lynx_names::Memory;
use std::alloc::Global;

/// Marks the number, where it has a place.
fn mark(is_here: &mut Vec<bool>, number: u64)
    ensures marked { is_marked is_here.new.items number ≡ true }
    ensures others { (other : ℕ) → is_marked is_here.old.items other ≡ true
        → is_marked is_here.new.items other ≡ true }
    ensures only { (other : ℕ) → is_marked is_here.new.items other ≡ true
        → (is_marked is_here.old.items other ≡ true) ⊎ (other ≡ number) }
    ensures as_long { length is_here.new.items ≡ length is_here.old.items }
{
    let place = number as usize;
    if place < is_here.len() {
        is_here[place] = true;
    }
}

/// Marks the numbers of all these sessions.
fn mark_all(is_here: &mut Vec<bool>, sessions: &[Session])
    ensures { AreMarked sessions.now is_here.old.items is_here.new.items }
{
    for session in sessions {
        mark(is_here, session.number());
    }
}

/// The first number without a mark.
fn first_unmarked(is_here: &[bool]) -> Option<u64>
    ensures { IsFirstUnmarked is_here.now result }
{
    for (number, is_marked) in is_here.iter().enumerate() {
        if !*is_marked {
            return Some(number as u64);
        }
    }
    None
}

/// The first number below the count of those made that none of the sessions has, None where each of
/// them is a session's. Each session and each number is gone over once.
pub(crate) fn first_absent(
    alloc: Global,
    made: u64,
    sessions: &[Session],
) -> Result<Option<u64>, Memory>
    ensures { IfOk result (IsAbsent made sessions.now) }
{
    let mut is_here = vec![in alloc; false; made as usize]?;
    mark_all(&mut is_here, sessions);
    Ok(first_unmarked(is_here.as_slice()))
}
