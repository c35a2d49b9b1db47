//! Which chain is next, among those that are left.
ghost use Rattle.std.specs.Prelude.{◌≡◌, ◌<◌, ◌≤◌, ℕ, length, IfSome, MatchOption};
ghost use Rattle.lynx_order.specs.inner.Picks.{AreHints, ComesBefore, IsFree, IsMarked, IsSquare, LeftBefore, NoneCommon, NoneFree};

use lynx_names::Items;

/// The first place that is marked in both, which is none below `from`.
fn first_common(row: &[bool], left: &[bool], from: usize) -> Option<usize>
    requires long { length left.now ≤ length row.now }
    requires none_below { NoneCommon row.now left.now from }
    ensures found { MatchOption result
        ((place : ℕ) → IsMarked left.now place → IsMarked row.now place → ⊥)
        (λ place. (place < length left.now) × IsMarked left.now place × IsMarked row.now place) }
    ensures first { IfSome result (NoneCommon row.now left.now) }
{
    for place in from..left.len() {
        if left[place] && row[place] {
            return Some(place);
        }
    }
    None
}

/// The first place that is marked.
pub(crate) fn first_marked(marks: &[bool]) -> Option<usize>
    ensures { MatchOption result ((place : ℕ) → IsMarked marks.now place
        → ⊥) (λ place. IsMarked marks.now place) }
{
    for (place, is_marked) in marks.iter().enumerate() {
        if *is_marked {
            return Some(place);
        }
    }
    None
}

/// The first chain that is left and precedes that one.
pub(crate) fn predecessor(table: &[Items<bool>], left: &[bool], place: usize) -> Option<usize>
    requires square { IsSquare table.now }
    requires whole { length left.now ≡ length table.now }
    requires within { place < length table.now }
    ensures { MatchOption result
        ((one : ℕ) → IsMarked left.now one → ComesBefore table.now one place → ⊥)
        (λ one. LeftBefore table.now left.now one place) }
{
    first_common(table[place].as_slice(), left, 0)
}

/// The same, with a place for each chain below which none that is left precedes it. So no chain is
/// asked twice.
fn next_predecessor(
    table: &[Items<bool>],
    left: &[bool],
    hints: &mut Vec<usize>,
    place: usize,
) -> Option<usize>
    requires square { IsSquare table.now }
    requires whole { length left.now ≡ length table.now }
    requires hints { AreHints table.now left.now hints.old.items }
    requires within { place < length table.now }
    ensures hints { AreHints table.now left.now hints.new.items }
    ensures found { MatchOption result
        ((one : ℕ) → IsMarked left.now one → ComesBefore table.now one place → ⊥)
        (λ one. LeftBefore table.now left.now one place) }
{
    let found = first_common(table[place].as_slice(), left, hints[place]);
    if let Some(one) = found {
        hints[place] = one;
    }
    found
}

/// The first chain that is left and that none which is left precedes.
pub(crate) fn first_free(
    table: &[Items<bool>],
    left: &[bool],
    hints: &mut Vec<usize>,
) -> Option<usize>
    requires square { IsSquare table.now }
    requires whole { length left.now ≡ length table.now }
    requires hints { AreHints table.now left.now hints.old.items }
    ensures hints { AreHints table.now left.now hints.new.items }
    ensures found { MatchOption result (NoneFree table.now left.now) (λ place.
        IsFree table.now left.now place) }
{
    for (place, is_left) in left.iter().enumerate() {
        if *is_left && next_predecessor(table, left, hints, place).is_none() {
            return Some(place);
        }
    }
    None
}
