ghost use Rattle.std.specs.Prelude.{◌≡◌, IsTrue, ◌↔◌, map};
ghost use Rattle.std.specs.List.{filter_map, list_any};
ghost use Rattle.lynx_foot.specs.Feet.{foot_of};
ghost use Rattle.lynx_foot.specs.Reaches.{reach_of};
ghost use Rattle.lynx_foot.specs.Conflicts.{MayConflict};
ghost use Rattle.lynx_foot.specs.Tests.{may_collide, may_meet, some_may_collide};

use crate::foot::foot_of;
use crate::reach::{Reach, reach_of};
use lynx_names::ProgramId;
use lynx_set::{Action, ChainSet, Interval, ParameterRange};

/// Whether keys of both intervals may meet.
fn keys_may_meet(left: Option<Interval>, right: Option<Interval>) -> bool
    ensures { result ≡ may_meet left right }
{
    match (left, right) {
        (Some(left), Some(right)) => left.meets(right),
        _ => true,
    }
}

/// Whether the reaches collide with some keys of theirs.
pub fn reaches_may_collide(left: Reach, right: Reach) -> bool
    ensures { result ≡ may_collide left right }
{
    left.table == right.table
        && keys_may_meet(left.keys, right.keys)
        && !left.kind.commutes(right.kind)
}

/// Whether some action, of a program whose parameters have these ranges, may collide with the
/// reach.
fn may_collide_with_any(left: Reach, actions: &[Action], ranges: &[ParameterRange]) -> bool
    ensures { result ≡ list_any (λ right. may_collide left right) (map (reach_of ranges.now)
        (filter_map foot_of actions.now)) }
{
    actions
        .iter()
        .filter_map(|action| foot_of(*action))
        .map(|foot| reach_of(ranges, foot))
        .any(|right| reaches_may_collide(left, right))
}

/// Whether some two actions of the hops may collide.
fn any_may_collide(
    lefts: &[Action],
    left_ranges: &[ParameterRange],
    rights: &[Action],
    right_ranges: &[ParameterRange],
) -> bool
    ensures { result ≡ some_may_collide (map (reach_of left_ranges.now)
        (filter_map foot_of lefts.now)) (map (reach_of right_ranges.now)
        (filter_map foot_of rights.now)) }
{
    lefts
        .iter()
        .filter_map(|action| foot_of(*action))
        .map(|foot| reach_of(left_ranges, foot))
        .any(|left| may_collide_with_any(left, rights, right_ranges))
}

/// Whether the two hops may conflict: they are at one server, and some reach of each is into one
/// table, with keys that may meet and kinds that don't commute. A literal is one key, a parameter
/// those of its range, all where it has none. A hop may be asked with itself. It takes no memory.
pub fn may_conflict(
    set: &ChainSet,
    left_program: ProgramId,
    left_hop: usize,
    right_program: ProgramId,
    right_hop: usize,
) -> bool
    ensures { IsTrue result ↔ MayConflict set.now left_program left_hop right_program right_hop }
{
    let left = set.hop(left_program, left_hop);
    let right = set.hop(right_program, right_hop);
    match (left, right) {
        (Some(left), Some(right)) => {
            left.server == right.server
                && any_may_collide(
                    left.actions.as_slice(),
                    set.ranges(left_program),
                    right.actions.as_slice(),
                    set.ranges(right_program),
                )
        }
        _ => false,
    }
}
