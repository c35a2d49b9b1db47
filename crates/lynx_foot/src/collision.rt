ghost use Rattle.std.specs.Prelude.{◌≡◌, IsTrue, ◌↔◌, map};
ghost use Rattle.std.specs.List.{filter_map, list_any};
ghost use Rattle.lynx_foot.specs.Feet.{foot_of, touch_of, touches_of};
ghost use Rattle.lynx_foot.specs.Conflicts.{Conflicts};
ghost use Rattle.lynx_foot.specs.Tests.{collide, some_collide};

use crate::foot::{actions_of, foot_of};
use crate::touch::{Touch, touch_of};
use lynx_names::ProgramId;
use lynx_set::{Action, ChainSet};

/// Whether the touches are of one cell, and their kinds don't commute.
pub fn touches_collide(left: Touch, right: Touch) -> bool
    ensures { result ≡ collide left right }
{
    left.table == right.table && left.key == right.key && !left.kind.commutes(right.kind)
}

/// Whether some action collides with the touch.
fn collides_with_any(left: Touch, actions: &[Action], args: &[u64]) -> bool
    ensures { result ≡ list_any (λ right. collide left right) (map (touch_of args.now)
        (filter_map foot_of actions.now)) }
{
    actions
        .iter()
        .filter_map(|action| foot_of(*action))
        .map(|foot| touch_of(args, foot))
        .any(|right| touches_collide(left, right))
}

/// Whether some two actions of the hops collide.
fn any_collide(lefts: &[Action], left_args: &[u64], rights: &[Action], right_args: &[u64]) -> bool
    ensures { result ≡ some_collide (map (touch_of left_args.now)
        (filter_map foot_of lefts.now)) (map (touch_of right_args.now)
        (filter_map foot_of rights.now)) }
{
    lefts
        .iter()
        .filter_map(|action| foot_of(*action))
        .map(|foot| touch_of(left_args, foot))
        .any(|left| collides_with_any(left, rights, right_args))
}

/// Whether the two hops conflict with these arguments of their chains: some cell is touched by
/// both, in kinds that don't commute. A hop may be asked with itself. It takes no memory.
pub fn conflict(
    set: &ChainSet,
    left_program: ProgramId,
    left_hop: usize,
    left_args: &[u64],
    right_program: ProgramId,
    right_hop: usize,
    right_args: &[u64],
) -> bool
    ensures { IsTrue result ↔ Conflicts (touches_of set.now left_program left_hop left_args.now)
        (touches_of set.now right_program right_hop right_args.now) }
{
    let lefts = actions_of(set, left_program, left_hop);
    let rights = actions_of(set, right_program, right_hop);
    any_collide(lefts, left_args, rights, right_args)
}
