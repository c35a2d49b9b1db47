//! The laws of conflict, each the contract of a function that does nothing.
//! `proofs/ConflictLaws.antt` has the lemmas.
ghost use Rattle.std.specs.Prelude.{◌≡◌, ℕ, List, true};
ghost use Rattle.lynx_set.specs.Set.{Set};
ghost use Rattle.lynx_set.specs.Intervals.{are_in_range};
ghost use Rattle.lynx_set.specs.Lookups.{ranges_of};
ghost use Rattle.lynx_foot.specs.declared.touch.Touch.{Touch};
ghost use Rattle.lynx_foot.specs.Feet.{touches_of};
ghost use Rattle.lynx_foot.specs.Conflicts.{Conflicts, KeysLieAtServer, MayConflict};

/// Conflict needs no order.
pub fn conflict_needs_no_order()
    ensures { (lefts rights : List Touch) → Conflicts lefts rights → Conflicts rights lefts }
{}

/// Nor does a conflict that may be.
pub fn may_conflict_needs_no_order()
    ensures { (set : Set) (left_program left_hop right_program right_hop : ℕ)
        → MayConflict set left_program left_hop right_program right_hop
        → MayConflict set right_program right_hop left_program left_hop }
{}

/// Where the arguments of two hops lie in their ranges, and the keys at the hops' servers, hops
/// that conflict may conflict.
pub fn hops_that_conflict_may_conflict()
    ensures { (set : Set) (left_program left_hop right_program right_hop : ℕ)
        (left_args right_args : List ℕ)
        → are_in_range (ranges_of set left_program) left_args ≡ true
        → are_in_range (ranges_of set right_program) right_args ≡ true
        → KeysLieAtServer set left_program left_hop left_args
        → KeysLieAtServer set right_program right_hop right_args
        → Conflicts (touches_of set left_program left_hop left_args)
        (touches_of set right_program right_hop right_args)
        → MayConflict set left_program left_hop right_program right_hop }
{}
