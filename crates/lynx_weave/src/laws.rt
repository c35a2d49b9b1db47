//! Laws of what servers keep over stops, each the contract of a function that does nothing.
ghost use Rattle.std.specs.Prelude.{◌≤◌, ℕ, List};
ghost use Rattle.lynx_names.specs.declared.limits.TheConstants.{MAX_SERVERS};
ghost use Rattle.lynx_set.specs.Set.{Set};
ghost use Rattle.lynx_entry.specs.Entry.{History};
ghost use Rattle.lynx_world.specs.Placed.{Placed};
ghost use Rattle.lynx_world.specs.Legal.{IsLegal};
ghost use Rattle.lynx_world.specs.Order.{IsInOriginOrder, IsOnceAndInOrder};
ghost use Rattle.lynx_world.specs.Worlds.{WorldState};
ghost use Rattle.lynx_weave.specs.declared.told.ToldItem.{ToldItem};
ghost use Rattle.lynx_weave.specs.Weaving.{IsMismatch, IsWoven};
ghost use Rattle.lynx_weave.specs.Parts.{ArePartsOf};

/// What servers keep never mismatches, however often they stopped and were opened again: a stopped
/// call adds its lawful entry or nothing, so that what is kept are the parts of a legal list, and
/// of such no entry is a mismatch.
pub fn kept_parts_weave()
    ensures { (set : Set) (list : List Placed) (histories : List History) (server place : ℕ)
        → IsLegal set list → ArePartsOf set list histories → IsMismatch set histories server place
        → ⊥ }
{}

/// In a world that was woven of what servers keep each hop acts at most once and in chain order,
/// and two chains of one origin keep their order everywhere. What `explain` says of worlds holds of
/// it too.
pub fn woven_keeps_order()
    ensures { (set : Set) (histories : List History) (told : List (List ToldItem))
        (world : WorldState)
        → set.servers ≤ MAX_SERVERS → IsWoven set histories told world
        → IsOnceAndInOrder world.list × IsInOriginOrder world.list }
{}
