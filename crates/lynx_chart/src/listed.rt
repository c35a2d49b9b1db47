//! The entries of a world's list.
ghost use Rattle.std.specs.Prelude.{◌≡◌, ◌<◌, Some, length, slice_get};
ghost use Rattle.lynx_world.specs.Servers.{placed_as};

use lynx_world::{Listed, World};

/// The entry at a place that the world's list has.
pub(crate) fn listed_at(world: &World, place: usize) -> Listed<'_>
    requires { place < length world.now.list }
    ensures { placed_as (Some result) ≡ slice_get world.now.list place }
{
    match world.entry(place) {
        Some(listed) => listed,
        None => unreachable!(),
    }
}
