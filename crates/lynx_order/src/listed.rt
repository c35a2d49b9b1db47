//! The entries of a world's list.
ghost use Rattle.std.specs.Prelude.{◌≡◌, ◌<◌, Some, length, option_map, slice_get};
ghost use Rattle.lynx_world.specs.Placed.{Placed};

use lynx_entry::Entry;
use lynx_world::World;

/// The entry at a place that the world's list has.
pub(crate) fn entry_at(world: &World, place: usize) -> &Entry
    requires { place < length world.now.list }
    ensures { Some result.now ≡ option_map (λ (placed : Placed). placed.entry)
        (slice_get world.now.list place) }
{
    match world.entry(place) {
        Some(listed) => listed.entry,
        None => unreachable!(),
    }
}
