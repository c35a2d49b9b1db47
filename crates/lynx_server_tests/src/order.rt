//! The one list of all that the servers of a world did.
use lynx_world::World;

/// A server's number, and the stamp of an entry that it added.
pub type Stamped = (u8, u64);

/// Those are the servers and stamps of the world's entries, in its order.
pub fn is_order(world: &World, want: &[Stamped]) -> bool {
    for (place, want) in want.iter().enumerate() {
        let Some(listed) = world.entry(place) else {
            return false;
        };
        if (listed.server.number(), listed.entry.stamp().time()) != *want {
            return false;
        }
    }
    world.len() == want.len()
}
