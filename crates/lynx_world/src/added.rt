//! In which order servers added their entries.
ghost use Rattle.std.specs.Prelude.{◌≡◌, ◌<◌, ◌++◌, vec_capacity, vec_len};
ghost use Rattle.lynx_world.specs.inner.Calls.{noted};

use lynx_names::ServerId;

/// A server added an entry: the entry's place in the server's history.
#[derive(Clone, Copy, Debug, PartialEq, Eq)]
pub struct Added {
    pub server: ServerId,
    pub place: usize,
}

/// Notes the entry at the place of a history, if it has come to that length.
pub(crate) fn note(order: &mut Vec<Added>, server: ServerId, place: usize, len: usize)
    requires room { vec_len order.old < vec_capacity order.old }
    ensures { order.new.items ≡ order.old.items ++ noted server place len }
{
    if place < len {
        order.push_reserved(Added { server, place });
    }
}
