//! Entries of a world's list, as they are lent.
ghost use Rattle.std.specs.Prelude.{◌≡◌, option_copied, slice_get};
ghost use Rattle.lynx_world.specs.Servers.{placed_as, placed_of};

use crate::added::Added;
use lynx_entry::Entry;
use lynx_keep::MemoryKeeper;
use lynx_names::ServerId;
use lynx_server::Server;

/// An entry of a world's list, and the server that added it.
#[derive(Clone, Copy, Debug)]
pub struct Listed<'a> {
    pub server: ServerId,
    pub entry: &'a Entry,
}

/// What was added at that place of the order.
pub(crate) fn added_at(order: &[Added], place: usize) -> Option<&Added>
    ensures { option_copied result ≡ slice_get order.now place }
{
    order.get(place)
}

/// The server of that number.
pub(crate) fn server_at(
    servers: &[Server<MemoryKeeper>],
    server: ServerId,
) -> Option<&Server<MemoryKeeper>>
    ensures { option_copied result ≡ slice_get servers.now server }
{
    servers.get(server.index())
}

/// The entry that was added.
pub(crate) fn lend<'a>(servers: &'a [Server<MemoryKeeper>], added: &Added) -> Option<Listed<'a>>
    ensures { placed_as result ≡ placed_of servers.now added.now }
{
    let server = server_at(servers, added.server)?;
    let entry = server.entry(added.place)?;
    Some(Listed {
        server: added.server,
        entry,
    })
}
