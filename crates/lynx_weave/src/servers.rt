//! Servers by their numbers.
ghost use Rattle.std.specs.Prelude.{◌≡◌, option_copied, slice_get};

use lynx_keep::Keeper;
use lynx_names::ServerId;
use lynx_server::Server;

/// The server of that number.
pub(crate) fn server_at<K: Keeper>(servers: &[Server<K>], server: ServerId) -> Option<&Server<K>>
    ensures { option_copied result ≡ slice_get servers.now server }
{
    servers.get(server.index())
}
