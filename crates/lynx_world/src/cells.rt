//! The cells of all servers.
ghost use Rattle.std.specs.Prelude.{◌≡◌, IfOk};
ghost use Rattle.std.specs.List.{flat_map};
ghost use Rattle.lynx_world.specs.inner.Servers.{cells_left};

use lynx_keep::MemoryKeeper;
use lynx_names::{Memory, TableId};
use lynx_server::Server;
use std::alloc::Global;

/// The nonzero cells of each of the servers, one server after another.
pub(crate) fn all_cells(
    alloc: Global,
    servers: &[Server<MemoryKeeper>],
) -> Result<Vec<(TableId, u64, u64)>, Memory>
    ensures { IfOk result (λ cells. cells.items ≡ flat_map cells_left servers.now) }
{
    let mut cells = Vec::new(alloc);
    for server in servers {
        let mut more = server.cells().list(alloc)?;
        cells.append(&mut more)?;
    }
    Ok(cells)
}
