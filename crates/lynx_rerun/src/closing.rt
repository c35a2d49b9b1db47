//! Letting go of servers and their stores.
ghost use Rattle.std.specs.Prelude.{◌≡◌, ◌∷◌, ◌++◌, [], IfOk, OnOk};
ghost use Rattle.lynx_store_files.specs.Closed.{AreClosed};
ghost use Rattle.lynx_rerun.specs.Reruns.{keepers_of};

use crate::fault::RerunFault;
use lynx_keep::Keeper;
use lynx_names::Memory;
use lynx_server::Server;
use lynx_store_files::{Stores, close_all};
use std::alloc::Global;

/// The keeper of one server more.
fn add<K: Keeper + Drop>(keepers: &mut Vec<K>, server: Server<K>) -> Result<(), Memory>
    ensures { OnOk result (keepers.new.items ≡ keepers.old.items ++ server.keeper ∷ []) }
{
    keepers.push(server.into_keeper())?;
    Ok(())
}

/// The keepers of the servers, in order.
pub(crate) fn keepers_of<K: Keeper + Drop>(
    alloc: Global,
    servers: Vec<Server<K>>,
) -> Result<Vec<K>, Memory>
    ensures { IfOk result (λ keepers. keepers.items ≡ keepers_of servers.items) }
{
    let mut keepers = Vec::new(alloc);
    for server in servers {
        add(&mut keepers, server)?;
    }
    Ok(keepers)
}

/// Closes each store: its log is copied into the file. The first fault is told, once all are
/// closed.
pub(crate) fn close_stores<K: Keeper + Drop, S: Stores<K>>(
    stores: &S,
    keepers: Vec<K>,
) -> Result<(), RerunFault>
    ensures { OnOk result (AreClosed S.store_terms.closed keepers.items) }
{
    match close_all(stores, keepers) {
        Ok(()) => Ok(()),
        Err((server, fault)) => Err(RerunFault::of_store(server, fault)),
    }
}
