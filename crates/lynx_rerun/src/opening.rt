//! Opening servers over their stores.
ghost use Rattle.std.specs.Prelude.{◌≡◌, ◌∷◌, ◌++◌, [], IfOk, OnOk, length};
ghost use Rattle.lynx_server.specs.Opening.{IsOpened};
ghost use Rattle.lynx_rerun.specs.Reruns.{AreOpened, AreOver};

use crate::fault::RerunFault;
use lynx_keep::Keeper;
use lynx_names::{Memory, ServerId};
use lynx_server::Server;
use lynx_set::ChainSet;
use lynx_store_files::{Stores, open_folder};
use std::alloc::Global;

/// The server over what its store keeps.
fn open<K: Keeper + Drop>(
    alloc: Global,
    set: &ChainSet,
    server: ServerId,
    keeper: K,
) -> Result<Server<K>, RerunFault>
    ensures { IfOk result (IsOpened K.terms set.now server keeper) }
{
    match Server::open(alloc, set, server, keeper) {
        Ok(opened) => Ok(opened),
        Err(fault) => Err(RerunFault::of_contents(server, fault)),
    }
}

/// One server more.
fn add<K: Keeper + Drop>(servers: &mut Vec<Server<K>>, opened: Server<K>) -> Result<(), Memory>
    ensures { OnOk result (servers.new.items ≡ servers.old.items ++ opened ∷ []) }
{
    servers.push(opened)?;
    Ok(())
}

/// The servers of the set, each over its keeper.
fn open_servers<K: Keeper + Drop>(
    alloc: Global,
    set: &ChainSet,
    keepers: Vec<K>,
) -> Result<Vec<Server<K>>, RerunFault>
    requires { length keepers.items ≡ set.now.servers }
    ensures { IfOk result (λ servers. AreOver K.terms set.now keepers.items servers.items) }
{
    let mut servers = Vec::new(alloc);
    let mut keepers = keepers.into_iter();
    for number in 0..set.servers() {
        let Some(keeper) = keepers.next() else {
            unreachable!()
        };
        let opened = open(alloc, set, ServerId::at(number), keeper)?;
        add(&mut servers, opened)?;
    }
    Ok(servers)
}

/// Each server of the set, in order, over its store in the folder.
pub(crate) fn open_all<K: Keeper + Drop, S: Stores<K>>(
    alloc: Global,
    stores: &S,
    set: &ChainSet,
    folder: &str,
) -> Result<Vec<Server<K>>, RerunFault>
    ensures { IfOk result (λ servers.
        AreOpened K.terms S.store_terms folder.now set.now servers.items) }
{
    match open_folder(alloc, stores, folder, set) {
        Ok(keepers) => open_servers(alloc, set, keepers),
        Err(fault) => Err(RerunFault::of_folder(fault)),
    }
}
