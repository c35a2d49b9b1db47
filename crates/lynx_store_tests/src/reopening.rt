//! Servers that stop, and are opened again over what their disks kept.
use crate::luck::Luck;
use crate::stopping::Stopping;
use lynx_names::{Memory, ServerId};
use lynx_server::Server;
use lynx_set::ChainSet;
use std::alloc::Global;

/// A server over its keeper.
fn serve<K: Stopping>(
    alloc: Global,
    set: &ChainSet,
    server: ServerId,
    keeper: K,
) -> Result<Server<K>, Memory> {
    match Server::open(alloc, set, server, keeper) {
        Ok(server) => Ok(server),
        Err(_) => Err(Memory),
    }
}

/// A keeper on the disks. Where the machine stops before it is open, it comes back, and that is
/// counted.
fn open_at_last<K: Stopping>(
    alloc: Global,
    set: &ChainSet,
    server: ServerId,
    disks: K::Disks,
    luck: &mut Luck,
    stops: &mut u64,
) -> Result<K, Memory> {
    let mut disks = disks;
    for _ in 0..100u32 {
        match K::open_on(alloc, disks, set, server) {
            Ok(keeper) => return Ok(keeper),
            Err(left) => {
                *stops = stops.saturating_add(1);
                disks = K::come_back(alloc, left, luck, false)?;
            }
        }
    }
    Err(Memory)
}

/// The servers of the set over new stores.
pub fn open_all<K: Stopping>(
    alloc: Global,
    set: &ChainSet,
    luck: &mut Luck,
    stops: &mut u64,
) -> Result<Vec<Server<K>>, Memory> {
    let mut servers = Vec::new(alloc);
    for number in 0..set.servers() {
        let server = ServerId::at(number);
        let disks = K::new_disks(alloc, luck);
        let keeper: K = open_at_last(alloc, set, server, disks, luck, stops)?;
        servers.push(serve(alloc, set, server, keeper)?)?;
    }
    Ok(servers)
}

/// The server opened again over what its disks kept.
fn reopened<K: Stopping>(
    alloc: Global,
    set: &ChainSet,
    stopped: Server<K>,
    luck: &mut Luck,
    stops: &mut u64,
) -> Result<Server<K>, Memory> {
    let server = stopped.server();
    let disks = K::come_back(alloc, stopped.into_keeper().into_disks(), luck, false)?;
    let keeper: K = open_at_last(alloc, set, server, disks, luck, stops)?;
    serve(alloc, set, server, keeper)
}

/// Whether the server is opened again now: after its store failed, or now and then in the middle of
/// its work.
fn comes_back<K: Stopping>(server: &Server<K>, luck: &mut Luck) -> bool {
    luck.once_in(if server.is_stopped() { 3 } else { 100 })
}

/// The servers, where some are opened again.
pub fn reopen_some<K: Stopping>(
    alloc: Global,
    set: &ChainSet,
    servers: Vec<Server<K>>,
    luck: &mut Luck,
    stops: &mut u64,
) -> Result<Vec<Server<K>>, Memory> {
    let mut after = Vec::new(alloc);
    for server in servers {
        let server = if comes_back(&server, luck) {
            *stops = stops.saturating_add(1);
            reopened(alloc, set, server, luck, stops)?
        } else {
            server
        };
        after.push(server)?;
    }
    Ok(after)
}

/// The keeper of the server, opened again over what its disks kept. From now on they last.
fn lasting<K: Stopping>(
    alloc: Global,
    set: &ChainSet,
    server: Server<K>,
    luck: &mut Luck,
) -> Result<K, Memory> {
    let number = server.server();
    let disks = K::come_back(alloc, server.into_keeper().into_disks(), luck, true)?;
    match K::open_on(alloc, disks, set, number) {
        Ok(keeper) => Ok(keeper),
        Err(_) => Err(Memory),
    }
}

/// The keepers of all servers, opened again over what their disks kept. From now on they last.
pub fn keepers_of<K: Stopping>(
    alloc: Global,
    set: &ChainSet,
    servers: Vec<Server<K>>,
    luck: &mut Luck,
) -> Result<Vec<K>, Memory> {
    let mut keepers = Vec::new(alloc);
    for server in servers {
        keepers.push(lasting(alloc, set, server, luck)?)?;
    }
    Ok(keepers)
}

/// The servers of the set over these keepers.
pub fn serve_all<K: Stopping>(
    alloc: Global,
    set: &ChainSet,
    keepers: Vec<K>,
) -> Result<Vec<Server<K>>, Memory> {
    let mut servers = Vec::new(alloc);
    for keeper in keepers {
        let Some(server) = ServerId::among(set.servers(), servers.len() as u64) else {
            return Err(Memory);
        };
        servers.push(serve(alloc, set, server, keeper)?)?;
    }
    Ok(servers)
}
