//! Opening the stores and the port.
ghost use Rattle.std.specs.Prelude.{◌≡◌, ℕ, All, None, Some, IfErr, IfOk, IsSome, OnOk, length};
ghost use Rattle.lynx_service.specs.Failures.{FailsToOpen, IsPlain};
ghost use Rattle.lynx_service.specs.Faults.{missing_fault};
ghost use Rattle.lynx_service.specs.Places.{AreFoundAt, AreLooked, ArePlaces, FindsAt, LooksAt};
ghost use Rattle.lynx_store_files.specs.Folders.{AreFound, StandIn, lost_store};

use crate::accepting::Ports;
use crate::fault::ServeFault;
use crate::progress::Progress;
use crate::service::{Service, StatusPort};
use crate::watching::WatchPort;
use lynx_keep::Keeper;
use lynx_names::{Memory, ServerId};
use lynx_set::ChainSet;
use lynx_store::StoreFault;
use lynx_store_files::{Stores, lost_store, make_lacking};
use std::alloc::Global;
use std::net::{Ipv4Addr, Net, SocketAddr, TcpListener, TcpStream};
use std::sync::Wait;
use std::thread::Threads;
use std::{io, thread};

/// Threads that open stores, at most: as many as a set has servers.
const OPENERS: usize = 16;

/// The store of a server: what was found of it, once it was looked for.
#[derive(Drop)]
pub(crate) struct Place<K> {
    server: ServerId,
    found: Option<Result<Option<K>, StoreFault>>,
}

/// A place for the store of each server of the set.
fn places<K: Drop>(alloc: Global, set: &ChainSet) -> Result<Vec<Place<K>>, Memory>
    ensures { IfOk result (λ places. ArePlaces set.now places.items) }
{
    let mut places = Vec::new(alloc);
    for number in 0..set.servers() {
        places.push(Place {
            server: ServerId::at(number),
            found: None,
        })?;
    }
    Ok(places)
}

/// Opens the store of a place, if there is one.
fn look_at<R: Wait, K: Keeper + Drop, S: Stores<K>>(
    rt: &R,
    set: &ChainSet,
    stores: &S,
    folder: &str,
    place: &mut Place<K>,
    progress: &Progress<'_>,
    all: u64,
)
    ensures { LooksAt S.store_terms folder.now set.now place.old place.new }
{
    let found = stores.open_there(folder, set, place.server);
    if let Ok(Some(keeper)) = &found {
        progress.opened(rt, all, stores.entries(keeper));
    }
    place.found = Some(found);
}

/// Opens the stores that are there, side by side: reading one takes some seconds where it is large.
/// Nothing is made.
fn look_at_all<R: Threads + Wait + Sync, K: Keeper + Send + Drop, S: Stores<K> + Sync>(
    rt: &R,
    set: &ChainSet,
    stores: &S,
    folder: &str,
    places: &mut [Place<K>],
    progress: &Progress<'_>,
)
    ensures { ArePlaces set.now places.old
        → AreLooked S.store_terms folder.now set.now places.new }
{
    let all = places.len() as u64;
    progress.opens(all);
    thread::for_each_mut(
        rt,
        places,
        OPENERS,
        &|_: usize, place: &mut Place<K>|
            ensures { LooksAt S.store_terms folder.entry.now set.entry.now place.old place.new }
        {
            look_at(rt, set, stores, folder, place, progress, all);
        },
    );
}

/// What was found at a place.
fn found_at<K: Drop>(place: Place<K>) -> Result<Option<K>, ServeFault>
    requires { IsSome place.found }
    ensures { FindsAt place result }
{
    let Place { server, found } = place;
    match found {
        Some(Ok(one)) => Ok(one),
        Some(Err(fault)) => Err(ServeFault::of_store(server, fault)),
        None => unreachable!(),
    }
}

/// What was found of each server, or the first fault, by number, of a store that is there.
fn found_at_all<K: Drop>(alloc: Global, places: Vec<Place<K>>) -> Result<Vec<Option<K>>, ServeFault>
    requires { All (λ place. IsSome place.found) places.items }
    ensures found { IfOk result (λ found. AreFoundAt places.items found.items) }
    ensures plain { IfErr result IsPlain }
{
    let mut found = Vec::new(alloc);
    for place in places {
        found.push(found_at(place)?)?;
    }
    Ok(found)
}

/// What is found of the store of each server in the folder, or the first fault, by number. Those
/// that are there are opened side by side.
pub(crate) fn find_all<R: Threads + Wait + Sync, K: Keeper + Send + Drop, S: Stores<K> + Sync>(
    rt: &R,
    alloc: Global,
    set: &ChainSet,
    stores: &S,
    folder: &str,
    progress: &Progress<'_>,
) -> Result<Vec<Option<K>>, ServeFault>
    ensures found { IfOk result (λ found. AreFound S.store_terms folder.now set.now found.items) }
    ensures plain { IfErr result IsPlain }
{
    let mut places = places(alloc, set)?;
    look_at_all(rt, set, stores, folder, places.as_mut_slice(), progress);
    found_at_all(alloc, places)
}

/// The first store that isn't there, where another has entries. A folder is new as a whole, or has
/// the stores of all servers.
pub(crate) fn judge<K, S: Stores<K>>(
    stores: &S,
    set: &ChainSet,
    found: &[Option<K>],
) -> Result<(), ServeFault>
    requires { length found.now ≡ set.now.servers }
    ensures none_lost { OnOk result (lost_store S.store_terms.count_of found.now ≡ None) }
    ensures lost { IfErr result (λ fault. (server : ℕ)
        × (lost_store S.store_terms.count_of found.now ≡ Some server)
        × (fault ≡ missing_fault server)) }
{
    let Some(place) = lost_store(stores, found) else {
        return Ok(());
    };
    let Some(server) = ServerId::among(set.servers(), place as u64) else {
        unreachable!()
    };
    Err(ServeFault::of_missing(server))
}

/// The keepers of all servers, in order, where nothing was lost: those that were found, and those
/// of stores that are made now.
pub(crate) fn keepers<K: Keeper + Drop, S: Stores<K>>(
    alloc: Global,
    set: &ChainSet,
    stores: &S,
    folder: &str,
    found: Vec<Option<K>>,
) -> Result<Vec<K>, ServeFault>
    requires { AreFound S.store_terms folder.now set.now found.items
        × (lost_store S.store_terms.count_of found.items ≡ None) }
    ensures stand { IfOk result (λ keepers. StandIn S.store_terms folder.now set.now
        keepers.items) }
    ensures fails { IfErr result (FailsToOpen K.terms S.store_terms folder.now set.now) }
{
    match make_lacking(alloc, stores, folder, set, found) {
        Ok(keepers) => Ok(keepers),
        Err(fault) => Err(ServeFault::of_folder(fault)),
    }
}

/// Listens to clients, and to those who watch where the service is to be watched.
pub(crate) fn listen_at_all<R: Net<Listener = TcpListener, Stream = TcpStream>>(
    rt: &R,
    service: Service<'_>,
) -> Result<Ports, ServeFault>
    ensures { IfErr result IsPlain }
{
    let Ok((listener, address)) = listen(rt, service.port) else {
        return Err(ServeFault::Listen);
    };
    let watch = match service.status {
        Some(status) => Some(listen_to_watchers(rt, status)?),
        None => None,
    };
    Ok(Ports {
        listener,
        address,
        watch,
    })
}

/// Listens to those who watch.
fn listen_to_watchers<R: Net<Listener = TcpListener, Stream = TcpStream>>(
    rt: &R,
    status: StatusPort,
) -> Result<WatchPort, ServeFault>
    ensures { IfErr result IsPlain }
{
    let Ok((listener, address)) = listen(rt, status.port) else {
        return Err(ServeFault::ListenStatus);
    };
    Ok(WatchPort {
        listener,
        address,
        keys: status.keys,
        version: status.version,
    })
}

/// Listens at the port of this machine itself, without blocking, and gives the address, in which a
/// port 0 is one that was free.
fn listen<R: Net<Listener = TcpListener, Stream = TcpStream>>(
    rt: &R,
    port: u16,
) -> io::Result<(TcpListener, SocketAddr)> {
    let listener = TcpListener::bind(rt, (Ipv4Addr::LOCALHOST, port))?;
    listener.set_nonblocking(true)?;
    let address = listener.local_addr()?;
    Ok((listener, address))
}
