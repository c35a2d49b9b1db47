//! A service, from its stores to its audit.
ghost use Rattle.std.specs.Prelude.{◌≡◌, List, IfErr, IfOk, IfSome, OnOk};
ghost use Rattle.lynx_cluster.specs.Starting.{AreOpened};
ghost use Rattle.lynx_store_files.specs.Folders.{StandIn};
ghost use Rattle.lynx_weave.specs.Senders.{AreAllSent};
ghost use Rattle.lynx_weave.specs.Servers.{AreServersOf, histories_of};
ghost use Rattle.lynx_service.specs.Failures.{FailsToOpen, FailsToServe, IsPlain};
ghost use Rattle.lynx_service.specs.Services.{AppendsListening, HasServed};

use crate::accepting::{Ports, serve_clients};
use crate::closing::{end, end_unheard};
use crate::copies::CopyFolder;
use crate::copy_room::CopyRoom;
use crate::copying::Copier;
use crate::fault::ServeFault;
use crate::file_limit::file_limit;
use crate::log::Log;
use crate::metrics::Metrics;
use crate::opening::{find_all, judge, keepers, listen_at_all};
use crate::progress::Progress;
use crate::store_files::StoreFiles;
use lynx_cluster::{Cluster, Host, Opened, Pace, Session};
use lynx_keep::BatchKeeper;
use lynx_lines::write_bytes;
use lynx_notice::NoticeFile;
use lynx_order::Explained;
use lynx_server::Server;
use lynx_set::ChainSet;
use lynx_store_files::Stores;
use std::alloc::{AllocError, Global};
use std::hash::RandomState;
use std::io::{ErrorKind, Write};
use std::net::{Net, TcpListener, TcpStream};
use std::rt::HostRuntime;
use std::sync::Wait;
use std::thread::Threads;
use std::time::Instant;

/// What is served, and where.
#[derive(Clone, Copy, Debug)]
pub struct Service<'a> {
    /// The folder of the stores.
    pub folder: &'a str,
    /// The port of 127.0.0.1.
    pub port: u16,
    /// Where the status of the service is told, if it is.
    pub status: Option<StatusPort>,
    /// The folder whose stores follow those of the servers, if any does. It is another one.
    pub copy: Option<&'a str>,
    /// How many steps of a server share a transaction of its store.
    pub pace: Pace,
    /// The line of the order isn't written: whoever serves writes it to a file of its own.
    pub is_order_apart: bool,
}

/// A port of 127.0.0.1 at which a service tells its status over HTTP.
#[derive(Clone, Copy, Debug)]
pub struct StatusPort {
    pub port: u16,
    /// By what the names of headers are hashed, which whoever asks chooses: to be drawn at random.
    pub keys: RandomState,
    /// The version of the program, which it tells.
    pub version: &'static str,
}

/// Where clients are listened to, and where the status is told, in lines.
fn places(alloc: Global, ports: &Ports) -> Result<String, AllocError> {
    match ports.watch_address() {
        Some(status) => format!(in alloc; "{}\nstatus {status}\n", ports.address),
        None => format!(in alloc; "{}\n", ports.address),
    }
}

/// Tells clients that they are listened to, and where: by the notice, and by a line; and by another
/// where the status is told.
fn write_listening<W: Write>(
    alloc: Global,
    ports: &Ports,
    notice: &NoticeFile<'_>,
    writer: &mut W,
) -> Result<(), ServeFault>
    ensures written { OnOk result (AppendsListening (W.contents writer.old)
        (W.contents writer.new)) }
    ensures plain { IfErr result IsPlain }
{
    let status = ports.watch_address();
    match notice.write(ports.address, status) {
        Ok(()) => {}
        Err(error) if error.kind() == ErrorKind::OutOfMemory => return Err(ServeFault::Memory),
        Err(_) => return Err(ServeFault::Notice),
    }
    let mut lines = String::from_str(alloc, "listening ")?;
    lines.push_str(places(alloc, ports)?.as_str())?;
    write_bytes(writer, lines.as_bytes())?;
    match writer.flush() {
        Ok(()) => Ok(()),
        Err(_) => Err(ServeFault::Write),
    }
}

/// Serves clients once it is told that they are listened to, and gives their sessions back. In the
/// end the notice is gone.
fn serve_when_told<
    R: Host + Net<Listener = TcpListener, Stream = TcpStream>,
    K: BatchKeeper + Send + Drop,
    S: Stores<K> + Sync,
    W: Write,
>(
    rt: &R,
    alloc: Global,
    cluster: &Cluster<K, Metrics<R>>,
    ports: &Ports,
    notice: &NoticeFile<'_>,
    log: &Log,
    files: &StoreFiles,
    copier: Option<&Copier<'_, K, S>>,
    writer: &mut W,
) -> (Vec<Session>, Result<(), ServeFault>)
    ensures written { OnOk result.1 (AppendsListening (W.contents writer.old)
        (W.contents writer.new)) }
    ensures plain { IfErr result.1 IsPlain }
{
    let written = write_listening(alloc, ports, notice, writer);
    let sessions = match written {
        Ok(()) => {
            log.listening(ports.address, ports.watch_address());
            let frontend = cluster.frontend();
            let sessions = serve_clients(rt, alloc, frontend, ports, notice, log, files, copier);
            log.closing(frontend.gate().all_owed(frontend.set()));
            sessions
        }
        Err(_) => {
            notice.remove(ports.address);
            Vec::new(alloc)
        }
    };
    (sessions, written)
}

/// The servers of the set over the stores of a folder, which fit together, and where clients are
/// listened to.
fn open_all<
    R: Threads + Wait + Sync + Net<Listener = TcpListener, Stream = TcpStream>,
    K: BatchKeeper + Send + Drop,
    S: Stores<K> + Sync,
>(
    rt: &R,
    alloc: Global,
    set: &ChainSet,
    stores: &S,
    service: Service<'_>,
    progress: &Progress<'_>,
) -> Result<(Opened<K>, Ports), ServeFault>
    ensures set { IfOk result (λ all. all.0.set ≡ set.now) }
    ensures servers { IfOk result (λ all. AreServersOf all.0.set all.0.servers.items) }
    ensures opened { IfOk result (λ all. (keepers : List K)
        × AreOpened K.terms set.now keepers all.0.servers.items
        × StandIn S.store_terms service.entry.folder.now set.now keepers) }
    ensures sent { IfOk result (λ all. AreAllSent all.0.set (histories_of all.0.servers.items)) }
    ensures fails { IfErr result
        (FailsToOpen K.terms S.store_terms service.entry.folder.now set.now) }
{
    let folder = service.folder;
    let found = find_all(rt, alloc, set, stores, folder, progress)?;
    judge(stores, set, found.as_slice())?;
    let ports = listen_at_all(rt, service)?;
    let keepers = keepers(alloc, set, stores, folder, found)?;
    progress.starts(rt);
    let opened = Opened::open(alloc, set, keepers)?;
    progress.compares();
    opened.check(alloc)?;
    Ok((opened, ports))
}

/// Tells that files can't grow beyond a limit, where that is so.
fn tell_file_limit(log: &Log) {
    if let Some(bytes) = file_limit() {
        log.bounded(bytes);
    }
}

/// Tells which servers go on, and behind how much.
fn tell_opened<K: BatchKeeper>(log: &Log, servers: &[Server<K>]) {
    for server in servers {
        log.opened(server.server(), server.history().len());
    }
}

/// The stores of the folder that is to follow, if one is, opened behind these servers.
fn open_copier<'a, K: BatchKeeper + Drop, S: Stores<K>>(
    host: &'a HostRuntime,
    alloc: Global,
    set: &'a ChainSet,
    stores: &'a S,
    service: Service<'a>,
    servers: &[Server<K>],
    room: &'a CopyRoom,
    log: &'a Log,
) -> Result<Option<Copier<'a, K, S>>, ServeFault>
    ensures { IfErr result IsPlain }
{
    let Some(folder) = service.copy else {
        return Ok(None);
    };
    let folder = CopyFolder {
        host,
        alloc,
        stores,
        set,
        folder,
        room,
        log,
    };
    Ok(Some(Copier::open(folder, servers)?))
}

/// Ends the workers of a cluster, so that its servers do nothing more, and has all that they did in
/// the folder that follows, if one does. A store there that lacks something then is told.
fn finish<R: Host, K: BatchKeeper + Send + Drop, S: Stores<K>>(
    rt: &R,
    alloc: Global,
    cluster: &mut Cluster<K, Metrics<R>>,
    copier: Option<Copier<'_, K, S>>,
) -> Result<(), ServeFault>
    ensures same { cluster.new ≡ cluster.old }
    ensures plain { IfErr result IsPlain }
{
    cluster.halt(rt, alloc);
    match copier {
        Some(copier) => copier.finish(rt, cluster.frontend()),
        None => Ok(()),
    }
}

/// How a service ended: what explains all that its stores hold, and what is wrong with a file of
/// theirs, or of the folder that follows.
#[derive(Drop)]
pub struct Ended {
    pub explained: Explained,
    pub lacks: Option<ServeFault>,
}

/// Looks once more whether all stores are where their names lead, now that nothing more is stored.
/// The first that isn't is told, or else what is wrong with the folder that follows.
fn lacking<R: Host>(
    rt: &R,
    files: &StoreFiles,
    log: &Log,
    copied: Result<(), ServeFault>,
) -> Option<ServeFault>
    requires { IfErr copied IsPlain }
    ensures { IfSome result IsPlain }
{
    match (files.check(rt, log), copied) {
        (Err(fault), _) | (Ok(()), Err(fault)) => Some(fault),
        (Ok(()), Ok(())) => None,
    }
}

/// Serves clients over the stores of a folder, until one of them asks for the end: opens the stores
/// that are there, side by side; listens at the port; makes the stores of a new folder; looks
/// whether all stores fit together; tells in a notice where it listens and what it serves, and
/// writes `listening 127.0.0.1:PORT`, and where its status is told `status 127.0.0.1:PORT`; takes
/// the notice away as soon as a shut was read; and writes in the end `closed` and the line
/// of the order that explains all that the stores hold, or of a cycle, unless that goes apart. It
/// gives that order or cycle, and what a store, or one of the folder that follows, lacks all the
/// same. docs/FORMATS.md has what clients send and are sent,
/// [`limits`](crate::limits) what a client may cost. The set is not judged.
///
/// Stores that no one run left together are a mismatch, before anybody is served: one that is an
/// older copy, say. Where the folder has stores with entries, and that of another server isn't
/// there, that is damage.
///
/// Where a folder is to follow, what its stores keep is at all times a front of what the servers
/// did, a tenth of a second and a thousand entries behind where its disk keeps up, and in the end
/// all of it. A store there that isn't of this set, or keeps what its server didn't do, is told
/// before anybody is served, and left as it is. One that fails later is told in the log, and opened
/// again a minute later; the service goes on. One that isn't paused and lacks something in the end
/// is told ([`Ended::lacks`]).
///
/// Each second it is looked whether the names of the stores still lead to the files that it serves.
/// Once one doesn't, each begin is answered that its server stopped, and in the end that is told;
/// so it is of a store of the folder that follows, which follows no more.
///
/// The close takes about as long, and as much memory, as opening the stores did; the answers of a
/// session, and what its looks found, are kept until then.
pub fn serve_stores<
    R: Host + Net<Listener = TcpListener, Stream = TcpStream>,
    K: BatchKeeper + Send + Drop + 'static,
    S: Stores<K> + Sync,
    W: Write,
>(
    rt: R,
    alloc: Global,
    set: &ChainSet,
    stores: &S,
    service: Service<'_>,
    writer: &mut W,
    progress: &Progress<'_>,
    notice: &NoticeFile<'_>,
    log: &Log,
) -> Result<Ended, ServeFault>
    ensures served { IfOk result (λ ended. HasServed K.terms S.store_terms service.entry.folder.now
        service.entry.is_order_apart set.now (W.contents writer.old) (W.contents writer.new)
        ended.explained) }
    ensures lacks { IfOk result (λ ended. IfSome ended.lacks IsPlain) }
    ensures fails { IfErr result (FailsToServe K.terms S.store_terms service.entry.folder.now
        set.now (W.contents writer.old) (W.contents writer.new)) }
{
    tell_file_limit(log);
    let opened = open_all(&rt, alloc, set, stores, service, progress);
    progress.ends();
    let (opened, ports) = opened?;
    tell_opened(log, opened.servers());
    let room = CopyRoom::new(alloc, set.servers())?;
    let servers = opened.servers();
    let copier = open_copier(notice.rt, alloc, set, stores, service, servers, &room, log)?;
    let files = StoreFiles::of(notice.rt, alloc, service.folder, set)?;
    let metrics = Metrics::of(rt, alloc, log, opened.servers())?;
    let mut cluster = opened.start(rt, alloc, metrics, service.pace)?;
    let copying = copier.as_ref();
    let (sessions, written) = serve_when_told(
        &rt, alloc, &cluster, &ports, notice, log, &files, copying, writer,
    );
    drop(ports);
    progress.closes();
    let since = Instant::now(&rt).ok();
    let copied = finish(&rt, alloc, &mut cluster, copier);
    let closed = cluster.close(&rt, alloc, sessions);
    let took = since.and_then(|since| since.elapsed(&rt).ok());
    progress.ends();
    if let Err(fault) = written {
        end_unheard(stores, closed);
        return Err(fault);
    }
    match closed {
        Ok(closed) => {
            log.audited(true, took);
            let explained = end(alloc, stores, closed, service.is_order_apart, writer)?;
            let lacks = lacking(&rt, &files, log, copied);
            Ok(Ended { explained, lacks })
        }
        Err(fault) => {
            log.audited(false, took);
            Err(ServeFault::from(fault))
        }
    }
}
