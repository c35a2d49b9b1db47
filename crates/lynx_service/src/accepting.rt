//! Accepting clients, so many at a time, and beside them those that watch.
ghost use Rattle.std.specs.Thread.{IsSend, IsSync};

use crate::connections::{Admission, Connections};
use crate::copy_room::CopyRoom;
use crate::copying::Copier;
use crate::limits::{ACCEPT_MILLIS, RETRY_MILLIS};
use crate::log::{Log, Want};
use crate::metrics::Metrics;
use crate::readiness::can_read;
use crate::status::Status;
use crate::store_files::StoreFiles;
use crate::talking::talk;
use crate::watching::{WatchPort, watch_all};
use lynx_cluster::{Frontend, Session};
use lynx_keep::BatchKeeper;
use lynx_notice::NoticeFile;
use lynx_store_files::Stores;
use std::alloc::Global;
use std::io::ErrorKind;
use std::net::{Net, SocketAddr, TcpListener, TcpStream};
use std::os::fd::AsRawFd;
use std::sync::Wait;
use std::thread::Threads;
use std::time::{Clock, Duration};
use std::{io, thread};

/// Where a service listens.
#[derive(Drop)]
pub(crate) struct Ports {
    /// To clients.
    pub(crate) listener: TcpListener,
    pub(crate) address: SocketAddr,
    /// To whoever watches it, if it is to be watched.
    pub(crate) watch: Option<WatchPort>,
}

impl Ports {
    /// Where the status is told, if it is.
    pub(crate) fn watch_address(&self) -> Option<SocketAddr> {
        self.watch.as_ref().map(|watch| watch.address)
    }
}

/// Who comes to a listener that doesn't block, within the time after which a thread looks whether
/// it has to end. No file handle is taken for one who doesn't come.
pub(crate) fn next_to_come(listener: &TcpListener) -> Option<io::Result<TcpStream>> {
    if !can_read(listener.as_raw_fd(), ACCEPT_MILLIS) {
        return None;
    }
    match listener.accept() {
        Ok((stream, _)) => Some(Ok(stream)),
        Err(error) => Some(Err(error)),
    }
}

/// One who came can't be taken, which the system tells so: it is tried again a moment later.
fn leave_untaken<R: Wait + Clock>(rt: &R, connections: &Connections, log: &Log, error: &io::Error) {
    if error.kind() != ErrorKind::WouldBlock && connections.note_turned_away() {
        log.untaken(error);
    }
    thread::sleep(rt, Duration::from_millis(RETRY_MILLIS));
}

/// A client was hung up on for want of that.
pub(crate) fn turn_away(connections: &Connections, log: &Log, want: Want) {
    if connections.note_turned_away() {
        log.turned_away(want);
    }
}

/// The stream of a client, if one came and is let in.
fn let_in<R: Wait + Clock>(
    rt: &R,
    connections: &Connections,
    log: &Log,
    came: Option<io::Result<TcpStream>>,
) -> Option<TcpStream> {
    let stream = match came? {
        Ok(stream) => stream,
        Err(error) => {
            leave_untaken(rt, connections, log, &error);
            return None;
        }
    };
    match connections.admit(rt) {
        Admission::Admitted => Some(stream),
        Admission::Full => {
            log.refused(connections.clients(rt));
            None
        }
        Admission::Memory => {
            turn_away(connections, log, Want::Memory);
            None
        }
    }
}

/// There is no thread that would copy.
fn tell_uncopied(log: &Log, copies: Option<&CopyRoom>) {
    log.no_copy_thread();
    if let Some(room) = copies {
        room.leave_all();
    }
}

/// Nobody is let in any more, nor told that there is a service.
fn stop_accepting(connections: &Connections, notice: &NoticeFile<'_>, address: SocketAddr) {
    notice.remove(address);
    connections.close();
}

/// Serves clients at the listener until one asks for the end and all have gone, and gives their
/// sessions back. Each has a thread of its own. One for which there is no thread is hung up on, and
/// so is each beyond [`MAX_CLIENTS`](crate::limits::MAX_CLIENTS). Beside them those are answered
/// that watch, the folder that follows gets what servers did, and it is looked whether the files of
/// the stores are there. Once the end is asked for, the notice is taken away.
pub(crate) fn serve_clients<
    'x,
    R: Threads + Wait + Clock + Copy + Sync + Net<Listener = TcpListener, Stream = TcpStream>,
    K: BatchKeeper + Send + Drop,
    S: Stores<K> + Sync,
>(
    rt: &'x R,
    alloc: Global,
    frontend: &'x Frontend<K, Metrics<R>>,
    ports: &Ports,
    notice: &NoticeFile<'x>,
    log: &'x Log,
    files: &'x StoreFiles,
    copier: Option<&'x Copier<'x, K, S>>,
) -> Vec<Session>
where
    R: Send,
{
    let shared = Connections::new(alloc);
    let open = &shared;
    let copies = copier.map(|copier| copier.folder.room);
    let status = Status::new(rt, alloc, frontend, open, files, log, copies, notice.set);
    thread::scope(
        thread::scope_env(),
        rt,
        |scope| -> ()
            requires { IsSync R.row × IsSend R.row × IsSend K.row × IsSync S.row }
        {
            if let Some(copier) = copier
                && scope.spawn(move || copier.run(rt, frontend, open)).is_err()
            {
                tell_uncopied(log, copies);
            }
            if scope.spawn(move || files.guard(rt, open, log)).is_err() {
                log.no_guard_thread();
            }
            if let Some(watch) = &ports.watch {
                let shared = status.share();
                let _ = scope.spawn(move || watch_all(rt, alloc, shared, watch));
            }
            for _ in rt.forever() {
                let came = next_to_come(&ports.listener);
                if open.end_request().is_asked() {
                    break;
                }
                let Some(stream) = let_in(rt, open, log, came) else {
                    continue;
                };
                let made = scope.spawn(move || talk(rt, alloc, frontend, stream, open, files, log));
                if made.is_err() {
                    open.release(rt, None);
                    turn_away(open, log, Want::Thread);
                }
            }
            stop_accepting(open, notice, ports.address);
        },
    );
    shared.into_sessions()
}
