//! The port at which a service tells its status: so many connections at a time, each for a while.
ghost use Rattle.std.specs.Thread.{IsSend, IsSync};

use crate::accepting::next_to_come;
use crate::connections::WatchTime;
use crate::limits::RETRY_MILLIS;
use crate::patience::{BriefReader, PatientWriter};
use crate::status::Status;
use crate::talking::set_limits;
use http_server::{Config, Connection};
use lynx_keep::BatchKeeper;
use lynx_status::StatusDesk;
use std::alloc::Global;
use std::hash::RandomState;
use std::net::{SocketAddr, TcpListener, TcpStream};
use std::sync::Wait;
use std::thread;
use std::thread::Threads;
use std::time::{Clock, Duration};

/// Where the status of a service is told.
#[derive(Drop)]
pub(crate) struct WatchPort {
    pub(crate) listener: TcpListener,
    pub(crate) address: SocketAddr,
    /// By what the names of headers are hashed, which whoever asks chooses.
    pub(crate) keys: RandomState,
    /// The version of the program.
    pub(crate) version: &'static str,
}

/// Answers what is asked over one connection, until it ends or its time is over.
fn answer<R: Wait + Clock, K: BatchKeeper>(
    rt: &R,
    alloc: Global,
    status: Status<'_, R, K>,
    stream: &TcpStream,
    port: &WatchPort,
    time: WatchTime,
) {
    if !set_limits(stream) {
        return;
    }
    let connections = status.connections;
    let mut reader = BriefReader::new(rt, stream, connections.end_request(), time.reading());
    let mut writer = PatientWriter::new(
        rt,
        stream,
        connections.end_request(),
        connections.shown(),
        time.writing(),
    );
    let mut connection = Connection::new(alloc, port.keys, Config::default());
    let mut desk = StatusDesk::new(alloc, status, port.version);
    let _ = http_server::serve(&mut connection, &mut desk, &mut reader, &mut writer);
}

/// Answers one who watches, to the end of the connection.
fn watch<R: Wait + Clock, K: BatchKeeper>(
    rt: &R,
    alloc: Global,
    status: Status<'_, R, K>,
    stream: TcpStream,
    port: &WatchPort,
    time: WatchTime,
) {
    let connections = status.connections;
    answer(rt, alloc, status, &stream, port, time);
    drop(stream);
    connections.unwatch();
}

/// Answers those who watch until clients are let in no more. Each has a thread of its own; one for
/// which there is none is hung up on. Beyond [`MAX_WATCHERS`](crate::limits::MAX_WATCHERS) so many
/// more are let in for a moment as [`MAX_BRIEF_WATCHERS`](crate::limits::MAX_BRIEF_WATCHERS) says,
/// and each beyond these is hung up on unread.
pub(crate) fn watch_all<R: Threads + Wait + Clock + Sync, K: BatchKeeper + Send + Drop>(
    rt: &R,
    alloc: Global,
    status: Status<'_, R, K>,
    port: &WatchPort,
)
where
    R: Send,
{
    let connections = status.connections;
    thread::scope(
        thread::scope_env(),
        rt,
        |scope| -> ()
            requires { IsSync R.row × IsSend R.row × IsSend K.row }
        {
            for _ in rt.forever() {
                if connections.are_closed() {
                    break;
                }
                let Some(came) = next_to_come(&port.listener) else {
                    continue;
                };
                let Ok(stream) = came else {
                    thread::sleep(rt, Duration::from_millis(RETRY_MILLIS));
                    continue;
                };
                let Some(time) = connections.watch() else {
                    continue;
                };
                let shared = status.share();
                let started = scope.spawn(move || watch(rt, alloc, shared, stream, port, time));
                if started.is_err() {
                    connections.unwatch();
                }
            }
        },
    );
}
