//! One client's connection, from its first byte to its end.
ghost use Rattle.std.specs.Prelude.{◌≡◌};
ghost use Rattle.lynx_service.specs.declared.desk.ClientDesk.{ClientDesk};
ghost use Rattle.lynx_service.specs.Talks.{HasTalked, HasTalkedOver};

use crate::accepting::turn_away;
use crate::connections::Connections;
use crate::desk::ClientDesk;
use crate::limits::{MAX_WRITE_SECONDS, TICK_MILLIS};
use crate::log::{Leave, Log, Want};
use crate::patience::{PatientReader, PatientWriter};
use crate::store_files::StoreFiles;
use lynx_cluster::{Frontend, Gate, Session};
use lynx_keep::BatchKeeper;
use lynx_port::{Desk, PortFault, Served, serve};
use std::alloc::Global;
use std::io::{Read, Write};
use std::net::{Shutdown, TcpStream};
use std::sync::Wait;
use std::time::{Clock, Duration};

/// Reads that are made of a client that has been told goodbye, at most, so that what it sent beyond
/// doesn't cost it the answers that it hasn't read yet.
const LAST_READS: u32 = 16;

/// Has reads and writes of the stream end after a tick. Whether it can be done.
pub(crate) fn set_limits(stream: &TcpStream) -> bool {
    let tick = Duration::from_millis(TICK_MILLIS);
    let _ = stream.set_nodelay(true);
    stream.set_read_timeout(Some(tick)).is_ok() && stream.set_write_timeout(Some(tick)).is_ok()
}

/// Tells the client that no more is said, and takes what it sent beyond.
fn hang_up(mut stream: &TcpStream) {
    if stream.shutdown(Shutdown::Write).is_err() {
        return;
    }
    let mut buffer = [0u8; 4096];
    for _ in 0..LAST_READS {
        match stream.read(&mut buffer) {
            Ok(count) if count > 0 => {}
            _ => return,
        }
    }
}

/// Why a connection ended whose input ended by silence or not.
fn leave_of(done: Result<Served, PortFault>, was_silent: bool) -> Leave {
    match done {
        Ok(served) if served.shut => Leave::Shut,
        Ok(_) if was_silent => Leave::Silence,
        Ok(_) => Leave::Quit,
        Err(PortFault::Bad(_)) if was_silent => Leave::Silence,
        Err(PortFault::Bad(_) | PortFault::NotAsked) => Leave::NoFrame,
        Err(PortFault::Read) => Leave::Quit,
        Err(PortFault::Write) => Leave::NotTaken,
        Err(PortFault::Turns | PortFault::Memory) => Leave::Limit,
    }
}

/// Serves one client that sends over one stream and is answered over another, which for a
/// connection are the same. Gives back the other, and why that ended.
fn serve_stream<R: Wait + Clock, I: Read, O: Write, D: Desk>(
    rt: &R,
    alloc: Global,
    input: I,
    output: O,
    connections: &Connections,
    desk: &mut D,
) -> (O, Leave)
where
    I: Drop,
    ensures { HasTalked D.begins D.looks desk.old desk.new (O.contents output)
        (O.contents result.0) }
{
    let mut reader = PatientReader::new(rt, input, connections.end_request());
    let most = Duration::from_secs(MAX_WRITE_SECONDS);
    let mut writer = PatientWriter::new(
        rt,
        output,
        connections.end_request(),
        connections.told(),
        most,
    );
    let done = serve(alloc, &mut reader, &mut writer, desk);
    let leave = leave_of(done, reader.is_over());
    (writer.into_stream(), leave)
}

/// Serves one client over its connection, and tells why that ended.
fn serve_connection<R: Wait + Clock, D: Desk>(
    rt: &R,
    alloc: Global,
    stream: &TcpStream,
    connections: &Connections,
    desk: &mut D,
) -> Leave
    ensures { HasTalkedOver D.begins D.looks desk.old desk.new }
{
    if !set_limits(stream) {
        return Leave::Limit;
    }
    let (stream, leave) = serve_stream(rt, alloc, stream, stream, connections, desk);
    hang_up(stream);
    leave
}

/// Serves one client by that session, which is given back, and tells why that ended.
fn serve_by<'a, R: Wait + Clock, K: BatchKeeper + Drop, G: Gate + Drop>(
    rt: &'a R,
    alloc: Global,
    frontend: &'a Frontend<K, G>,
    session: Session,
    stream: &TcpStream,
    connections: &'a Connections,
    files: &'a StoreFiles,
) -> (Session, Leave)
    ensures { (first : ClientDesk R K G) × (last : ClientDesk R K G)
        × (first.session ≡ session) × (first.frontend ≡ frontend.entry) × (last.session ≡ result.0)
        × HasTalkedOver ⟦<ClientDesk<'a, R, K, G> as Desk>⟧.begins
        ⟦<ClientDesk<'a, R, K, G> as Desk>⟧.looks first last }
{
    let end_request = connections.end_request();
    let mut desk = ClientDesk {
        rt,
        alloc,
        frontend,
        session,
        end_request,
        files,
    };
    let leave = serve_connection(rt, alloc, stream, connections, &mut desk);
    let ClientDesk {
        rt: _,
        alloc: _,
        frontend: _,
        session,
        end_request: _,
        files: _,
    } = desk;
    (session, leave)
}

/// Serves one client to its end. A client for which there is no session is hung up on.
pub(crate) fn talk<R: Wait + Clock, K: BatchKeeper + Drop, G: Gate + Drop>(
    rt: &R,
    alloc: Global,
    frontend: &Frontend<K, G>,
    stream: TcpStream,
    connections: &Connections,
    files: &StoreFiles,
    log: &Log,
) {
    let Some(session) = connections.session(rt, alloc, frontend) else {
        connections.release(rt, None);
        turn_away(connections, log, Want::Memory);
        return;
    };
    connections.note_taken();
    log.taken(connections.clients(rt));
    let (session, leave) = serve_by(rt, alloc, frontend, session, &stream, connections, files);
    drop(stream);
    connections.release(rt, Some(session));
    log.gone(leave, connections.clients(rt));
}
