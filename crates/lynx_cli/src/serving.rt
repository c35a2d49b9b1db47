//! Serving clients.
ghost use Rattle.std.specs.Prelude.{◌≡◌, ℕ, IfErr, IfOk, IfNone, IfSome, List, is_some};
ghost use Rattle.lynx_set.specs.Rules.{IsSet};
ghost use Rattle.lynx_set.specs.Text.{text_of};
ghost use Rattle.lynx_report.specs.Refusals.{Accepts};
ghost use Rattle.lynx_order.specs.Explained.{GivesOrder};
ghost use Rattle.lynx_order.specs.declared.explained.Explained.{Explained};
ghost use Rattle.lynx_cli.specs.Done.{HasRefused, HasServedJudged, HasServedText};
ghost use Rattle.lynx_cli.specs.Stopped.{StopsJudging};

use crate::copied::check_apart;
use crate::fault::Fault;
use crate::hints::{Hints, Named};
use crate::order_file::{OrderFile, is_needed};
use crate::reading::text_of;
use crate::shown::Shown;
use crate::texts::{DONE, OFFENDING};
use lynx_args::{ServeFlags, VERSION};
use lynx_cluster::{Host, Pace};
use lynx_keep::BatchKeeper;
use lynx_notice::NoticeFile;
use lynx_order::Explained;
use lynx_service::{
    Ended, Log, LogFault, LogPlace, Progress, ServeFault, Service, StatusPort, serve_stores,
};
use lynx_set::ChainSet;
use lynx_sql::Rising;
use lynx_store_files::{Copies, Stores};
use sqlite::Connection;
use std::alloc::Global;
use std::hash::RandomState;
use std::io::Write;
use std::net::{Net, TcpListener, TcpStream};

/// The set that a text spells, if it is accepted. None where it offends, and then the verdict is
/// written as by a check.
pub(crate) fn accepted_set<'a, W: Write>(
    alloc: Global,
    text: &[u8],
    writer: &mut W,
) -> Result<Option<ChainSet>, Fault<'a>>
    ensures accepted { IfOk result (λ judged. IfSome judged (Accepts text.now)) }
    ensures unwritten { IfOk result (λ judged. IfSome judged (λ set.
        W.contents writer.new ≡ W.contents writer.old)) }
    ensures offending { IfOk result (λ judged. IfNone judged (HasRefused text.now
        (W.contents writer.old) (W.contents writer.new) OFFENDING)) }
    ensures err { IfErr result (StopsJudging text.now (W.contents writer.old)
        (W.contents writer.new)) }
{
    match lynx_report::accepted_set(alloc, text, writer) {
        Ok(judged) => Ok(judged),
        Err(fault) => Err(Fault::of_run(fault)),
    }
}

/// Over which stores, and at which port, clients are served.
#[derive(Clone, Copy)]
pub(crate) struct ServePlace<'a> {
    pub(crate) folder: &'a str,
    pub(crate) port: u16,
}

/// The port of the status with its keys, which are drawn at random.
fn status_port<'a>(host: &HostRuntime, port: Option<u16>) -> Result<Option<StatusPort>, Fault<'a>> {
    let Some(port) = port else {
        return Ok(None);
    };
    match RandomState::new(host) {
        Ok(keys) => Ok(Some(StatusPort {
            port,
            keys,
            version: VERSION,
        })),
        Err(_) => Err(Fault::of_serving(ServeFault::ListenStatus)),
    }
}

/// What is served, and where; the folder that is to follow is another one.
fn service_of<'a, 'b>(
    host: &HostRuntime,
    place: ServePlace<'b>,
    flags: ServeFlags<'b>,
) -> Result<Service<'b>, Fault<'a>>
    ensures folder { IfOk result (λ service. service.folder.now ≡ place.entry.folder.now) }
    ensures order { IfOk result (λ service. service.is_order_apart ≡ is_some flags.entry.order) }
{
    check_apart(host, place.folder, flags.copy)?;
    Ok(Service {
        folder: place.folder,
        port: place.port,
        status: status_port(host, flags.status)?,
        copy: flags.copy,
        pace: pace_of(flags),
        is_order_apart: flags.order.is_some(),
    })
}

/// Where the log of a service goes.
fn log_place<'b>(flags: ServeFlags<'b>) -> LogPlace<'b> {
    match flags.log_file {
        Some(name) => LogPlace::File(name),
        None if flags.log => LogPlace::StandardError,
        None => LogPlace::Nowhere,
    }
}

/// The log of a service. No store and no set takes it.
fn log_of<'a>(host: &HostRuntime, flags: ServeFlags<'a>) -> Result<Log, Fault<'a>> {
    if let Some(name) = flags.log_file {
        if is_needed(host, name) {
            return Err(Fault::Unwritten(Shown { name }));
        }
    }
    match (Log::new(*host, log_place(flags)), flags.log_file) {
        (Ok(log), _) => Ok(log),
        (Err(LogFault::File), Some(name)) => Err(Fault::Unwritten(Shown { name })),
        (Err(_), _) => Err(Fault::Memory),
    }
}

/// The file that takes the order, where one is named.
fn order_file<'a>(
    host: &HostRuntime,
    flags: ServeFlags<'a>,
) -> Result<Option<OrderFile<'a>>, Fault<'a>> {
    match flags.order {
        Some(name) => Ok(Some(OrderFile::open(host, name)?)),
        None => Ok(None),
    }
}

/// How many steps of a server share a transaction of its store.
fn pace_of(flags: ServeFlags<'_>) -> Pace {
    if flags.sync_each {
        Pace::Each
    } else {
        Pace::Shared
    }
}

/// Notes why nobody can listen at a port of the service, where that is so.
fn note_ports<R: Net<Listener = TcpListener, Stream = TcpStream>>(
    host: &HostRuntime,
    rt: &R,
    service: Service<'_>,
    fault: ServeFault,
    hints: &mut Hints,
) {
    if fault == ServeFault::Listen {
        hints.note_listening(rt, host.alloc(), service.port);
    }
    if let (ServeFault::ListenStatus, Some(status)) = (fault, service.status) {
        hints.note_listening(rt, host.alloc(), status.port);
    }
}

/// Notes why a store can't follow, where that is so.
fn note_copy(host: &HostRuntime, service: Service<'_>, fault: ServeFault, hints: &mut Hints) {
    if let (ServeFault::Copy { server, word }, Some(folder)) = (fault, service.copy) {
        hints.note_copy(host, folder, server, word);
    }
}

/// The status of a service that an order explains.
fn status_of_order(explained: &Explained) -> u8
    requires { GivesOrder explained.now }
    ensures { result ≡ 0 }
{
    match explained {
        Explained::Order(_) => DONE,
        Explained::Cycle(_) => unreachable!(),
    }
}

/// Serves clients over an accepted set, until one of them asks for the end. It gives the status,
/// what explains all that was done, and what a store lacks all the same.
fn serve_accepted<
    R: Host + Net<Listener = TcpListener, Stream = TcpStream>,
    K: BatchKeeper + Send + Drop + 'static,
    S: Stores<K> + Sync,
    W: Write,
>(
    host: &HostRuntime,
    rt: R,
    stores: &S,
    text: &[u8],
    set: &ChainSet,
    service: Service<'_>,
    log: &Log,
    writer: &mut W,
) -> Result<(u8, Ended), ServeFault>
    requires accepts { Accepts text.now set.now }
    ensures { IfOk result (λ ended. HasServedText K.terms S.store_terms service.entry.folder.now
        service.entry.is_order_apart text.now ended.1.explained (W.contents writer.old)
        (W.contents writer.new) ended.0) }
{
    let progress = Progress::new(host, log);
    let notice = NoticeFile {
        rt: host,
        folder: service.folder,
        set: text,
    };
    let alloc = host.alloc();
    let ended = serve_stores(
        rt, alloc, set, stores, service, writer, &progress, &notice, log,
    )?;
    Ok((status_of_order(&ended.explained), ended))
}

/// Why a service couldn't be, or didn't end well, which is noted.
fn noted_fault<
    'a,
    R: Net<Listener = TcpListener, Stream = TcpStream>,
    C: Rising + Drop,
    S: Copies<Connection<C>>,
>(
    host: &HostRuntime,
    rt: &R,
    stores: &S,
    set: &ChainSet,
    service: Service<'_>,
    fault: ServeFault,
    hints: &mut Hints,
) -> Fault<'a> {
    note_ports(host, rt, service, fault, hints);
    note_copy(host, service, fault, hints);
    let told = Fault::of_serving(fault);
    let done: Result<(), Fault<'_>> = Err(told);
    hints.note_store(host, service.folder, &done);
    hints.note_foreign(host.alloc(), stores, service.folder, set, &done);
    told
}

/// Serves clients over an accepted set, until one of them asks for the end. Why it can't be served
/// is noted.
fn serve_set<
    'a,
    R: Host + Net<Listener = TcpListener, Stream = TcpStream>,
    K: BatchKeeper + Send + Drop + 'static,
    C: Rising + Drop,
    S: Stores<K> + Copies<Connection<C>> + Sync,
    W: Write,
>(
    host: &HostRuntime,
    rt: R,
    stores: &S,
    text: &[u8],
    set: &ChainSet,
    place: ServePlace<'_>,
    flags: ServeFlags<'a>,
    hints: &mut Hints,
    writer: &mut W,
) -> Result<u8, Fault<'a>>
    requires accepts { Accepts text.now set.now }
    ensures { IfOk result (λ status. (explained : Explained)
        × HasServedText K.terms S.store_terms place.entry.folder.now (is_some flags.entry.order)
        text.now explained (W.contents writer.old) (W.contents writer.new) status) }
{
    let service = service_of(host, place, flags)?;
    let log = log_of(host, flags)?;
    let order = order_file(host, flags)?;
    let fault = match serve_accepted(host, rt, stores, text, set, service, &log, writer) {
        Ok((status, ended)) => {
            if let Some(order) = order {
                order.write(host.alloc(), &ended.explained)?;
            }
            match ended.lacks {
                Some(fault) => fault,
                None => return Ok(status),
            }
        }
        Err(fault) => fault,
    };
    Err(noted_fault(host, &rt, stores, set, service, fault, hints))
}

/// Serves clients over the set of a file, until one of them asks for the end. An offending set is
/// refused as by a check, and nothing is opened.
pub(crate) fn serve_file<
    'a,
    R: Host + Net<Listener = TcpListener, Stream = TcpStream>,
    K: BatchKeeper + Send + Drop + 'static,
    C: Rising + Drop,
    S: Stores<K> + Copies<Connection<C>> + Sync,
    W: Write,
>(
    host: &HostRuntime,
    rt: R,
    stores: &S,
    name: &'a str,
    place: ServePlace<'_>,
    flags: ServeFlags<'a>,
    hints: &mut Hints,
    writer: &mut W,
) -> Result<u8, Fault<'a>>
    ensures { IfOk result (λ status. (text : List ℕ)
        × HasServedJudged K.terms S.store_terms place.entry.folder.now (is_some flags.entry.order)
        text (W.contents writer.old) (W.contents writer.new) status) }
{
    let read = text_of(host, name)?;
    let text = read.as_slice();
    let accepted = accepted_set(host.alloc(), text, writer);
    hints.note_set(host.alloc(), Named { name, text }, &accepted);
    let Some(set) = accepted? else {
        return Ok(OFFENDING);
    };
    serve_set(host, rt, stores, text, &set, place, flags, hints, writer)
}
