//! The events of a script at servers, each over a keeper of its own.
ghost use Rattle.std.specs.Prelude.{◌≡◌, IfOk};
ghost use Rattle.lynx_rerun.specs.Events.{CallsAt, ComesTo, IsBegun, IsDelivered, IsRestarted, IsWoken};
ghost use Rattle.lynx_world.specs.Steps.{destination_of};

use crate::fault::RerunFault;
use crate::finding::sent_message;
use lynx_entry::{Answer, Delivered, Event, Message, Outcome, Request};
use lynx_keep::Keeper;
use lynx_names::{ChainId, Memory, ServerId, Stamp};
use lynx_server::Server;
use lynx_set::ChainSet;
use std::alloc::Global;

/// A begin at this server.
fn begin_here<K: Keeper>(
    alloc: Global,
    here: &mut Server<K>,
    request: Request,
    seen: Stamp,
) -> Result<Outcome, Memory>
    ensures { IfOk result (λ outcome. IsBegun K.terms request seen outcome here.old here.new) }
{
    match here.begin(alloc, request, seen) {
        Answer::Memory => Err(Memory),
        answer => Ok(Outcome::Answered(answer)),
    }
}

/// A delivery of the message of that hop of the chain at this server.
fn deliver_here<K: Keeper>(
    alloc: Global,
    here: &mut Server<K>,
    chain: ChainId,
    hop: u8,
    message: Message,
) -> Result<Outcome, Memory>
    ensures { IfOk result (λ outcome. IsDelivered K.terms chain hop message outcome here.old
        here.new) }
{
    match here.deliver(alloc, message) {
        Delivered::Memory => Err(Memory),
        delivered => Ok(Outcome::Delivered {
            chain,
            hop,
            delivered,
        }),
    }
}

/// A waking of this server.
fn wake_here<K: Keeper>(
    alloc: Global,
    here: &mut Server<K>,
    server: ServerId,
) -> Result<Outcome, Memory>
    ensures { IfOk result (λ outcome. IsWoken K.terms server outcome here.old here.new) }
{
    let Some(woken) = here.wake(alloc) else {
        return Ok(Outcome::Idle { server });
    };
    match woken.delivered {
        Delivered::Memory => Err(Memory),
        delivered => Ok(Outcome::Woken {
            chain: woken.chain,
            hop: woken.hop,
            delivered,
        }),
    }
}

/// The server that the message is for, or the first one where its program has no such hop.
fn destination_of(set: &ChainSet, message: &Message) -> ServerId
    ensures { result ≡ destination_of set.now message.now }
{
    match set.hop(message.program, usize::from(message.hop)) {
        Some(hop) => hop.server,
        None => ServerId::first(),
    }
}

fn begin<K: Keeper>(
    alloc: Global,
    servers: &mut [Server<K>],
    server: ServerId,
    request: Request,
    seen: Stamp,
) -> Result<Outcome, Memory>
    ensures { IfOk result (λ outcome. CallsAt server outcome
        (IsBegun K.terms request seen outcome) servers.old servers.new) }
{
    if server.index() >= servers.len() {
        return Ok(Outcome::NoServer);
    }
    begin_here(alloc, &mut servers[server.index()], request, seen)
}

fn deliver<K: Keeper>(
    alloc: Global,
    set: &ChainSet,
    servers: &mut [Server<K>],
    chain: ChainId,
    hop: u8,
) -> Result<Outcome, Memory>
    ensures { IfOk result (λ outcome. ComesTo K.terms set.now (Event.Deliver chain hop) outcome
        servers.old servers.new) }
{
    let Some(message) = sent_message(alloc, set, servers, &chain, hop)? else {
        return Ok(Outcome::NotSent { chain, hop });
    };
    let server = destination_of(set, &message);
    if server.index() >= servers.len() {
        return Ok(Outcome::NoServer);
    }
    deliver_here(alloc, &mut servers[server.index()], chain, hop, message)
}

fn wake<K: Keeper>(
    alloc: Global,
    servers: &mut [Server<K>],
    server: ServerId,
) -> Result<Outcome, Memory>
    ensures { IfOk result (λ outcome. CallsAt server outcome (IsWoken K.terms server outcome)
        servers.old servers.new) }
{
    if server.index() >= servers.len() {
        return Ok(Outcome::NoServer);
    }
    wake_here(alloc, &mut servers[server.index()], server)
}

/// Says whether the message was sent; it changes nothing.
fn lose<K: Keeper>(
    alloc: Global,
    set: &ChainSet,
    servers: &[Server<K>],
    chain: ChainId,
    hop: u8,
) -> Result<Outcome, Memory>
    ensures { IfOk result (λ outcome. ComesTo K.terms set.now (Event.Lost chain hop) outcome
        servers.now servers.now) }
{
    match sent_message(alloc, set, servers, &chain, hop)? {
        Some(_) => Ok(Outcome::LostNow { chain, hop }),
        None => Ok(Outcome::NotSent { chain, hop }),
    }
}

/// Opens the server again over its store. After a fault it is gone.
fn restart<K: Keeper + Drop>(
    alloc: Global,
    servers: &mut Vec<Server<K>>,
    server: ServerId,
) -> Result<Outcome, RerunFault>
    ensures { IfOk result (λ outcome. CallsAt server outcome (IsRestarted K.terms server outcome)
        servers.old.items servers.new.items) }
{
    let place = server.index();
    if place >= servers.as_slice().len() {
        return Ok(Outcome::NoServer);
    }
    match servers.remove(place).restart(alloc) {
        Ok(opened) => servers.insert(place, opened)?,
        Err(fault) => return Err(RerunFault::of_contents(server, fault)),
    }
    Ok(Outcome::Restarted { server })
}

/// What an event comes to: what the server answers that it is for. A message is looked for at the
/// server that must have sent it. After a fault nothing more may be asked of the servers but their
/// keepers.
pub fn apply<K: Keeper + Drop>(
    alloc: Global,
    set: &ChainSet,
    servers: &mut Vec<Server<K>>,
    event: Event,
) -> Result<Outcome, RerunFault>
    ensures { IfOk result (λ outcome. ComesTo K.terms set.now event outcome servers.old.items
        servers.new.items) }
{
    match event {
        Event::Begin {
            server,
            request,
            seen,
        } => Ok(begin(alloc, servers.as_mut_slice(), server, request, seen)?),
        Event::Deliver { chain, hop } => {
            Ok(deliver(alloc, set, servers.as_mut_slice(), chain, hop)?)
        }
        Event::Wake { server } => Ok(wake(alloc, servers.as_mut_slice(), server)?),
        Event::Lost { chain, hop } => Ok(lose(alloc, set, servers.as_slice(), chain, hop)?),
        Event::Restart { server } => restart(alloc, servers, server),
    }
}
