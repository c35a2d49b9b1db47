//! Which entry agrees with what was told.
ghost use Rattle.std.specs.Prelude.{◌≡◌, find};
ghost use Rattle.lynx_server.specs.Books.{IsFoundAt};
ghost use Rattle.lynx_weave.specs.inner.Judging.{IsAgreedAt, IsSolePlace, is_sought, passes_at};
ghost use Rattle.lynx_weave.specs.Servers.{histories_of};
ghost use Rattle.lynx_weave.specs.Told.{bears, bears_answer, is_begun_as, is_clash_of, is_look_at, is_other_call, is_refused_as, same_request};

use crate::servers::server_at;
use crate::told::ToldItem;
use lynx_entry::{Answer, Entry, Request};
use lynx_keep::MemoryKeeper;
use lynx_names::{ChainId, Stamp, learn};
use lynx_server::Server;

/// The same request of one client.
fn same_request(left: &Request, right: &Request) -> bool
    ensures { result ≡ same_request left.now right.now }
{
    left.client == right.client
        && left.number == right.number
        && left.program == right.program
        && left.args == right.args
}

/// The entry in which that request began that chain, with that stamp and these results.
fn is_begun_as(
    request: &Request,
    chain: ChainId,
    stamp: Stamp,
    results: &[u64],
    entry: &Entry,
) -> bool
    ensures { result ≡ is_begun_as request.now chain stamp results.now entry.now }
{
    match entry {
        Entry::Begun(begun) => {
            same_request(&begun.request, request)
                && begun.chain == chain
                && begun.stamp == stamp
                && begun.results.as_slice() == results
        }
        Entry::Refused(_) | Entry::Hop(_) => false,
    }
}

/// The entry in which that request was refused by that need, with that stamp.
fn is_refused_as(request: &Request, need: u8, stamp: Stamp, entry: &Entry) -> bool
    ensures { result ≡ is_refused_as request.now need stamp entry.now }
{
    match entry {
        Entry::Refused(refused) => {
            same_request(&refused.request, request)
                && refused.need == need
                && refused.stamp == stamp
        }
        Entry::Begun(_) | Entry::Hop(_) => false,
    }
}

/// A request of the same client and number with another program or other arguments.
fn is_other_call(other: &Request, request: &Request) -> bool
    ensures { result ≡ is_other_call other.now request.now }
{
    other.client == request.client
        && other.number == request.number
        && !(other.program == request.program && other.args == request.args)
}

/// The entry keeps the answer to a request of that client and number with another program or other
/// arguments.
fn is_clash_of(request: &Request, entry: &Entry) -> bool
    ensures { result ≡ is_clash_of request.now entry.now }
{
    match entry {
        Entry::Begun(begun) => is_other_call(&begun.request, request),
        Entry::Refused(refused) => is_other_call(&refused.request, request),
        Entry::Hop(_) => false,
    }
}

/// The entry of that hop of the chain, with that stamp and these results.
fn is_look_at(chain: ChainId, hop: u8, stamp: Stamp, results: &[u64], entry: &Entry) -> bool
    ensures { result ≡ is_look_at chain hop stamp results.now entry.now }
{
    match entry {
        Entry::Begun(begun) => {
            begun.chain == chain
                && hop == 0
                && begun.stamp == stamp
                && begun.results.as_slice() == results
        }
        Entry::Refused(_) => false,
        Entry::Hop(ran) => {
            ran.message.chain == chain
                && ran.message.hop == hop
                && ran.stamp == stamp
                && ran.results.as_slice() == results
        }
    }
}

/// The entry bears out the answer to that request.
fn bears_answer(request: &Request, answer: &Answer, entry: &Entry) -> bool
    ensures { result ≡ bears_answer request.now answer.now entry.now }
{
    match answer {
        Answer::Begun {
            chain,
            stamp,
            results,
            ..
        } => is_begun_as(request, *chain, *stamp, results.as_slice(), entry),
        Answer::Refused { need, stamp, .. } => is_refused_as(request, *need, *stamp, entry),
        Answer::Clash => is_clash_of(request, entry),
        _ => false,
    }
}

/// The entry bears out what was told of its server.
fn bears(item: &ToldItem, entry: &Entry) -> bool
    ensures { result ≡ bears item.now entry.now }
{
    match item {
        ToldItem::Answered {
            request,
            answer,
            ..
        } => bears_answer(request, answer, entry),
        ToldItem::Seen {
            chain,
            hop,
            stamp,
            results,
            ..
        } => is_look_at(*chain, *hop, *stamp, results.as_slice(), entry),
    }
}

/// The place of the one entry of the server that can bear the item out: a look-up in the indexes.
fn sought_place(here: &Server<MemoryKeeper>, item: &ToldItem) -> Option<usize>
    ensures { IsFoundAt here.now.history result (find (is_sought item.now) here.now.history) }
{
    match item {
        ToldItem::Answered { request, .. } => here.record_place(request),
        ToldItem::Seen { chain, hop, .. } => here.place_of(*chain, *hop),
    }
}

/// The entry at the place of the server's history bears the item out.
fn bears_at(here: &Server<MemoryKeeper>, item: &ToldItem, place: usize) -> bool
    ensures { result ≡ passes_at (bears item.now) here.now.history place }
{
    match here.entry(place) {
        Some(entry) => bears(item, entry),
        None => false,
    }
}

/// The place of the one entry of the server that bears the item out.
fn borne_out_at(here: &Server<MemoryKeeper>, item: &ToldItem) -> Option<usize>
    ensures { IsSolePlace (bears item.now) here.now.history result }
{
    // The history is lawful, so no two entries keep one record or are of one hop.
    learn(here.history());
    match sought_place(here, item) {
        Some(place) => bears_at(here, item, place).then_some(place),
        None => None,
    }
}

/// The place, at its server, of the one entry that agrees with the item.
pub(crate) fn agreed_at(servers: &[Server<MemoryKeeper>], item: &ToldItem) -> Option<usize>
    ensures { IsAgreedAt (histories_of servers.now) item.now result }
{
    match server_at(servers, item.server()) {
        Some(here) => borne_out_at(here, item),
        None => None,
    }
}
