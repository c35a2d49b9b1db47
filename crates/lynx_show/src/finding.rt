//! What became of a request, by stores that were read.
ghost use Rattle.std.specs.Prelude.{◌≡◌, ◌++◌, IfOk, OnOk};
ghost use Rattle.std.specs.List.{flat_map};
ghost use Rattle.std.specs.String.{string_bytes};
ghost use Rattle.lynx_lex.specs.Lines.{with_feed};
ghost use Rattle.lynx_set.specs.Lookups.{server_at};
ghost use Rattle.lynx_show.specs.Finds.{done_lines, hop_line, is_hop, is_request, later_line, later_lines, owed_line, record_lines, records, request_lines, server_text, store_finds};

use lynx_entry::{BegunEntry, Entry, Message, Request};
use lynx_lines::{push_entry, push_full_entry};
use lynx_names::{ChainId, ClientId, Memory, ProgramId, ServerId};
use lynx_set::ChainSet;
use lynx_store::Inspected;
use std::alloc::{AllocError, Global};
use std::fmt::Write as _;

/// Whether it is that request of that client.
fn is_request(client: ClientId, number: u64, request: &Request) -> bool
    ensures { result ≡ is_request client number request.now }
{
    request.client == client && request.number == number
}

/// Whether the entry records it.
fn records(client: ClientId, number: u64, entry: &Entry) -> bool
    ensures { result ≡ records client number entry.now }
{
    match entry {
        Entry::Begun(begun) => is_request(client, number, &begun.request),
        Entry::Refused(refused) => is_request(client, number, &refused.request),
        Entry::Hop(_) => false,
    }
}

/// Whether the entry is that of the hop of the chain.
fn is_hop(chain: &ChainId, hop: usize, entry: &Entry) -> bool
    ensures { result ≡ is_hop chain.now hop entry.now }
{
    match entry {
        Entry::Hop(ran) => {
            let Message {
                chain: own,
                hop: number,
                ..
            } = &ran.message;
            own.origin == chain.origin && own.index == chain.index && usize::from(*number) == hop
        }
        _ => false,
    }
}

/// The server of an entry, and the end of its line.
fn server_end(alloc: Global, server: ServerId) -> Result<String, AllocError>
    ensures { IfOk result (λ text. string_bytes text ≡ with_feed (server_text server)) }
{
    let mut text = String::new(alloc);
    write!(text, " server {server}")?;
    text.push_str("\n")?;
    Ok(text)
}

/// Adds the line of that hop, if the entry is its.
fn put_hop(
    alloc: Global,
    text: &mut Vec<u8>,
    chain: &ChainId,
    hop: usize,
    server: ServerId,
    entry: &Entry,
) -> Result<(), Memory>
    ensures { OnOk result (text.new.items
        ≡ text.old.items ++ hop_line chain.now hop server entry.now) }
{
    if is_hop(chain, hop, entry) {
        let mut line = String::new(alloc);
        push_entry(&mut line, entry)?;
        text.extend_from_slice(line.as_bytes())?;
        text.extend_from_slice(server_end(alloc, server)?.as_bytes())?;
    }
    Ok(())
}

/// Adds the line of that hop, if one of these entries of a server is its.
fn put_hop_at(
    alloc: Global,
    text: &mut Vec<u8>,
    chain: &ChainId,
    hop: usize,
    server: ServerId,
    entries: &[Entry],
) -> Result<(), Memory>
    ensures { OnOk result (text.new.items
        ≡ text.old.items ++ flat_map (hop_line chain.now hop server) entries.now) }
{
    for entry in entries {
        put_hop(alloc, text, chain, hop, server, entry)?;
    }
    Ok(())
}

/// The line of that hop, if it is done.
fn done_lines(
    alloc: Global,
    chain: &ChainId,
    hop: usize,
    stores: &[Inspected],
) -> Result<Vec<u8>, Memory>
    ensures { IfOk result (λ text. text.items ≡ done_lines chain.now hop stores.now) }
{
    let mut text = Vec::new(alloc);
    for held in stores {
        let entries = held.loaded.entries.as_slice();
        put_hop_at(alloc, &mut text, chain, hop, held.server, entries)?;
    }
    Ok(text)
}

/// The line of a hop that is owed, where the program has it.
fn owed_line(
    alloc: Global,
    chain: &ChainId,
    hop: usize,
    server: Option<ServerId>,
) -> Result<Vec<u8>, Memory>
    ensures { IfOk result (λ text. text.items ≡ owed_line chain.now hop server) }
{
    let Some(server) = server else {
        return Ok(Vec::new(alloc));
    };
    let mut line = String::new(alloc);
    write!(line, "owed {chain} {hop}")?;
    line.push_str(server_end(alloc, server)?.as_str())?;
    Ok(line.into_bytes())
}

/// The server of a hop of a program.
fn server_at(set: &ChainSet, program: ProgramId, hop: usize) -> Option<ServerId>
    ensures { result ≡ server_at set.now program hop }
{
    Some(set.hop(program, hop)?.server)
}

/// Adds the line of a later hop of a chain that began.
fn put_later(
    alloc: Global,
    text: &mut Vec<u8>,
    set: &ChainSet,
    stores: &[Inspected],
    begun: &BegunEntry,
    hop: usize,
) -> Result<(), Memory>
    ensures { OnOk result (text.new.items ≡ text.old.items
        ++ later_line set.now stores.now begun.now.chain begun.now.request.program hop) }
{
    let chain = &begun.chain;
    let done = done_lines(alloc, chain, hop, stores)?;
    let line = if done.is_empty() {
        owed_line(
            alloc,
            chain,
            hop,
            server_at(set, begun.request.program, hop),
        )?
    } else {
        done
    };
    text.extend_from_slice(line.as_slice())?;
    Ok(())
}

/// Adds the lines of the later hops of a chain that began.
fn put_later_hops(
    alloc: Global,
    text: &mut Vec<u8>,
    set: &ChainSet,
    stores: &[Inspected],
    begun: &BegunEntry,
) -> Result<(), Memory>
    ensures { OnOk result (text.new.items ≡ text.old.items
        ++ later_lines set.now stores.now (Entry.Begun begun.now)) }
{
    let later = set.hops(begun.request.program).len().saturating_sub(1);
    for before in 0..later {
        put_later(alloc, text, set, stores, begun, before + 1)?;
    }
    Ok(())
}

/// Adds the lines of an entry that records a request.
fn put_record(
    alloc: Global,
    text: &mut Vec<u8>,
    set: &ChainSet,
    stores: &[Inspected],
    server: ServerId,
    entry: &Entry,
) -> Result<(), Memory>
    ensures { OnOk result (text.new.items
        ≡ text.old.items ++ record_lines set.now stores.now server entry.now) }
{
    push_full_entry(alloc, text, set, entry)?;
    text.extend_from_slice(server_end(alloc, server)?.as_bytes())?;
    match entry {
        Entry::Begun(begun) => put_later_hops(alloc, text, set, stores, begun),
        _ => Ok(()),
    }
}

/// Adds the same of the entries of a store that record the request.
fn put_found(
    alloc: Global,
    text: &mut Vec<u8>,
    set: &ChainSet,
    stores: &[Inspected],
    client: ClientId,
    number: u64,
    held: &Inspected,
) -> Result<(), Memory>
    ensures { OnOk result (text.new.items
        ≡ text.old.items ++ store_finds set.now stores.now client number held.now) }
{
    for entry in held.loaded.entries.as_slice() {
        if records(client, number, entry) {
            put_record(alloc, text, set, stores, held.server, entry)?;
        }
    }
    Ok(())
}

/// What became of a request, by these stores of the set: for each entry that records it the line
/// of `show --full` with its server behind it, and behind one that began a chain a line for each
/// later hop, done or owed. Empty where no store has a record of it. It looks at all entries, and
/// once more for each later hop.
pub fn request_lines(
    alloc: Global,
    set: &ChainSet,
    stores: &[Inspected],
    client: ClientId,
    number: u64,
) -> Result<Vec<u8>, Memory>
    ensures { IfOk result (λ text. text.items
        ≡ request_lines set.now stores.now client number) }
{
    let mut text = Vec::new(alloc);
    for held in stores {
        put_found(alloc, &mut text, set, stores, client, number, held)?;
    }
    Ok(text)
}
