//! Judging what sessions were told.
ghost use Rattle.std.specs.Prelude.{◌≡◌, IfOk, max};
ghost use Rattle.std.specs.List.{list_any};
ghost use Rattle.lynx_weave.specs.inner.Judging.{JudgesAll, JudgesItem, JudgesItems, are_topped, is_full_here};
ghost use Rattle.lynx_weave.specs.Rebuilt.{told_in};
ghost use Rattle.lynx_weave.specs.Servers.{histories_of};
ghost use Rattle.lynx_weave.specs.Since.{is_from_before};
ghost use Rattle.lynx_weave.specs.Told.{is_full_answer, is_topmost, server_told, tells_full};

use crate::agreeing::agreed_at;
use crate::fault::WeaveFault;
use crate::servers::server_at;
use crate::told::ToldItem;
use lynx_entry::{Answer, Entry};
use lynx_keep::MemoryKeeper;
use lynx_names::limits::{MAX_ENTRIES, STAMP_LIMIT};
use lynx_names::{Memory, ServerId, Stamp};
use lynx_server::Server;
use std::alloc::Global;
use std::collections::BTreeSet;

/// The entries by which an item is fresh, each by its server and place.
type Marks = BTreeSet<(ServerId, usize)>;

/// The entry has the greatest of all stamps.
fn is_topmost(entry: &Entry) -> bool
    ensures { result ≡ is_topmost entry.now }
{
    entry.stamp().time() + 1 == STAMP_LIMIT
}

fn is_topped(history: &[Entry]) -> bool
    ensures { result ≡ list_any is_topmost history.now }
{
    history.iter().any(is_topmost)
}

/// An entry of some server has the greatest of all stamps. All entries are gone over.
fn are_topped(servers: &[Server<MemoryKeeper>]) -> bool
    ensures { result ≡ are_topped (histories_of servers.now) }
{
    for here in servers {
        if is_topped(here.history()) {
            return true;
        }
    }
    false
}

/// The answer says that the server is full.
fn is_full_answer(answer: &Answer) -> bool
    ensures { result ≡ is_full_answer answer.now }
{
    matches!(answer, Answer::Full)
}

/// The item tells that its server is full.
fn tells_full(item: &ToldItem) -> bool
    ensures { result ≡ tells_full item.now }
{
    match item {
        ToldItem::Answered { answer, .. } => is_full_answer(answer),
        ToldItem::Seen { .. } => false,
    }
}

/// The server has all the entries, or some server all the stamps, that there may be.
fn is_full_here(servers: &[Server<MemoryKeeper>], is_topped: bool, server: ServerId) -> bool
    requires { is_topped ≡ are_topped (histories_of servers.now) }
    ensures { result ≡ is_full_here (histories_of servers.now) server }
{
    match server_at(servers, server) {
        Some(here) => here.history().len() as u64 >= MAX_ENTRIES || is_topped,
        None => is_topped,
    }
}

/// An entry at that place of that server's history is from before.
fn is_from_before(starts: &[u64], server: ServerId, place: usize) -> bool
    ensures { result ≡ is_from_before starts.now server place }
{
    match starts.get(server.index()) {
        Some(start) => (place as u64) < *start,
        None => false,
    }
}

/// Judges one item by the greatest stamp that its session was told before, by the entries by which
/// items told before are fresh, and by those that are from before.
fn judge_item(
    servers: &[Server<MemoryKeeper>],
    starts: &[u64],
    is_topped: bool,
    marks: &mut Marks,
    greatest: Stamp,
    item: &ToldItem,
) -> Result<bool, Memory>
    requires { is_topped ≡ are_topped (histories_of servers.now) }
    ensures { IfOk result
        (JudgesItem (histories_of servers.now) starts.now greatest item.now marks.old marks.new) }
{
    let Some(place) = agreed_at(servers, item) else {
        return Ok(tells_full(item) && is_full_here(servers, is_topped, item.server()));
    };
    if !item.is_fresh() {
        return Ok(true);
    }
    let server = item.server();
    if is_from_before(starts, server, place) {
        return Ok(false);
    }
    let stamp = item.stamp().time();
    if stamp <= greatest.time() {
        return Ok(false);
    }
    Ok(marks.insert((server, place))?)
}

/// The later of two stamps.
fn later(left: Stamp, right: Stamp) -> Stamp
    ensures { result ≡ max left right }
{
    if left.time() < right.time() {
        right
    } else {
        left
    }
}

/// The place of the first item of a session that is badly told.
fn judge_items(
    servers: &[Server<MemoryKeeper>],
    starts: &[u64],
    is_topped: bool,
    marks: &mut Marks,
    items: &[ToldItem],
) -> Result<Option<usize>, Memory>
    requires { is_topped ≡ are_topped (histories_of servers.now) }
    ensures { IfOk result
        (JudgesItems (histories_of servers.now) starts.now items.now marks.old marks.new) }
{
    let mut greatest = Stamp::zero();
    for (place, item) in items.iter().enumerate() {
        if !judge_item(servers, starts, is_topped, marks, greatest, item)? {
            return Ok(Some(place));
        }
        greatest = later(greatest, item.stamp());
    }
    Ok(None)
}

/// Judges all that sessions were told. An item takes a few look-ups.
pub(crate) fn judge_all(
    alloc: Global,
    servers: &[Server<MemoryKeeper>],
    starts: &[u64],
    told: &[Vec<ToldItem>],
) -> Result<(), WeaveFault>
    ensures { JudgesAll (histories_of servers.now) starts.now (told_in told.now) result }
{
    let is_topped = are_topped(servers);
    let mut marks = BTreeSet::new(alloc);
    for (session, items) in told.iter().enumerate() {
        if let Some(place) = judge_items(
            servers,
            starts,
            is_topped,
            &mut marks,
            items.as_slice(),
        )? {
            return Err(WeaveFault::Told {
                session: session as u64,
                place: place as u64,
            });
        }
    }
    Ok(())
}
