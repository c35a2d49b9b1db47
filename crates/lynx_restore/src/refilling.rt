//! A server that is asked for what entries did, one after another.
ghost use Rattle.std.specs.Prelude.{◌≡◌, ◌↔◌, IfOk, IsErrOf, IsTrue, None, OnOk, false};
ghost use Rattle.lynx_keep.specs.HeldBack.{held_terms};
ghost use Rattle.lynx_server.specs.History.{IsLawfulHistory};
ghost use Rattle.lynx_server.specs.Serving.{begins_here, delivery_of};
ghost use Rattle.lynx_restore.specs.Refills.{HasSettled, IsFresh, IsRefilled, RunsOn, WasAsked};

use crate::refill_fault::RefillFault;
use lynx_entry::{Answer, Delivered, Entry, Message, Request};
use lynx_keep::{BatchKeeper, HeldBack, Keeper};
use lynx_names::{Stamp, TryCopy};
use lynx_server::Server;
use std::alloc::Global;

/// How many entries are settled at once. For each entry that it is given, a keeper that holds back
/// goes over the changes of all that wait, so that with many more this takes longer than the
/// commits that are saved.
const SETTLED_AT_ONCE: usize = 64;

/// Asks for a chain that began, or that was refused.
fn begin_again<K: Keeper>(
    alloc: Global,
    server: &mut Server<K>,
    request: &Request,
    seen: Stamp,
) -> Result<(), RefillFault>
    requires { server.old.is_stopped ≡ false }
    ensures runs { OnOk result (RunsOn K.terms server.old
        (begins_here server.old request.now seen).added server.old.held server.new) }
    ensures fault { IsErrOf result RefillFault.Differs → ⊥ }
{
    match server.begin(alloc, request.copy(alloc)?, seen) {
        Answer::Memory => Err(RefillFault::Memory),
        Answer::Stopped => Err(RefillFault::Store),
        _ => Ok(()),
    }
}

/// Delivers a message whose hop ran.
fn deliver_again<K: Keeper>(
    alloc: Global,
    server: &mut Server<K>,
    message: &Message,
) -> Result<(), RefillFault>
    requires { server.old.is_stopped ≡ false }
    ensures runs { OnOk result (RunsOn K.terms server.old
        (delivery_of server.old message.now).added (delivery_of server.old message.now).held
        server.new) }
    ensures fault { IsErrOf result RefillFault.Differs → ⊥ }
{
    match server.deliver(alloc, message.copy(alloc)?) {
        Delivered::Memory => Err(RefillFault::Memory),
        Delivered::Stopped => Err(RefillFault::Store),
        _ => Ok(()),
    }
}

/// Asks for what the entry did.
fn ask_again<K: Keeper>(
    alloc: Global,
    server: &mut Server<K>,
    entry: &Entry,
) -> Result<(), RefillFault>
    requires { server.old.is_stopped ≡ false }
    ensures runs { OnOk result (WasAsked K.terms server.old entry.now server.new) }
    ensures fault { IsErrOf result RefillFault.Differs → ⊥ }
{
    match entry {
        Entry::Begun(begun) => begin_again(alloc, server, &begun.request, begun.seen),
        Entry::Refused(refused) => begin_again(alloc, server, &refused.request, refused.seen),
        Entry::Hop(ran) => deliver_again(alloc, server, &ran.message),
    }
}

/// Keeps for good all that the server did. Where nothing waits, nothing is written.
fn settle<K: BatchKeeper>(
    alloc: Global,
    server: &mut Server<HeldBack<K>>,
) -> Result<(), RefillFault>
    requires { server.old.is_stopped ≡ false }
    ensures runs { OnOk result
        (RunsOn (held_terms K.terms) server.old None server.old.held server.new) }
    ensures settled { OnOk result (HasSettled K.terms server.new) }
    ensures fault { IsErrOf result RefillFault.Differs → ⊥ }
{
    if server.settle(alloc) {
        Ok(())
    } else {
        Err(RefillFault::Store)
    }
}

/// Settles all where the entry at that place is the first of the next [`SETTLED_AT_ONCE`].
fn settle_before<K: BatchKeeper>(
    alloc: Global,
    server: &mut Server<HeldBack<K>>,
    place: usize,
) -> Result<(), RefillFault>
    requires { server.old.is_stopped ≡ false }
    ensures runs { OnOk result
        (RunsOn (held_terms K.terms) server.old None server.old.held server.new) }
    ensures fault { IsErrOf result RefillFault.Differs → ⊥ }
{
    if place % SETTLED_AT_ONCE == 0 {
        settle(alloc, server)
    } else {
        Ok(())
    }
}

/// Whether these are the same entries.
fn are_same(entries: &[Entry], others: &[Entry]) -> bool
    ensures { IsTrue result ↔ entries.now ≡ others.now }
{
    entries == others
}

/// The server, once it did what these entries did, one after another, where its history is just
/// these entries then, and all of it is settled. A server that did nothing adds every lawful entry,
/// so that Differs tells of entries that no server did, or of a server that did something. Each
/// takes the work of its hop and a few look-ups, and each 64 of them take one commit. After a fault
/// the server is dropped; its keeper may lack the last 64 of those that it did.
pub fn refill<K: BatchKeeper + Drop>(
    alloc: Global,
    server: Server<HeldBack<K>>,
    entries: &[Entry],
) -> Result<Server<HeldBack<K>>, RefillFault>
    requires { server.is_stopped ≡ false }
    ensures filled { IfOk result (IsRefilled K.terms server entries.now) }
    ensures differs { IsErrOf result RefillFault.Differs → IsFresh server
        → IsLawfulHistory server.set server.server entries.now → ⊥ }
{
    let mut server = server;
    for (place, entry) in entries.iter().enumerate() {
        settle_before(alloc, &mut server, place)?;
        ask_again(alloc, &mut server, entry)?;
    }
    settle(alloc, &mut server)?;
    if !are_same(server.history(), entries) {
        return Err(RefillFault::Differs);
    }
    Ok(server)
}
