//! A call of one server, with a note of the entry that it adds.
ghost use Rattle.std.specs.Prelude.{◌≡◌, ◌++◌, [], IfOk, None, OnErr, OnOk, false, length};
ghost use Rattle.lynx_server.specs.inner.Repeating.{HasAdded};
ghost use Rattle.lynx_world.specs.inner.Servers.{waking};
ghost use Rattle.lynx_world.specs.inner.Calls.{HasBegun, HasDelivered, HasWoken, noted};

use crate::added::{Added, note};
use lynx_entry::{Answer, Delivered, Message, Outcome, Request};
use lynx_keep::MemoryKeeper;
use lynx_names::{Memory, ServerId, Stamp};
use lynx_server::{Server, Woken};
use std::alloc::Global;

/// A begin at this server.
pub(crate) fn begin_at(
    alloc: Global,
    here: &mut Server<MemoryKeeper>,
    order: &mut Vec<Added>,
    server: ServerId,
    request: Request,
    seen: Stamp,
) -> Result<Answer, Memory>
    requires { here.old.is_stopped ≡ false }
    ensures begun { IfOk result (λ answer. HasBegun here.old request seen answer here.new) }
    ensures order { OnOk result (order.new.items ≡ order.old.items
        ++ noted server (length here.old.history) (length here.new.history)) }
    ensures same { OnErr result (HasAdded here.old None here.old.held here.new) }
    ensures same_order { OnErr result (order.new.items ≡ order.old.items) }
{
    order.reserve(1)?;
    let place = here.history().len();
    let answer = here.begin(alloc, request, seen);
    if answer.is_unserved() {
        return Err(Memory);
    }
    note(order, server, place, here.history().len());
    Ok(answer)
}

/// A delivery at this server.
pub(crate) fn deliver_at(
    alloc: Global,
    here: &mut Server<MemoryKeeper>,
    order: &mut Vec<Added>,
    server: ServerId,
    message: Message,
) -> Result<Delivered, Memory>
    requires { here.old.is_stopped ≡ false }
    ensures delivered { IfOk result
        (λ delivered. HasDelivered here.old message delivered here.new) }
    ensures order { OnOk result (order.new.items ≡ order.old.items
        ++ noted server (length here.old.history) (length here.new.history)) }
    ensures same { OnErr result (HasAdded here.old None here.old.held here.new) }
    ensures same_order { OnErr result (order.new.items ≡ order.old.items) }
{
    order.reserve(1)?;
    let place = here.history().len();
    let delivered = here.deliver(alloc, message);
    if delivered.is_undelivered() {
        return Err(Memory);
    }
    note(order, server, place, here.history().len());
    Ok(delivered)
}

/// A waking of this server.
pub(crate) fn wake_at(
    alloc: Global,
    here: &mut Server<MemoryKeeper>,
    order: &mut Vec<Added>,
    server: ServerId,
) -> Result<Option<Woken>, Memory>
    requires { here.old.is_stopped ≡ false }
    ensures woken { IfOk result (λ woken. HasWoken here.old woken here.new) }
    ensures order { OnOk result (order.new.items ≡ order.old.items
        ++ noted server (length here.old.history) (length here.new.history)) }
    ensures same { OnErr result (HasAdded here.old None here.old.held here.new) }
    ensures same_order { OnErr result (order.new.items ≡ order.old.items) }
{
    order.reserve(1)?;
    let place = here.history().len();
    let Some(woken) = here.wake(alloc) else {
        return Ok(None);
    };
    if woken.delivered.is_undelivered() {
        return Err(Memory);
    }
    note(order, server, place, here.history().len());
    Ok(Some(woken))
}

/// What a waking comes to.
pub(crate) fn waking(server: ServerId, woken: Option<Woken>) -> Outcome
    ensures { result ≡ waking server woken }
{
    match woken {
        Some(woken) => Outcome::Woken {
            chain: woken.chain,
            hop: woken.hop,
            delivered: woken.delivered,
        },
        None => Outcome::Idle { server },
    }
}

/// What the server held is gone. What it did stays, for its keeper has all of it: opened over that
/// once more it would be the same.
pub(crate) fn restart_at(here: &mut Server<MemoryKeeper>)
    requires { here.old.is_stopped ≡ false }
    ensures { HasAdded here.old None [] here.new }
{
    here.drop_held();
}
