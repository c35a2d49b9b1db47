//! More early messages than a server holds.
use crate::cases::{Case, NEVER, made};
use crate::steps::woken;
use lynx_entry::{Delivered, Message};
use lynx_fixtures::made::{boxed, message, numbers};
use lynx_fixtures::payments::SENT;
use lynx_fixtures::texts::PAYMENT;
use lynx_keep::FaultKeeper;
use lynx_names::limits::MAX_HELD;
use lynx_names::{Memory, TableId};
use lynx_server::Server;
use std::alloc::Global;

/// The chain of the one payment for which there is no room.
const LAST: u64 = MAX_HELD as u64 + 2;

/// The message of a payment of 30 as the chain of that index, from 1 on.
fn payment(alloc: Global, index: u64) -> Result<Message, Memory> {
    let numbers = numbers(alloc, &[(0, index), (1, index.saturating_sub(1))])?;
    let mut message = message(alloc, SENT)?;
    message.chain.index = index;
    message.numbers = numbers;
    Ok(message)
}

/// What comes of it, in a box, which is dropped by one call.
fn deliver(
    alloc: Global,
    server: &mut Server<FaultKeeper>,
    index: u64,
) -> Result<Box<Delivered>, Memory> {
    let message = payment(alloc, index)?;
    boxed(alloc, Ok(server.deliver(alloc, message)))
}

/// Each payment between the first and the last is held, and the last one is dropped.
fn are_held(alloc: Global, server: &mut Server<FaultKeeper>) -> Result<bool, Memory> {
    for index in 2..LAST {
        if !matches!(*deliver(alloc, server, index)?, Delivered::Held) {
            return Ok(false);
        }
    }
    Ok(matches!(*deliver(alloc, server, LAST)?, Delivered::Dropped))
}

/// As many wakings as a server holds messages each deliver one, and then there is none.
fn are_woken(alloc: Global, server: &mut Server<FaultKeeper>) -> Result<bool, Memory> {
    for _ in 0..MAX_HELD {
        if woken(alloc, server)?.is_none() {
            return Ok(false);
        }
    }
    Ok(woken(alloc, server)?.is_none())
}

/// A second server.
const SECOND: Case = Case {
    name: "",
    set: PAYMENT,
    server: 1,
    fails: NEVER,
    lives: &[],
};

/// One early message is dropped; those that are held run when the first payment came, and then the
/// dropped one does: 66 payments of 30.
fn holds_as_many(alloc: Global) -> Result<bool, Memory> {
    let table = TableId::new(0).ok_or(Memory)?;
    let mut server = made(alloc, &SECOND)?;
    let are_held = are_held(alloc, &mut server)?;
    let _ = deliver(alloc, &mut server, 1)?;
    let are_woken = are_woken(alloc, &mut server)?;
    let _ = deliver(alloc, &mut server, LAST)?;
    Ok(
        are_held
            && are_woken
            && server.history().len() == MAX_HELD + 2
            && server.cells().get(table, 1000) == 1980,
    )
}

#[test]
fn as_many_messages_wait_as_there_is_room_for(rt: HostRuntime) {
    assert!(rt; holds_as_many(rt.alloc()) == Ok(true));
}
