//! Calls on a server, over a keeper in memory.
use crate::payments::server_after;
use crate::tried::{Called, Tried, done, ended, made_again, of_option};
use lynx_entry::{Answer, Delivered};
use lynx_fixtures::cells::{Cell, are_cells};
use lynx_fixtures::made::{boxed, entries, message, request, server};
use lynx_fixtures::parts::{EntryParts, MessageParts};
use lynx_fixtures::payments::{AT_FIRST, AT_SECOND, PAY, SEEDED, SENT};
use lynx_fixtures::texts::{PAYMENT, set_of};
use lynx_keep::MemoryKeeper;
use lynx_names::{Memory, Stamp};
use lynx_server::Server;
use lynx_set::ChainSet;
use std::alloc::Global;

/// A call on a server.
#[derive(Clone, Copy)]
pub enum ServerCall {
    /// The payment begins.
    Begin,
    /// Its second hop arrives.
    Deliver,
    /// That of the payment behind it arrives before it.
    Hold,
    /// That one is woken.
    Wake,
    /// What the payment sends is asked for.
    Due,
}

/// What a server did, and what stands in its tables.
#[derive(Clone, Copy)]
struct Standing {
    number: u8,
    history: &'static [EntryParts],
    cells: &'static [Cell],
}

/// The payer after the seed.
const AFTER_SEED: Standing = Standing {
    number: 0,
    history: &[EntryParts::Begun(SEEDED)],
    cells: &[(0, 0, 100)],
};

/// The payer after the payment.
const AFTER_PAY: Standing = Standing {
    number: 0,
    history: AT_FIRST,
    cells: &[(0, 0, 70)],
};

/// The payee before it came.
const BEFORE: Standing = Standing {
    number: 1,
    history: &[],
    cells: &[],
};

/// The payee after it came.
const AFTER: Standing = Standing {
    number: 1,
    history: AT_SECOND,
    cells: &[(0, 1000, 30)],
};

/// The message of a payment of 20 behind that of 30.
const NEXT: MessageParts = MessageParts {
    index: 2,
    time: 3,
    args: &[20],
    numbers: &[(0, 2), (1, 1)],
    results: &[&[70]],
    ..SENT
};

/// Where a server stands before the call.
fn stand_before(call: ServerCall) -> Standing {
    match call {
        ServerCall::Begin => AFTER_SEED,
        ServerCall::Due => AFTER_PAY,
        ServerCall::Deliver | ServerCall::Hold => BEFORE,
        ServerCall::Wake => AFTER,
    }
}

/// A server that stands there.
fn standing_at(
    alloc: Global,
    set: &ChainSet,
    standing: Standing,
) -> Result<Box<Server<MemoryKeeper>>, Memory> {
    let number = server(standing.number)?;
    boxed(alloc, server_after(alloc, set, number, standing.history))
}

/// Whether a server did this.
fn has_done(
    alloc: Global,
    server: &Server<MemoryKeeper>,
    parts: &[EntryParts],
) -> Result<bool, Memory> {
    let history = entries(alloc, parts)?;
    Ok(server.history() == history.as_slice())
}

/// Whether these are a server's cells.
fn has_cells(alloc: Global, server: &Server<MemoryKeeper>, want: &[Cell]) -> Result<bool, Memory> {
    let cells = server.cells().list(alloc)?;
    Ok(are_cells(cells.as_slice(), want))
}

/// Whether a server stands there, and holds so many messages.
fn stands(
    alloc: Global,
    server: &Server<MemoryKeeper>,
    standing: Standing,
    held: usize,
) -> Result<bool, Memory> {
    Ok(
        has_done(alloc, server, standing.history)?
            && has_cells(alloc, server, standing.cells)?
            && server.held().len() == held
            && !server.is_stopped(),
    )
}

/// What a begin answered.
pub fn begun(answer: Answer) -> Called {
    match &answer {
        Answer::Begun { again: false, .. } => Called::Done,
        Answer::Memory => Called::Refused,
        _ => Called::Other,
    }
}

/// What a delivery came to, which is to be held, or to run.
fn come_to(delivered: &Delivered, is_held: bool) -> Called {
    match delivered {
        Delivered::Held if is_held => Called::Done,
        Delivered::Done { .. } if !is_held => Called::Done,
        Delivered::Memory => Called::Refused,
        _ => Called::Other,
    }
}

/// What it came to, where it is let go.
fn came(delivered: Delivered, is_held: bool) -> Called {
    let called = come_to(&delivered, is_held);
    done(delivered);
    called
}

/// The payment begins.
fn begin(alloc: Global, server: &mut Server<MemoryKeeper>) -> Result<Called, Memory> {
    let asked = request(alloc, PAY)?;
    Ok(begun(server.begin(alloc, asked, Stamp::zero())))
}

/// A message arrives.
fn deliver(
    alloc: Global,
    server: &mut Server<MemoryKeeper>,
    parts: MessageParts,
    is_held: bool,
) -> Result<Called, Memory> {
    let sent = message(alloc, parts)?;
    Ok(came(server.deliver(alloc, sent), is_held))
}

/// A held message is woken.
fn wake(alloc: Global, server: &mut Server<MemoryKeeper>) -> Called {
    match server.wake(alloc) {
        Some(woken) => came(woken.delivered, false),
        None => Called::Other,
    }
}

/// The message of the payment is asked for.
fn due(alloc: Global, server: &Server<MemoryKeeper>) -> Called {
    of_option(server.messages_due(alloc, 0))
}

/// Makes the call once.
fn make(
    alloc: Global,
    call: ServerCall,
    server: &mut Server<MemoryKeeper>,
) -> Result<Called, Memory> {
    match call {
        ServerCall::Begin => begin(alloc, server),
        ServerCall::Deliver => deliver(alloc, server, SENT, false),
        ServerCall::Hold => deliver(alloc, server, NEXT, true),
        ServerCall::Wake => Ok(wake(alloc, server)),
        ServerCall::Due => Ok(due(alloc, server)),
    }
}

/// A message arrives, which is to be held, or to run.
fn bring(
    alloc: Global,
    server: &mut Server<MemoryKeeper>,
    parts: MessageParts,
    is_held: bool,
) -> Result<(), Memory> {
    match deliver(alloc, server, parts, is_held)? {
        Called::Done => Ok(()),
        _ => Err(Memory),
    }
}

/// The messages arrive that a server is to hold before the call. How many it holds.
fn hold(
    alloc: Global,
    call: ServerCall,
    server: &mut Server<MemoryKeeper>,
) -> Result<usize, Memory> {
    if !matches!(call, ServerCall::Wake) {
        return Ok(0);
    }
    bring(alloc, server, NEXT, true)?;
    bring(alloc, server, SENT, false)?;
    Ok(1)
}

/// Where a server stands before the messages arrive that it is to hold.
fn stand_first(call: ServerCall) -> Standing {
    match call {
        ServerCall::Wake => BEFORE,
        call => stand_before(call),
    }
}

/// Makes the call at that server, and again where memory was wanting to it.
fn try_at(
    alloc: Global,
    call: ServerCall,
    server: &mut Server<MemoryKeeper>,
) -> Result<Tried, Memory> {
    let held = hold(alloc, call, server)?;
    match make(alloc, call, server)? {
        Called::Refused => {
            let is_as_before = stands(alloc, server, stand_before(call), held)?;
            Ok(made_again(is_as_before, make(alloc, call, server)?))
        }
        answered => Ok(ended(answered)),
    }
}

/// Makes the call, and again where memory was wanting to it.
pub fn try_server(alloc: Global, call: ServerCall) -> Result<Tried, Memory> {
    let set = set_of(alloc, PAYMENT)?;
    let mut server = standing_at(alloc, &set, stand_first(call))?;
    try_at(alloc, call, &mut server)
}
