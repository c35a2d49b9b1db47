//! Calls on a world.
use crate::tried::{Called, Tried, ended, made_again, of_result};
use lynx_chart::chart;
use lynx_fixtures::cells::are_cells;
use lynx_fixtures::made::{boxed, chain, request, server};
use lynx_fixtures::parts::RequestParts;
use lynx_fixtures::payments::{PAY, SEED};
use lynx_fixtures::texts::{PAYMENT, set_of};
use lynx_names::{Memory, ServerId, Stamp};
use lynx_order::explain;
use lynx_report::owed_hops;
use lynx_world::{Event, Outcome, World, empty_keepers};
use std::alloc::Global;

/// A call on a world after the seed and the payment; of a waking, after a second payment too, whose
/// message came before that of the first and was held.
#[derive(Clone, Copy)]
pub enum WorldCall {
    /// The payment is given again.
    Begin,
    /// Its second hop arrives.
    Deliver,
    /// The message of the payment behind it is woken.
    Wake,
    /// Its message is lost.
    Lose,
    /// All cells are listed.
    Cells,
    /// The run is explained.
    Explain,
    /// What is owed is listed.
    Owed,
    /// The run is drawn.
    Chart,
}

/// A payment of 20 behind it.
const PAY_BEHIND: RequestParts = RequestParts {
    number: 3,
    args: &[20],
    ..PAY
};

fn event(alloc: Global, call: WorldCall) -> Result<Event, Memory> {
    let chain = chain(0, 1)?;
    Ok(match call {
        WorldCall::Deliver => deliver(1)?,
        WorldCall::Wake => Event::Wake { server: server(1)? },
        WorldCall::Lose => Event::Lost { chain, hop: 1 },
        _ => begin(alloc, PAY)?,
    })
}

/// What an event came to.
fn came(outcome: &Outcome) -> Called {
    match outcome {
        Outcome::Memory => Called::Refused,
        Outcome::NotSent { .. } | Outcome::Idle { .. } | Outcome::NoServer => Called::Other,
        _ => Called::Done,
    }
}

/// An event happens.
fn applied(alloc: Global, world: &mut World, event: Event) -> Result<Called, Memory> {
    let outcome = boxed(alloc, Ok(world.apply(alloc, event)))?;
    Ok(came(&outcome))
}

/// A request begins at the payer.
fn begin(alloc: Global, asked: RequestParts) -> Result<Event, Memory> {
    Ok(Event::Begin {
        server: ServerId::first(),
        request: request(alloc, asked)?,
        seen: Stamp::zero(),
    })
}

/// The message of a payment comes to the payee.
fn deliver(index: u64) -> Result<Event, Memory> {
    let chain = chain(0, index)?;
    Ok(Event::Deliver { chain, hop: 1 })
}

/// An event happens that is to be done.
fn apply(alloc: Global, world: &mut World, event: Result<Event, Memory>) -> Result<(), Memory> {
    match applied(alloc, world, event?)? {
        Called::Done => Ok(()),
        _ => Err(Memory),
    }
}

/// A world in which nothing happened yet.
fn new_world(alloc: Global) -> Result<Box<World>, Memory> {
    let set = set_of(alloc, PAYMENT)?;
    let keepers = empty_keepers(alloc, &set)?;
    boxed(alloc, World::new(alloc, Box::into_inner(set), keepers))
}

/// What happens in it before the call.
fn live(alloc: Global, call: WorldCall, world: &mut World) -> Result<(), Memory> {
    apply(alloc, world, begin(alloc, SEED))?;
    apply(alloc, world, begin(alloc, PAY))?;
    if !matches!(call, WorldCall::Wake) {
        return Ok(());
    }
    apply(alloc, world, begin(alloc, PAY_BEHIND))?;
    apply(alloc, world, deliver(2))?;
    apply(alloc, world, deliver(1))
}

/// Whether the world is as it was before the call.
fn is_as_before(alloc: Global, call: WorldCall, world: &World) -> Result<bool, Memory> {
    let cells = world.cells(alloc)?;
    let cells = cells.as_slice();
    Ok(if matches!(call, WorldCall::Wake) {
        world.len() == 4 && are_cells(cells, &[(0, 0, 50), (0, 1000, 30)])
    } else {
        world.len() == 2 && are_cells(cells, &[(0, 0, 70)])
    })
}

/// The chart of the run.
fn charted(alloc: Global, world: &World) -> Result<Vec<u8>, Memory> {
    let explained = explain(alloc, world)?;
    chart(alloc, world, &[], &explained)
}

/// Makes it once.
fn make(alloc: Global, call: WorldCall, world: &mut World) -> Result<Called, Memory> {
    match call {
        WorldCall::Cells => Ok(of_result(world.cells(alloc))),
        WorldCall::Explain => Ok(of_result(explain(alloc, world))),
        WorldCall::Owed => Ok(of_result(owed_hops(alloc, world))),
        WorldCall::Chart => Ok(of_result(charted(alloc, world))),
        _ => {
            let event = event(alloc, call)?;
            applied(alloc, world, event)
        }
    }
}

/// Makes it in that world, and again where memory was wanting to it.
fn try_in(alloc: Global, call: WorldCall, world: &mut World) -> Result<Tried, Memory> {
    live(alloc, call, world)?;
    match make(alloc, call, world)? {
        Called::Refused => {
            let is_as_before = is_as_before(alloc, call, world)?;
            Ok(made_again(is_as_before, make(alloc, call, world)?))
        }
        answered => Ok(ended(answered)),
    }
}

/// Makes it, and again where memory was wanting to it.
pub fn try_world(alloc: Global, call: WorldCall) -> Result<Tried, Memory> {
    let mut world = new_world(alloc)?;
    try_in(alloc, call, &mut world)
}
