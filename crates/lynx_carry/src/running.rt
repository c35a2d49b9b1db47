//! Runs chains in a world, one after another, all hops of each.
ghost use Rattle.std.specs.Prelude.{◌≡◌, IfErr};
ghost use Rattle.lynx_carry.specs.inner.Running.{IsRunFault};

use crate::fault::CarryFault;
use lynx_entry::{Answer, Delivered, Event, Outcome, Request};
use lynx_names::{ChainId, ServerId, Stamp};
use lynx_world::World;
use std::alloc::Global;

/// The chain that began, by the answer to its begin.
fn begun_by(answer: &Answer) -> Result<ChainId, CarryFault>
    ensures { IfErr result IsRunFault }
{
    match answer {
        Answer::Begun { chain, .. } => Ok(*chain),
        Answer::Memory => Err(CarryFault::Memory),
        _ => Err(CarryFault::Differs),
    }
}

/// The chain that began, by the outcome of its begin.
fn chain_of(outcome: &Outcome) -> Result<ChainId, CarryFault>
    ensures { IfErr result IsRunFault }
{
    match outcome {
        Outcome::Answered(answer) => begun_by(answer),
        Outcome::Memory => Err(CarryFault::Memory),
        _ => Err(CarryFault::Differs),
    }
}

/// The hop was done, by the answer to its message.
fn check_delivered(delivered: &Delivered) -> Result<(), CarryFault>
    ensures { IfErr result IsRunFault }
{
    match delivered {
        Delivered::Done { .. } => Ok(()),
        Delivered::Memory => Err(CarryFault::Memory),
        _ => Err(CarryFault::Differs),
    }
}

/// The hop was done, by the outcome of its delivery.
fn check_done(outcome: &Outcome) -> Result<(), CarryFault>
    ensures { IfErr result IsRunFault }
{
    match outcome {
        Outcome::Delivered { delivered, .. } => check_delivered(delivered),
        Outcome::Memory => Err(CarryFault::Memory),
        _ => Err(CarryFault::Differs),
    }
}

/// Where the chain of the request begins, and how many hops it has.
fn shape_of(world: &World, request: &Request) -> Result<(ServerId, u8), CarryFault>
    ensures { IfErr result IsRunFault }
{
    let set = world.set();
    let Some(origin) = set.origin(request.program) else {
        return Err(CarryFault::Differs);
    };
    match u8::try_from(set.hops(request.program).len()) {
        Ok(hops) => Ok((origin, hops)),
        Err(_) => Err(CarryFault::Differs),
    }
}

/// Begins the chain of the request at the server.
fn begin(
    alloc: Global,
    world: &mut World,
    server: ServerId,
    request: Request,
) -> Result<ChainId, CarryFault>
    ensures set { world.new.set ≡ world.old.set }
    ensures err { IfErr result IsRunFault }
{
    let seen = Stamp::zero();
    let outcome = world.apply(
        alloc,
        Event::Begin {
            server,
            request,
            seen,
        },
    );
    chain_of(&outcome)
}

/// Does that hop of the chain.
fn deliver(alloc: Global, world: &mut World, chain: &ChainId, hop: u8) -> Result<(), CarryFault>
    ensures set { world.new.set ≡ world.old.set }
    ensures err { IfErr result IsRunFault }
{
    let outcome = world.apply(alloc, Event::Deliver { chain: *chain, hop });
    check_done(&outcome)
}

/// Does the hops of the chain behind its first.
fn deliver_all(
    alloc: Global,
    world: &mut World,
    chain: &ChainId,
    hops: u8,
) -> Result<(), CarryFault>
    ensures set { world.new.set ≡ world.old.set }
    ensures err { IfErr result IsRunFault }
{
    for hop in 1..hops {
        deliver(alloc, world, chain, hop)?;
    }
    Ok(())
}

/// Runs the chain of the request, all its hops.
fn run_chain(alloc: Global, world: &mut World, request: Request) -> Result<(), CarryFault>
    ensures set { world.new.set ≡ world.old.set }
    ensures err { IfErr result IsRunFault }
{
    let (server, hops) = shape_of(world, &request)?;
    let chain = begin(alloc, world, server, request)?;
    deliver_all(alloc, world, &chain, hops)
}

/// Runs the chains of the requests in order, all hops of each before the next begins. A begin and a
/// delivery take the work of their hop and a few look-ups.
pub(crate) fn run_all(
    alloc: Global,
    world: &mut World,
    requests: Vec<Request>,
) -> Result<(), CarryFault>
    ensures set { world.new.set ≡ world.old.set }
    ensures err { IfErr result IsRunFault }
{
    for request in requests {
        run_chain(alloc, world, request)?;
    }
    Ok(())
}
