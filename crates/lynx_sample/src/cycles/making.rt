//! The events of a run that ends with a cycle.
use crate::cycles::facts::Facts;
use crate::cycles::joints::Joints;
use crate::cycles::run::Run;
use crate::cycles::search::find;
use lynx_entry::{Event, Request};
use lynx_names::{ChainId, ClientId, Memory, ServerId, Stamp, TryCopy};
use lynx_set::ChainSet;
use std::alloc::Global;

/// Events after which no hop is owed, and a cycle is what explains them, where the search finds
/// such: of that it gives no promise, and who asks runs them. None says that none was found, and
/// not that there is none.
///
/// The effort is how many steps of the search for circles are made, at most, and twice the begins
/// that are tried. A step is a look at two hops that may conflict; it counts twice for each
/// chain so far. 200,000 steps take a second at most.
pub fn made_events(
    alloc: Global,
    set: &ChainSet,
    effort: u64,
) -> Result<Option<Vec<Event>>, Memory> {
    let facts = Facts::of(alloc, set)?;
    let joints = Joints::of(alloc, &facts)?;
    match find(alloc, &facts, &joints, effort)? {
        Some(run) => Ok(Some(events_of(alloc, &facts, &run)?)),
        None => Ok(None),
    }
}

/// An event for each hop of the run.
fn events_of(alloc: Global, facts: &Facts<'_>, run: &Run) -> Result<Vec<Event>, Memory> {
    let mut events = Vec::new(alloc);
    for step in run.steps.iter() {
        if let Some(event) = event_of(alloc, facts, run, step.chain, step.hop)? {
            events.push(event)?;
        }
    }
    Ok(events)
}

/// The begin of the chain, or the delivery of its hop's message.
fn event_of(
    alloc: Global,
    facts: &Facts<'_>,
    run: &Run,
    chain: usize,
    hop: usize,
) -> Result<Option<Event>, Memory> {
    let Some(begun) = run.chains.get(chain) else {
        return Ok(None);
    };
    let Some(program) = facts.program(begun.program) else {
        return Ok(None);
    };
    let Some(origin) = program.origin() else {
        return Ok(None);
    };
    if hop == 0 {
        let request = Request {
            client: ClientId::new(1),
            number: (chain as u64).saturating_add(1),
            program: program.program,
            args: begun.args.copy(alloc)?,
        };
        return Ok(Some(Event::Begin {
            server: origin,
            request,
            seen: Stamp::zero(),
        }));
    }
    Ok(Some(Event::Deliver {
        chain: ChainId {
            origin,
            index: index_of(facts, run, chain, origin),
        },
        hop: hop.min(255) as u8,
    }))
}

/// How many chains of the origin began before that one.
fn index_of(facts: &Facts<'_>, run: &Run, chain: usize, origin: ServerId) -> u64 {
    let before = run
        .chains
        .iter()
        .take(chain)
        .filter(|begun| facts.origin(begun.program) == Some(origin))
        .count();
    before as u64
}
