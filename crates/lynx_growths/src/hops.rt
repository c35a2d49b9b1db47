//! Calls on a hop, on an entry and on a history, which stay as they are.
use crate::tried::{Called, done, done_if, of_option};
use lynx_cells::Cells;
use lynx_fixtures::made::{boxed, entries, entry, program};
use lynx_fixtures::parts::EntryParts;
use lynx_fixtures::payments::{AT_FIRST, PAID};
use lynx_foot::{Touch, touches};
use lynx_hops::{HopFault, run_hop};
use lynx_names::{Memory, ProgramId, ServerId};
use lynx_rules::next_of;
use lynx_server::first_unlawful;
use lynx_set::ChainSet;
use std::alloc::Global;

/// A call on a hop, an entry or a history of the payment.
#[derive(Clone, Copy)]
pub enum HopCall {
    /// Its first hop runs.
    Run,
    /// The cells that this hop touches are listed.
    Touches,
    /// The message that its entry sends is made.
    Next,
    /// The payer's history is judged.
    Unlawful,
}

/// The first hop of a payment of nothing runs over no cells.
fn run(alloc: Global, set: &ChainSet, pay: ProgramId) -> Called {
    match run_hop(alloc, set, pay, 0, &[0], &[], &Cells::new(alloc)) {
        Ok(ran) => done(ran.spend()),
        Err(HopFault::Memory) => Called::Refused,
        Err(HopFault::Refused(_)) => Called::Other,
    }
}

/// Whether these are the cells that the first hop of a payment reads and writes: it is one cell.
fn are_touches(found: &[Touch]) -> bool {
    found.len() == 2 && found.iter().all(|touch| touch.key == 0)
}

/// The cells are listed that the first hop of a payment reads and writes.
fn list_touches(alloc: Global, set: &ChainSet, pay: ProgramId) -> Called {
    match touches(alloc, set, pay, 0, &[30]) {
        Ok(found) => done_if(are_touches(found.as_slice())),
        Err(Memory) => Called::Refused,
    }
}

/// The message of an entry that sends one is made.
fn next(alloc: Global, set: &ChainSet) -> Result<Called, Memory> {
    let paid = boxed(alloc, entry(alloc, EntryParts::Begun(PAID)))?;
    Ok(of_option(next_of(alloc, set, &paid)))
}

/// A history is judged that is lawful.
fn judge(alloc: Global, set: &ChainSet) -> Result<Called, Memory> {
    let history = entries(alloc, AT_FIRST)?;
    match first_unlawful(alloc, set, ServerId::first(), history.as_slice()) {
        Ok(found) => Ok(done_if(found.is_none())),
        Err(Memory) => Ok(Called::Refused),
    }
}

/// Makes it once.
pub fn make(alloc: Global, call: HopCall, set: &ChainSet) -> Result<Called, Memory> {
    let pay = program(1)?;
    match call {
        HopCall::Run => Ok(run(alloc, set, pay)),
        HopCall::Touches => Ok(list_touches(alloc, set, pay)),
        HopCall::Next => next(alloc, set),
        HopCall::Unlawful => judge(alloc, set),
    }
}
