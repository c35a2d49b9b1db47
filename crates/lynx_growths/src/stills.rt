//! Calls on a set that leave all as it was, whatever they answer.
use crate::hops::{self, HopCall};
use crate::openings::{self, OpeningCall};
use crate::texts::{self, TextCall, text_for};
use crate::tried::{Called, Tried, ended, made_again};
use lynx_fixtures::texts::{PAYMENT, set_of};
use lynx_names::Memory;
use lynx_set::ChainSet;
use std::alloc::Global;

/// A call that leaves all as it was.
#[derive(Clone, Copy)]
pub enum StillCall {
    Text(TextCall),
    Hop(HopCall),
    Opening(OpeningCall),
}

/// Makes it once.
fn make(alloc: Global, call: StillCall, set: &ChainSet) -> Result<Called, Memory> {
    match call {
        StillCall::Text(call) => texts::make(alloc, call, set),
        StillCall::Hop(call) => hops::make(alloc, call, set),
        StillCall::Opening(call) => openings::make(alloc, call, set),
    }
}

/// The text of the set on which it is made.
fn text_of(call: StillCall) -> &'static str {
    match call {
        StillCall::Text(call) => text_for(call),
        _ => PAYMENT,
    }
}

/// Makes it on that set, and again where memory was wanting to it.
fn try_on(alloc: Global, call: StillCall, set: &ChainSet) -> Result<Tried, Memory> {
    match make(alloc, call, set)? {
        Called::Refused => Ok(made_again(true, make(alloc, call, set)?)),
        answered => Ok(ended(answered)),
    }
}

/// Makes it, and again where memory was wanting to it.
pub fn try_still(alloc: Global, call: StillCall) -> Result<Tried, Memory> {
    let set = set_of(alloc, text_of(call))?;
    try_on(alloc, call, &set)
}
