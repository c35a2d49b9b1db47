//! What a message is answered whose hop ran before, and its number.
ghost use Rattle.std.specs.Prelude.{◌≡◌, IfOk, unwrap_or};
ghost use Rattle.lynx_rules.specs.Lawful.{number_at};
ghost use Rattle.lynx_rules.specs.Deliveries.{repeated};

use crate::messages::next_of;
use lynx_entry::{Delivered, Entry, Message, NumberAt};
use lynx_names::{Memory, ServerId, TryCopy};
use lynx_set::ChainSet;
use std::alloc::Global;

/// The number that the chain has for the server.
fn number_at(numbers: &[NumberAt], server: ServerId) -> Option<u64>
    ensures { result ≡ number_at numbers.now server }
{
    match numbers.iter().find(|found| found.server == server) {
        Some(found) => Some(found.number),
        None => None,
    }
}

/// The number that the message's chain has for this server, which it visits.
pub fn own_number(message: &Message, server: ServerId) -> u64
    ensures { result ≡ unwrap_or (number_at message.now.numbers server) 0 }
{
    number_at(message.numbers.as_slice(), server).unwrap_or(0)
}

/// The answer for a hop that ran before.
pub fn repeated(
    alloc: Global,
    set: &ChainSet,
    message: &Message,
    entry: &Entry,
) -> Result<Delivered, Memory>
    ensures { IfOk result (λ delivered. delivered ≡ repeated set.now message.now entry.now) }
{
    match entry {
        Entry::Hop(ran) if ran.message == *message => Ok(Delivered::Repeat {
            stamp: ran.stamp,
            results: ran.results.copy(alloc)?,
            next: next_of(alloc, set, entry)?,
        }),
        _ => Ok(Delivered::Malformed),
    }
}
