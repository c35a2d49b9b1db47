//! The message that an entry sends.
ghost use Rattle.std.specs.Prelude.{◌≡◌, IfOk};
ghost use Rattle.lynx_entry.specs.declared.entry.Entry.TheVariants.{Begun, Hop};
ghost use Rattle.lynx_rules.specs.Messages.{next_message};

use lynx_entry::{BegunEntry, Entry, HopEntry, Message, ResultLists};
use lynx_names::{Memory, TryCopy};
use lynx_set::ChainSet;
use std::alloc::Global;

/// What an entry of hop 0 sends to hop 1, where there is one.
fn after_begin(alloc: Global, set: &ChainSet, begun: &BegunEntry) -> Result<Option<Message>, Memory>
    ensures { IfOk result (λ next. next ≡ next_message set.now (Begun begun.now)) }
{
    if set.hops(begun.request.program).len() <= 1 {
        return Ok(None);
    }
    let args = begun.request.args.copy(alloc)?;
    let numbers = begun.numbers.copy(alloc)?;
    let mut results = ResultLists::new(alloc);
    results.push(begun.results.copy(alloc)?)?;
    Ok(Some(Message {
        chain: begun.chain,
        program: begun.request.program,
        hop: 1,
        stamp: begun.stamp,
        args,
        numbers,
        results,
    }))
}

/// What an entry of a later hop sends to the next one, where there is one.
fn after_hop(alloc: Global, set: &ChainSet, ran: &HopEntry) -> Result<Option<Message>, Memory>
    ensures { IfOk result (λ next. next ≡ next_message set.now (Hop ran.now)) }
{
    let message = &ran.message;
    let next = usize::from(message.hop) + 1;
    if next >= set.hops(message.program).len() {
        return Ok(None);
    }
    let args = message.args.copy(alloc)?;
    let numbers = message.numbers.copy(alloc)?;
    let mut results = message.results.copy(alloc)?;
    results.push(ran.results.copy(alloc)?)?;
    Ok(Some(Message {
        chain: message.chain,
        program: message.program,
        hop: next as u8,
        stamp: ran.stamp,
        args,
        numbers,
        results,
    }))
}

/// The message that the entry sends: same chain, program, arguments and numbers, the next hop, the
/// entry's stamp, and the results so far with the new ones behind them. A last hop, and a refusal,
/// send none.
pub fn next_of(alloc: Global, set: &ChainSet, entry: &Entry) -> Result<Option<Message>, Memory>
    ensures { IfOk result (λ next. next ≡ next_message set.now entry.now) }
{
    match entry {
        Entry::Begun(begun) => after_begin(alloc, set, begun),
        Entry::Refused(_) => Ok(None),
        Entry::Hop(ran) => after_hop(alloc, set, ran),
    }
}
