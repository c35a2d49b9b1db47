//! What a recorded request is answered, and the stamp of the next entry.
ghost use Rattle.std.specs.Prelude.{◌≡◌, ◌+◌, true, false, max, IfOk, MatchOption};
ghost use Rattle.lynx_rules.specs.Tables.{clock_of};
ghost use Rattle.lynx_rules.specs.Answers.{same_call, recorded_answer, is_full};

use lynx_entry::{Answer, Entry, Request};
use lynx_names::limits::MAX_ENTRIES;
use lynx_names::{Memory, Stamp, TryCopy};
use std::alloc::Global;

/// The same program with the same arguments.
fn same_call(left: &Request, right: &Request) -> bool
    ensures { result ≡ same_call left.now right.now }
{
    left.program == right.program && left.args == right.args
}

/// The answer that an entry keeps, if the request is the very one.
pub fn recorded_answer(alloc: Global, entry: &Entry, request: &Request) -> Result<Answer, Memory>
    ensures { IfOk result (λ answer. answer ≡ recorded_answer entry.now request.now) }
{
    match entry {
        Entry::Begun(begun) if same_call(&begun.request, request) => Ok(Answer::Begun {
            chain: begun.chain,
            stamp: begun.stamp,
            results: begun.results.copy(alloc)?,
            again: true,
        }),
        Entry::Refused(refused) if same_call(&refused.request, request) => Ok(Answer::Refused {
            need: refused.need,
            stamp: refused.stamp,
            again: true,
        }),
        _ => Ok(Answer::Clash),
    }
}

/// The stamp of the last entry, 0 where there is none.
fn clock_of(history: &[Entry]) -> Stamp
    ensures { result ≡ clock_of history.now }
{
    match history.last() {
        Some(entry) => entry.stamp(),
        None => Stamp::zero(),
    }
}

/// The stamp of the next entry, above the clock and what it was told. None where the history has
/// all the entries, or all the stamps, that it may have.
pub fn next_stamp(history: &[Entry], told: Stamp) -> Option<Stamp>
    ensures { MatchOption result (is_full history.now told ≡ true) (λ stamp.
        (is_full history.now told ≡ false) × (stamp ≡ max (clock_of history.now) told + 1)) }
{
    if history.len() as u64 >= MAX_ENTRIES {
        return None;
    }
    clock_of(history).above(told)
}
