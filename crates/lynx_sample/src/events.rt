//! Events, and what they come to.
ghost use Rattle.std.specs.Prelude.{◌≡◌, ◌≢◌, IfOk};

use lynx_entry::{Event, Outcome};
use lynx_names::{Memory, TryCopy};
use std::alloc::Global;

/// The same event.
pub(crate) fn copy_of(alloc: Global, event: &Event) -> Result<Event, Memory>
    ensures { IfOk result (λ copied. copied ≡ event.now) }
{
    match event {
        Event::Begin {
            server,
            request,
            seen,
        } => Ok(Event::Begin {
            server: *server,
            request: request.copy(alloc)?,
            seen: *seen,
        }),
        Event::Deliver { chain, hop } => Ok(Event::Deliver {
            chain: *chain,
            hop: *hop,
        }),
        Event::Wake { server } => Ok(Event::Wake { server: *server }),
        Event::Lost { chain, hop } => Ok(Event::Lost {
            chain: *chain,
            hop: *hop,
        }),
        Event::Restart { server } => Ok(Event::Restart { server: *server }),
    }
}

/// What an event came to, unless memory was wanting.
pub(crate) fn unless_memory(outcome: Outcome) -> Result<Outcome, Memory>
    ensures { IfOk result (λ came. (came ≡ outcome) × (outcome ≢ Outcome.Memory)) }
{
    match outcome {
        Outcome::Memory => Err(Memory),
        came => Ok(came),
    }
}
