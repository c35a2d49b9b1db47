//! Deliveries, and what goes wrong between them.
use crate::choices::Choices;
use crate::courses::Course;
use crate::plan::{Plan, Wanted};
use lynx_entry::Event;
use lynx_names::{Memory, ServerId};
use std::alloc::Global;

impl Plan {
    /// The next hop of a chain whose turn it is: its message is delivered, or where its server
    /// holds it the server is woken. False where no chain owes a hop.
    pub(crate) fn advance(&mut self, alloc: Global, choices: &mut Choices) -> Result<bool, Memory> {
        let Some(course) = self.pick(choices, Wanted::Due) else {
            return Ok(false);
        };
        let event = match course.next_server(self.world.set()) {
            Some(server) if course.is_held && !choices.once_in(4) => Event::Wake { server },
            _ => delivery(&course),
        };
        self.play(alloc, event)?;
        Ok(true)
    }

    /// Something that brings no chain further, or a message that comes before its turn.
    pub(crate) fn stumble(&mut self, alloc: Global, choices: &mut Choices) -> Result<(), Memory> {
        let event = match choices.below(8) {
            0 | 1 => self.repeat(choices),
            2 | 3 | 4 => self
                .pick(choices, Wanted::Early)
                .map(|course| delivery(&course)),
            5 => self
                .pick(choices, Wanted::Owing)
                .map(|course| loss(&course)),
            6 => self
                .any_server(choices)
                .map(|server| Event::Wake { server }),
            _ => self
                .any_server(choices)
                .map(|server| Event::Restart { server }),
        };
        if let Some(event) = event {
            self.play(alloc, event)?;
        }
        Ok(())
    }

    /// A message whose hop is done comes again.
    fn repeat(&self, choices: &mut Choices) -> Option<Event> {
        let course = self.pick(choices, Wanted::Moved)?;
        let done = u64::from(course.next.saturating_sub(1));
        let hop = u8::try_from(choices.below(done)).ok()?;
        Some(Event::Deliver {
            chain: course.chain,
            hop: hop.saturating_add(1),
        })
    }

    fn any_server(&self, choices: &mut Choices) -> Option<ServerId> {
        let servers = self.world.set().servers();
        ServerId::among(servers, choices.below(u64::from(servers)))
    }
}

/// The message that the chain owes comes to its server.
fn delivery(course: &Course) -> Event {
    Event::Deliver {
        chain: course.chain,
        hop: course.next,
    }
}

/// The message that the chain owes is lost.
fn loss(course: &Course) -> Event {
    Event::Lost {
        chain: course.chain,
        hop: course.next,
    }
}
