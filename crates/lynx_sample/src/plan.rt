//! A script on its way: the events so far, and the world that they made.
use crate::choices::Choices;
use crate::courses::Course;
use crate::events::{copy_of, unless_memory};
use lynx_entry::{Delivered, Event, Outcome};
use lynx_names::{ChainId, Memory, ServerId, TryCopy};
use lynx_set::{Action, ChainSet, Hop, Key};
use lynx_world::{World, empty_keepers};
use std::alloc::Global;

/// Events that were drawn, and what is to be known for drawing more. The script is judged anew,
/// from its text, so nothing is proved of it here.
#[derive(Drop)]
pub(crate) struct Plan {
    pub(crate) world: World,
    pub(crate) events: Vec<Event>,
    pub(crate) courses: Vec<Course>,
    /// Numbers at which chains can meet: the keys that the set's programs name, and the arguments
    /// of chains that began.
    pub(crate) meeting: Vec<u64>,
    /// How many requests were made.
    pub(crate) requests: u64,
}

impl Plan {
    pub(crate) fn new(alloc: Global, set: &ChainSet) -> Result<Plan, Memory> {
        let keepers = empty_keepers(alloc, set)?;
        Ok(Plan {
            world: World::new(alloc, set.copy(alloc)?, keepers)?,
            events: Vec::new(alloc),
            courses: Vec::new(alloc),
            meeting: literal_keys(alloc, set)?,
            requests: 0,
        })
    }

    /// Adds the event, and gives what it came to.
    pub(crate) fn play(&mut self, alloc: Global, event: Event) -> Result<Outcome, Memory> {
        let copied = copy_of(alloc, &event)?;
        let outcome = unless_memory(self.world.apply(alloc, event))?;
        self.events.push(copied)?;
        self.note(&outcome);
        Ok(outcome)
    }

    /// Notes how far an event brought the chains.
    fn note(&mut self, outcome: &Outcome) {
        match outcome {
            Outcome::Delivered {
                chain,
                hop,
                delivered,
            }
            | Outcome::Woken {
                chain,
                hop,
                delivered,
            } => self.note_delivery(chain, *hop, delivered),
            Outcome::Restarted { server } => self.note_restart(*server),
            _ => {}
        }
    }

    fn note_delivery(&mut self, chain: &ChainId, hop: u8, delivered: &Delivered) {
        for course in self.courses.iter_mut() {
            course.note(chain, hop, delivered);
        }
    }

    /// What the server held is gone.
    fn note_restart(&mut self, server: ServerId) {
        let set = self.world.set();
        for course in self.courses.iter_mut() {
            if course.next_server(set) == Some(server) {
                course.is_held = false;
            }
        }
    }

    /// One of the chains of which this holds.
    pub(crate) fn pick(&self, choices: &mut Choices, wanted: Wanted) -> Option<Course> {
        let courses = self.courses.as_slice();
        let first = choices.place(courses.len());
        courses
            .iter()
            .skip(first)
            .chain(courses.iter().take(first))
            .find(|course| self.is_wanted(course, wanted))
            .copied()
    }

    fn is_wanted(&self, course: &Course, wanted: Wanted) -> bool {
        let set = self.world.set();
        match wanted {
            Wanted::Due => course.is_due(set, self.courses.as_slice()),
            Wanted::Owing => course.next_server(set).is_some(),
            Wanted::Early => {
                course.next_server(set).is_some() && !course.is_due(set, self.courses.as_slice())
            }
            Wanted::Moved => course.next > 1,
        }
    }
}

/// Which chain is to be picked.
#[derive(Clone, Copy)]
pub(crate) enum Wanted {
    /// It is the turn of its next hop.
    Due,
    /// It owes a hop.
    Owing,
    /// It owes a hop whose turn it isn't yet.
    Early,
    /// It has done a hop on a message.
    Moved,
}

/// The keys that programs name by number.
fn literal_keys(alloc: Global, set: &ChainSet) -> Result<Vec<u64>, Memory> {
    let mut keys = Vec::new(alloc);
    for (_, program) in set.programs() {
        for hop in program.hops.as_slice() {
            add_keys(&mut keys, hop)?;
        }
    }
    Ok(keys)
}

/// Adds those in the hop.
fn add_keys(keys: &mut Vec<u64>, hop: &Hop) -> Result<(), Memory> {
    for action in hop.actions.as_slice() {
        if let Some(key) = literal_key(action) {
            keys.push(key)?;
        }
    }
    Ok(())
}

/// The number that is the key of the action's cell.
fn literal_key(action: &Action) -> Option<u64> {
    match action.cell() {
        Some((_, Key::Literal(key))) => Some(key),
        _ => None,
    }
}
