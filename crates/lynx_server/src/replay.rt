//! A server that is asked for what kept entries did, one after another.
ghost use Rattle.std.specs.Prelude.{◌≡◌, IfOk, OnOk, false};
ghost use Rattle.lynx_rules.specs.Answers.{answer};
ghost use Rattle.lynx_server.specs.inner.Repeating.{again, held_again, HasAdded, IsIdle, IsReplay, Repeats};
ghost use Rattle.lynx_server.specs.Serving.{delivery_of};

use crate::server::Server;
use lynx_cells::{Cells, Changes};
use lynx_entry::{Entry, Message, Request};
use lynx_keep::{KeepFault, Keeper, Loaded};
use lynx_names::{Memory, ServerId, Stamp, TryCopy};
use lynx_set::ChainSet;
use std::alloc::Global;

/// Keeps nothing: what is repeated over it stands in a store already. Nothing is said of what it
/// gives back.
#[derive(Debug, Drop)]
pub struct Unkept;

impl Keeper for Unkept {
    ghost use Rattle.lynx_server.specs.inner.Repeating.{unkept_terms};

    ghost terms = { unkept_terms };

    fn commit(&mut self, _: Global, _: &Entry, _: &Changes) -> Result<(), KeepFault> {
        Ok(())
    }

    fn load(&mut self, alloc: Global) -> Result<Loaded, KeepFault> {
        Ok(Loaded {
            entries: Vec::new(alloc),
            cells: Cells::new(alloc),
        })
    }

    fn faults(&self) -> u64 {
        0
    }

    ghost settled = { λ keeper kept sound keeps. keeps };

    ghost weaker = { λ keeper kept other left. left };
}

impl Server<Unkept> {
    /// Asks for a chain that began, or that was refused.
    fn begin_again(&mut self, alloc: Global, request: &Request, seen: Stamp) -> Result<(), Memory>
        requires { self.old.is_stopped ≡ false }
        ensures { OnOk result (HasAdded self.old
            (answer self.old.set self.old.server self.old.history request.now seen).added
            self.old.held self.new) }
    {
        let answer = self.begin(alloc, request.copy(alloc)?, seen);
        if answer.is_unserved() {
            return Err(Memory);
        }
        Ok(())
    }

    /// Delivers a message whose hop ran.
    fn deliver_again(&mut self, alloc: Global, message: &Message) -> Result<(), Memory>
        requires { self.old.is_stopped ≡ false }
        ensures { OnOk result (HasAdded self.old (delivery_of self.old message.now).added
            (delivery_of self.old message.now).held self.new) }
    {
        let delivered = self.deliver(alloc, message.copy(alloc)?);
        if delivered.is_undelivered() {
            return Err(Memory);
        }
        Ok(())
    }

    /// Asks for what the entry did.
    fn ask_again(&mut self, alloc: Global, entry: &Entry) -> Result<(), Memory>
        requires { self.old.is_stopped ≡ false }
        ensures { OnOk result (HasAdded self.old (again self.old entry.now)
            (held_again self.old entry.now) self.new) }
    {
        match entry {
            Entry::Begun(begun) => self.begin_again(alloc, &begun.request, begun.seen),
            Entry::Refused(refused) => self.begin_again(alloc, &refused.request, refused.seen),
            Entry::Hop(ran) => self.deliver_again(alloc, &ran.message),
        }
    }

    /// Whether the server, asked for what the entry did, does this and nothing else.
    fn repeats(&mut self, alloc: Global, entry: &Entry) -> Result<bool, Memory>
        requires { IsIdle self.old }
        ensures { IfOk result (Repeats self.old entry.now self.new) }
    {
        let place = self.history().len();
        self.ask_again(alloc, entry)?;
        Ok(self.entry(place) == Some(entry))
    }
}

/// What a replay comes to.
#[derive(Drop)]
pub enum Replayed {
    /// A server that did all of it.
    Done(Server<Unkept>),
    /// The place of the first entry that it did not do so.
    Differs(usize),
}

/// A server that does what these entries did, one after another. Each takes the work of its hop,
/// and a few look-ups.
pub(crate) fn replay(
    alloc: Global,
    set: &ChainSet,
    server: ServerId,
    entries: &[Entry],
) -> Result<Replayed, Memory>
    ensures { IfOk result (IsReplay set.now server entries.now) }
{
    let mut replayed = Server::new(alloc, set, server, Unkept)?;
    for (place, entry) in entries.iter().enumerate() {
        if !replayed.repeats(alloc, entry)? {
            return Ok(Replayed::Differs(place));
        }
    }
    Ok(Replayed::Done(replayed))
}
