//! The messages that a server owes: those that its entries send and nobody acknowledged.
ghost use Rattle.std.specs.Prelude.{◌≡◌, IfOk, IfSome};
ghost use Rattle.lynx_server.specs.Acts.{act_of};
ghost use Rattle.lynx_server.specs.Owed.{Acknowledges, IsFirstOwed, IsSender, is_acknowledged, owed_by};

use crate::marks::mark;
use crate::server::Server;
use lynx_entry::{Entry, Message};
use lynx_keep::Keeper;
use lynx_names::{ChainId, Memory, ServerId};
use lynx_rules::next_of;
use std::alloc::Global;

impl<K: Keeper> Server<K> {
    /// The first message that is owed by an entry at this place of the history or behind it, and
    /// the entry's place. The work is a look at each place up to that one, and the message's copy.
    pub fn messages_due(&self, alloc: Global, from: u64) -> Result<Option<(u64, Message)>, Memory>
        ensures { IfOk result (IsFirstOwed self.now from) }
    {
        let Ok(start) = usize::try_from(from) else {
            return Ok(None);
        };
        let history = self.history();
        for place in start..history.len() {
            if let Some(message) = self.owed_by(alloc, place, &history[place])? {
                return Ok(Some((place as u64, message)));
            }
        }
        Ok(None)
    }

    /// The next message of the entry at the place, unless it was acknowledged.
    fn owed_by(&self, alloc: Global, place: usize, entry: &Entry) -> Result<Option<Message>, Memory>
        ensures { IfOk result (λ owed. owed ≡ owed_by self.now place entry.now) }
    {
        if self.is_acknowledged(place) {
            return Ok(None);
        }
        next_of(alloc, self.set(), entry)
    }

    /// Notes that the hop was done, where an entry here sends it. The note isn't kept: a server
    /// that is opened again owes the message again. Two look-ups at most; takes no memory.
    pub fn acknowledge(&mut self, chain: ChainId, hop: u8)
        ensures { Acknowledges self.old chain hop self.new }
    {
        if hop == 0 {
            return;
        }
        if let Some(place) = self.register.place_of(chain, hop - 1) {
            mark(&mut self.acknowledged, place);
        }
    }

    /// The server that sends the message of that hop of the chain, where the hop ran here. Two
    /// look-ups at most.
    pub fn sender_of(&self, chain: &ChainId, hop: u8) -> Option<ServerId>
        ensures { IfSome result (IsSender self.now.set hop (act_of chain.now hop
            self.now.history)) }
    {
        let Some(Entry::Hop(ran)) = self.entry_of(*chain, hop) else {
            return None;
        };
        let before = usize::from(hop.checked_sub(1)?);
        Some(self.set().hop(ran.message.program, before)?.server)
    }

    fn is_acknowledged(&self, place: usize) -> bool
        ensures { result ≡ is_acknowledged self.now.acknowledged place }
    {
        match self.acknowledged.as_slice().get(place) {
            Some(marked) => *marked,
            None => false,
        }
    }
}
