//! What a server owes of what is settled.
ghost use Rattle.std.specs.Prelude.{IfOk, IfSome};
ghost use Rattle.lynx_server.specs.Acts.{act_of};
ghost use Rattle.lynx_server.specs.Owed.{IsFirstOwed, IsSender};
ghost use Rattle.lynx_resting.specs.Resting.{settled_part};

use crate::resting::Resting;
use lynx_entry::Message;
use lynx_keep::BatchKeeper;
use lynx_names::{ChainId, Memory, ServerId};
use std::alloc::Global;

impl<K: BatchKeeper> Resting<K> {
    /// The first message that is owed by a settled entry at this place of the history or behind it,
    /// and the entry's place: [`Server::messages_due`](lynx_server::Server::messages_due).
    pub fn messages_due(&self, alloc: Global, from: u64) -> Result<Option<(u64, Message)>, Memory>
        ensures { IfOk result (IsFirstOwed (settled_part self.now) from) }
    {
        let Some((place, message)) = self.server.messages_due(alloc, from)? else {
            return Ok(None);
        };
        if place < self.settled as u64 {
            Ok(Some((place, message)))
        } else {
            Ok(None)
        }
    }

    /// The server that sends the message of that hop of the chain, where the hop ran here, settled
    /// or not: [`Server::sender_of`](lynx_server::Server::sender_of).
    pub fn sender_of(&self, chain: &ChainId, hop: u8) -> Option<ServerId>
        ensures { IfSome result (IsSender self.now.here.set hop (act_of chain.now hop
            self.now.here.history)) }
    {
        self.server.sender_of(chain, hop)
    }
}
