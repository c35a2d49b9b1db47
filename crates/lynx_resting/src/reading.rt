//! What is read of a server: its settled front.
ghost use Rattle.std.specs.Prelude.{◌≡◌, ◌-◌, ◌<◌, MatchOption, length, option_copied};
ghost use Rattle.lynx_rules.specs.Lawful.{record_of};
ghost use Rattle.lynx_rules.specs.Tables.{tables_of};
ghost use Rattle.lynx_server.specs.Acts.{GivesResults, act_of};
ghost use Rattle.lynx_server.specs.Books.{IsFoundAt};
ghost use Rattle.lynx_server.specs.History.{IsLawfulHistory};
ghost use Rattle.lynx_resting.specs.Resting.{settled_front};

use crate::resting::Resting;
use lynx_cells::Cells;
use lynx_entry::{Entry, Message, Request};
use lynx_keep::{BatchKeeper, Cause, Keeper};
use lynx_names::{ChainId, ServerId, Stamp, learn};
use lynx_set::ChainSet;

impl<K: BatchKeeper> Resting<K> {
    pub fn set(&self) -> &ChainSet
        ensures { result.now ≡ self.now.here.set }
    {
        self.server.set()
    }

    pub fn server(&self) -> ServerId
        ensures { result ≡ self.now.here.server }
    {
        self.server.server()
    }

    /// Whether the keeper failed. Then the server answers Stopped to everything, and of what it did
    /// since it settled last nobody is told.
    pub fn is_stopped(&self) -> bool
        ensures { result ≡ self.now.here.is_stopped }
    {
        self.server.is_stopped()
    }

    /// Why its store failed last: [`Keeper::cause`].
    pub fn cause(&self) -> Option<Cause> {
        self.server.keeper().cause()
    }

    /// The messages that wait for their turn.
    pub fn held(&self) -> &[Message]
        ensures { result.now ≡ self.now.here.held }
    {
        self.server.held()
    }

    /// The entries that are settled, each lawful after those before it.
    pub fn settled(&self) -> &[Entry]
        ensures value { result.now ≡ settled_front self.now }
        ensures lawful { IsLawfulHistory self.now.here.set self.now.here.server
            (settled_front self.now) }
    {
        &self.server.history()[..self.settled]
    }

    /// How many entries wait to be settled.
    pub fn waiting(&self) -> usize
        ensures { result ≡ length self.now.here.history - self.now.settled }
    {
        self.server.history().len() - self.settled
    }

    /// How many entries there are, with those that wait to be settled, each lawful after those
    /// before it.
    pub fn reached(&self) -> usize
        ensures count { result ≡ length self.now.here.history }
        ensures lawful { IsLawfulHistory self.now.here.set self.now.here.server
            self.now.here.history }
    {
        self.server.history().len()
    }

    /// The place of the entry of that hop of the chain, if it ran here and is settled: two look-ups
    /// at most. Takes no memory.
    pub fn place_of(&self, chain: ChainId, hop: u8) -> Option<usize>
        ensures { IsFoundAt (settled_front self.now) result
            (act_of chain hop (settled_front self.now)) }
    {
        // By its type the history is lawful, so no entry stands in it twice.
        learn(self.server.history());
        let place = self.server.place_of(chain, hop)?;
        if place < self.settled {
            Some(place)
        } else {
            None
        }
    }

    /// The entry of that hop of the chain, if it ran here and is settled: two look-ups at most.
    /// Takes no memory.
    pub fn entry_of(&self, chain: ChainId, hop: u8) -> Option<&Entry>
        ensures { option_copied result ≡ act_of chain hop (settled_front self.now) }
    {
        let place = self.place_of(chain, hop)?;
        self.settled().get(place)
    }

    /// The stamp and the results of that hop of the chain, if it ran here and is settled: two
    /// look-ups at most. Takes no memory.
    pub fn results(&self, chain: ChainId, hop: u8) -> Option<(Stamp, &[u64])>
        ensures { GivesResults (act_of chain hop (settled_front self.now)) result }
    {
        match self.entry_of(chain, hop)? {
            Entry::Begun(begun) => Some((begun.stamp, begun.results.as_slice())),
            Entry::Refused(_) => None,
            Entry::Hop(ran) => Some((ran.stamp, ran.results.as_slice())),
        }
    }

    /// The place of the entry that keeps the answer to a request of this client and number, if it
    /// is settled: one look-up. Takes no memory.
    pub fn record_place(&self, request: &Request) -> Option<usize>
        ensures { IsFoundAt (settled_front self.now) result
            (record_of request.now (settled_front self.now)) }
    {
        // By its type the history is lawful, so no request is recorded in it twice.
        learn(self.server.history());
        let place = self.server.record_place(request)?;
        if self.settled <= place {
            return None;
        }
        Some(place)
    }

    /// The entry that keeps the answer to a request of this client and number, if it is settled:
    /// one look-up. Takes no memory.
    pub fn record_of(&self, request: &Request) -> Option<&Entry>
        ensures { option_copied result ≡ record_of request.now (settled_front self.now) }
    {
        let place = self.record_place(request)?;
        self.settled().get(place)
    }

    /// The cells, as the settled front of the history leaves them. None while something waits to be
    /// settled. Takes no memory.
    pub fn cells(&self) -> Option<&Cells>
        ensures { MatchOption result (self.now.settled < length self.now.here.history)
            (λ cells. cells.now.database ≡ tables_of self.now.here.set (settled_front self.now)) }
    {
        if self.waiting() > 0 {
            return None;
        }
        Some(self.server.cells())
    }
}
