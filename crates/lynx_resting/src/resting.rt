ghost use Rattle.std.specs.Prelude.{◌≡◌, IfSome, [], false, true, length};
ghost use Rattle.std.specs.FinMap as map;
ghost use Rattle.lynx_entry.specs.Answers.{HasFewResults};
ghost use Rattle.lynx_keep.specs.HeldBack.{held_terms};
ghost use Rattle.lynx_server.specs.History.{IsLawfulHistory};
ghost use Rattle.lynx_server.specs.Keeping.{kept_of};
ghost use Rattle.lynx_server.specs.Owed.{Acknowledges};
ghost use Rattle.lynx_server.specs.Serving.{Begins, Delivers, Lasts, Wakes, begins_here, delivery_of, told_stopped, woken_entry, woken_of};
ghost use Rattle.lynx_server.specs.Settling.{Settles};
ghost use Rattle.lynx_resting.specs.Resting.{mark_of, settled_front};

use crate::mark::Mark;
use crate::mirror::Mirror;
use lynx_entry::{Answer, Delivered, Entry, Message, Request};
use lynx_keep::{BatchKeeper, HeldBack};
use lynx_names::{ChainId, Stamp, learn};
use lynx_server::{Server, Woken};
use std::alloc::Global;
use std::marker::Model;
use std::sync::Arc;

/// A server as it lies behind its lock, and how many of its entries are settled. What it does is
/// held back until it settles, all of it in one transaction. What is read of it is the settled
/// front of its history.
#[derive(Drop)]
pub struct Resting<K: BatchKeeper> {
    pub(crate) server: Server<HeldBack<K>>,
    pub(crate) settled: usize,
    pub(crate) mirror: Option<Arc<Mirror>>,
}

impl<K: BatchKeeper> Model for Resting<K> {
    ghost use Rattle.lynx_resting.specs.Resting.{IsResting, RestingState, resting_code};

    ghost Value = { RestingState K };

    ghost coded = { resting_code K.code };

    ghost view = { λ resting. record { here = resting.server; settled = resting.settled } };

    ghost invariant = { λ resting. IsResting K.terms resting.server resting.settled
        resting.mirror };
}

impl<K: BatchKeeper> Resting<K> {
    /// All that the server did is settled. Takes no memory.
    pub fn new(alloc: Global, server: Server<K>) -> Resting<K>
        ensures set { result.here.set ≡ server.set }
        ensures server { result.here.server ≡ server.server }
        ensures history { result.here.history ≡ server.history }
        ensures held { result.here.held ≡ server.held }
        ensures stopped { result.here.is_stopped ≡ server.is_stopped }
        ensures acknowledged { result.here.acknowledged ≡ server.acknowledged }
        ensures keeper { result.here.keeper.inner ≡ server.keeper }
        ensures settled { result.settled ≡ length server.history }
    {
        let settled = server.history().len();
        // By its type its keeper keeps the history.
        learn(server.keeper());
        Resting {
            server: server.hold_back(alloc),
            settled,
            mirror: None,
        }
    }

    /// Begins a chain: [`Server::begin`]. The answer is told once all is settled.
    pub fn begin(&mut self, alloc: Global, request: Request, seen: Stamp) -> Answer
        ensures settled { self.new.settled ≡ self.old.settled }
        ensures stopped { self.old.here.is_stopped ≡ true → (result ≡ Answer.Stopped)
            × (self.new ≡ self.old) }
        ensures begins { self.old.here.is_stopped ≡ false
            → Begins (held_terms K.terms) self.old.here request seen result self.new.here }
        ensures lasts { self.old.here.is_stopped ≡ false → Lasts (held_terms K.terms) self.old.here
            (begins_here self.old.here request seen).added self.new.here }
        ensures few { HasFewResults result }
    {
        self.server.begin(alloc, request, seen)
    }

    /// Delivers a message: [`Server::deliver`]. What came of it is told once all is settled.
    pub fn deliver(&mut self, alloc: Global, message: Message) -> Delivered
        ensures settled { self.new.settled ≡ self.old.settled }
        ensures stopped { self.old.here.is_stopped ≡ true → (result ≡ Delivered.Stopped)
            × (self.new ≡ self.old) }
        ensures delivers { self.old.here.is_stopped ≡ false
            → Delivers (held_terms K.terms) self.old.here message result self.new.here }
        ensures lasts { self.old.here.is_stopped ≡ false → Lasts (held_terms K.terms) self.old.here
            (delivery_of self.old.here message).added self.new.here }
    {
        self.server.deliver(alloc, message)
    }

    /// Delivers a held message: [`Server::wake`]. What came of it is told once all is settled.
    pub fn wake(&mut self, alloc: Global) -> Option<Woken>
        ensures settled { self.new.settled ≡ self.old.settled }
        ensures stopped { self.old.here.is_stopped ≡ true
            → (result ≡ told_stopped (woken_of self.old.here)) × (self.new ≡ self.old) }
        ensures wakes { self.old.here.is_stopped ≡ false
            → Wakes (held_terms K.terms) self.old.here result self.new.here }
        ensures lasts { self.old.here.is_stopped ≡ false → Lasts (held_terms K.terms) self.old.here
            (woken_entry self.old.here (woken_of self.old.here)) self.new.here }
    {
        self.server.wake(alloc)
    }

    /// Notes that the hop was done: [`Server::acknowledge`].
    pub fn acknowledge(&mut self, chain: ChainId, hop: u8)
        ensures settled { self.new.settled ≡ self.old.settled }
        ensures acknowledges { Acknowledges self.old.here chain hop self.new.here }
    {
        self.server.acknowledge(chain, hop);
    }

    /// Settles all that the server did, in one transaction: [`Server::settle`]. A stop within it
    /// leaves the settled front, or all that the server did.
    pub fn settle(&mut self, alloc: Global) -> bool
        ensures stopped { self.old.here.is_stopped ≡ true → (result ≡ false)
            × (self.new ≡ self.old) }
        ensures settles { self.old.here.is_stopped ≡ false
            → Settles K.terms self.old.here result self.new.here }
        ensures all { result ≡ true → self.new.settled ≡ length self.new.here.history }
        ensures none { result ≡ false → self.new.settled ≡ self.old.settled }
        ensures stop { self.old.here.is_stopped ≡ false → K.terms.sound self.new.here.keeper.inner
            → K.terms.leaves self.new.here.keeper.inner
            (kept_of self.old.here.set (settled_front self.old))
            (kept_of self.old.here.set self.old.here.history) }
    {
        if self.server.settle(alloc) {
            self.settled = self.server.history().len();
            return true;
        }
        false
    }

    /// How much is settled, and whether the server stopped.
    pub fn mark(&self) -> Mark
        ensures { result ≡ mark_of self.now }
    {
        Mark {
            settled: self.settled,
            is_stopped: self.server.is_stopped(),
        }
    }

    /// Gives back the keeper, which keeps what is settled, where the server runs. What waits is let
    /// go.
    pub fn into_keeper(self) -> K
    where
        K: Drop,
        ensures keeper { result ≡ self.here.keeper.inner }
        ensures kept { self.here.is_stopped ≡ false → K.terms.sound result
            → K.terms.keeps result (kept_of self.here.set (settled_front self)) }
    {
        self.server.into_keeper().into_inner()
    }

    /// Settles all, and gives back the history and the keeper, which keeps just that. None where
    /// the server stopped, before or now.
    pub fn into_parts(self, alloc: Global) -> Option<(Vec<Entry>, K)>
    where
        K: Drop,
        ensures history { IfSome result (λ parts. parts.0.items ≡ self.here.history) }
        ensures lawful { IsLawfulHistory self.here.set self.here.server self.here.history }
        ensures kept { IfSome result (λ parts. K.terms.sound parts.1
            → K.terms.keeps parts.1 (kept_of self.here.set self.here.history)) }
    {
        let mut server = self.server;
        // By its type the history is lawful.
        learn(server.history());
        if !server.settle(alloc) {
            return None;
        }
        let (history, keeper) = server.into_parts();
        Some((history, keeper.into_inner()))
    }
}
