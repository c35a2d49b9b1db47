//! Settling what the keeper of a server holds back.
ghost use Rattle.std.specs.Prelude.{◌≡◌, [], false, true};
ghost use Rattle.std.specs.FinMap as map;
ghost use Rattle.lynx_server.specs.Settling.{Settles};

use crate::server::Server;
use lynx_keep::{BatchKeeper, HeldBack};
use lynx_names::learn;
use std::alloc::Global;

impl<K: BatchKeeper> Server<K> {
    /// The same server, which from now on holds back what it does until it settles. Takes no
    /// memory.
    pub fn hold_back(self, alloc: Global) -> Server<HeldBack<K>>
        ensures { result ≡ record {
          set = self.set;
          server = self.server;
          history = self.history;
          held = self.held;
          is_stopped = self.is_stopped;
          opened = self.opened;
          acknowledged = self.acknowledged;
          keeper = record {
            inner = self.keeper;
            waiting = [];
            changes = map.empty;
            faults = 0;
          };
        } }
    {
        // Its count of faults is a u64.
        learn(self.keeper.faults());
        Server {
            register: self.register,
            held: self.held,
            keeper: HeldBack::new(alloc, self.keeper),
            is_stopped: self.is_stopped,
            opened: self.opened,
            acknowledged: self.acknowledged,
        }
    }
}

impl<K: BatchKeeper> Server<HeldBack<K>> {
    /// Keeps for good all that the server did, in one transaction: from then on a stop leaves all
    /// of it. False where the server has stopped, before or now, since its keeper failed; then it
    /// is not known what was kept of what it did since it settled last, and nobody is to be told of
    /// that. Where nothing waits, nothing is written.
    pub fn settle(&mut self, alloc: Global) -> bool
        ensures stopped { self.old.is_stopped ≡ true → (result ≡ false) × (self.new ≡ self.old) }
        ensures settles { self.old.is_stopped ≡ false → Settles K.terms self.old result self.new }
    {
        if self.is_stopped {
            return false;
        }
        match self.keeper.settle(alloc) {
            Ok(()) => true,
            Err(_) => {
                self.is_stopped = true;
                false
            }
        }
    }
}
