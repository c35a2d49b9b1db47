//! Closing a cluster: its workers end, its states are taken back, and what its sessions were told
//! is checked.
ghost use Rattle.std.specs.Prelude.{◌≡◌, IfErr, IfOk, length};
ghost use Rattle.lynx_cluster.specs.Closing.{IsClosed, IsUnclosed};
ghost use Rattle.lynx_cluster.specs.inner.Closing.{IsFirstUncounted};

use crate::absent::first_absent;
use crate::cluster::{Cluster, Frontend};
use crate::fault::CloseFault;
use crate::gate::Gate;
use crate::session::Session;
use crate::taking::{take_all, told_of};
use crate::workers::stop_all;
use lynx_keep::BatchKeeper;
use lynx_names::ServerId;
use lynx_set::ChainSet;
use lynx_weave::{ServerCounts, weave_since};
use lynx_world::World;
use std::alloc::Global;
use std::mem;
use std::sync::Wait;
use std::thread::Threads;

/// A closed cluster: how many sessions it made, the world of all that its servers did, and their
/// keepers, by server. No clause can say that so many were made: they are counted behind a lock.
#[derive(Drop)]
pub struct Closed<K: BatchKeeper> {
    pub made: u64,
    pub world: World,
    pub keepers: Vec<K>,
}

/// The first server of which another count of fresh answers was told than it gave.
fn first_uncounted(set: &ChainSet, counts: &[ServerCounts]) -> Option<ServerId>
    requires { length counts.now ≡ set.now.servers }
    ensures { IsFirstUncounted counts.now result }
{
    for number in 0..set.servers() {
        let counts = counts[usize::from(number)];
        if counts.fresh != counts.begins {
            return Some(ServerId::at(number));
        }
    }
    None
}

impl<K: BatchKeeper + Drop, G: Gate + Drop> Cluster<K, G> {
    /// Stops the workers and waits for each to end: messages aren't delivered any more. Who begins
    /// at the front still does.
    pub fn halt<R: Threads + Wait>(&mut self, rt: &R, alloc: Global)
        ensures { self.new ≡ self.old }
    {
        let workers = mem::replace(&mut self.workers, Vec::new(alloc));
        stop_all(rt, &self.stop, &self.frontend.signals, workers);
    }

    /// Stops the workers and waits for each to end, then checks all that the sessions were told:
    /// [`Frontend::close`]. Chains that haven't ended stay as they are.
    pub fn close<R: Threads + Wait>(
        self,
        rt: &R,
        alloc: Global,
        sessions: Vec<Session>,
    ) -> Result<Closed<K>, CloseFault>
        ensures closed { IfOk result (λ closed. IsClosed K.terms self sessions.items closed.made
            closed.world closed.keepers.items) }
        ensures fault { IfErr result (IsUnclosed K.terms self sessions.items) }
    {
        let Cluster {
            frontend,
            stop,
            workers,
        } = self;
        stop_all(rt, &stop, &frontend.signals, workers);
        frontend.close(alloc, sessions)
    }
}

impl<K: BatchKeeper + Drop, G: Gate + Drop> Frontend<K, G> {
    /// Takes the states out of their locks, weaves what the servers did to a world, and checks what
    /// the sessions were told in it.
    fn close(self, alloc: Global, sessions: Vec<Session>) -> Result<Closed<K>, CloseFault>
        ensures closed { IfOk result (λ closed. IsClosed K.terms self sessions.items closed.made
            closed.world closed.keepers.items) }
        ensures fault { IfErr result (IsUnclosed K.terms self sessions.items) }
    {
        let Frontend {
            set,
            starts,
            shared_servers,
            gate: _,
            signals: _,
            sessions: made,
        } = self;
        let made = made.into_inner();
        let absent = first_absent(alloc, made, sessions.as_slice());
        let set = &*set;
        // The sessions are spent before any fault is told.
        let told = told_of(alloc, sessions);
        if let Some(session) = absent? {
            return Err(CloseFault::Absent { session });
        }
        let told = told?;
        let taken = take_all(alloc, set, shared_servers)?;
        let woven = weave_since(
            alloc,
            set,
            taken.histories,
            starts.as_slice(),
            told.as_slice(),
        )?;
        if let Some(server) = first_uncounted(set, woven.counts.as_slice()) {
            return Err(CloseFault::Uncounted { server });
        }
        Ok(Closed {
            made,
            world: woven.world,
            keepers: taken.keepers,
        })
    }
}
