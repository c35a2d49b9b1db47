//! The states of a closed cluster, out of their locks, and what its sessions were told.
ghost use Rattle.std.specs.Prelude.{◌≡◌, ◌++◌, ◌∷◌, [], IfErr, IfOk, IfSome, IsOkAnd, OnOk, length, map};
ghost use Rattle.lynx_weave.specs.Rebuilt.{histories_in, told_in};
ghost use Rattle.lynx_cluster.specs.Closing.{AreTakenBack, IsTakenBack};
ghost use Rattle.lynx_cluster.specs.inner.Closing.{IsTakeFault};

use crate::cluster::is_of;
use crate::fault::CloseFault;
use crate::session::Session;
use crate::shared_server::SharedServer;
use lynx_entry::Entry;
use lynx_keep::BatchKeeper;
use lynx_names::{Memory, ServerId};
use lynx_set::ChainSet;
use lynx_weave::ToldItem;
use std::alloc::Global;
use std::sync::Arc;

/// The histories of all servers, and their keepers.
#[derive(Drop)]
pub(crate) struct Taken<K: BatchKeeper> {
    pub(crate) histories: Vec<Vec<Entry>>,
    pub(crate) keepers: Vec<K>,
}

/// The state of that server, out of its lock, all of it settled. None where another still has a
/// part in it, it is another server's or another set's, or it stopped.
fn take_back<K: BatchKeeper + Drop>(
    alloc: Global,
    set: &ChainSet,
    server: ServerId,
    shared: Arc<SharedServer<K>>,
) -> Option<(Vec<Entry>, K)>
    ensures { IfSome result (λ taken. IsTakenBack K.terms set.now server taken.0.items taken.1) }
{
    let state = Arc::into_inner(shared)?.into_state();
    if !is_of(&state, set, server) {
        return None;
    }
    state.into_parts(alloc)
}

impl<K: BatchKeeper + Drop> Taken<K> {
    /// One server more.
    fn add(&mut self, back: (Vec<Entry>, K)) -> Result<(), Memory>
        ensures histories { OnOk result (self.new.histories.items
            ≡ self.old.histories.items ++ back.0 ∷ []) }
        ensures keepers { OnOk result (self.new.keepers.items
            ≡ self.old.keepers.items ++ back.1 ∷ []) }
    {
        let (history, keeper) = back;
        self.histories.push(history)?;
        self.keepers.push(keeper)?;
        Ok(())
    }
}

/// The states of all servers, out of their locks.
pub(crate) fn take_all<K: BatchKeeper + Drop>(
    alloc: Global,
    set: &ChainSet,
    shared_servers: Vec<Arc<SharedServer<K>>>,
) -> Result<Taken<K>, CloseFault>
    requires { length shared_servers.items ≡ set.now.servers }
    ensures taken { IfOk result (λ taken. AreTakenBack K.terms set.now
        (histories_in taken.histories.items) taken.keepers.items) }
    ensures fault { IfErr result (IsTakeFault set.now.servers) }
{
    let count = set.servers();
    let mut taken = Taken {
        histories: Vec::new(alloc),
        keepers: Vec::new(alloc),
    };
    let mut shared_servers = shared_servers.into_iter();
    for number in 0..count {
        let Some(shared) = shared_servers.next() else {
            unreachable!()
        };
        let server = ServerId::at(number);
        let Some(back) = take_back(alloc, set, server, shared) else {
            return Err(CloseFault::Stopped { server });
        };
        taken.add(back)?;
    }
    Ok(taken)
}

/// The list with one more at its end. None for want of memory, before or now.
fn with_told(
    told: Result<Vec<Vec<ToldItem>>, Memory>,
    items: Vec<ToldItem>,
) -> Result<Vec<Vec<ToldItem>>, Memory>
    ensures { IfOk result (λ longer. IsOkAnd told (λ before. longer.items
        ≡ before.items ++ items ∷ [])) }
{
    let mut told = told?;
    told.push(items)?;
    Ok(told)
}

/// What each session was told, in order. The sessions are spent, also where memory is wanting.
pub(crate) fn told_of(alloc: Global, sessions: Vec<Session>) -> Result<Vec<Vec<ToldItem>>, Memory>
    ensures { IfOk result
        (λ told. told_in told.items ≡ map (λ session. session.told) sessions.items) }
{
    let mut told = Ok(Vec::new(alloc));
    let mut sessions = sessions.into_iter();
    while let Some(session) = sessions.next() {
        told = with_told(told, session.into_told());
    }
    sessions.destroy_empty();
    told
}
