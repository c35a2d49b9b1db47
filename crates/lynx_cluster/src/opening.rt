//! The servers of a cluster, opened over their keepers.
ghost use Rattle.std.specs.Prelude.{◌≡◌, ◌++◌, ◌∷◌, [], IfErr, IfOk, OnOk, length};
ghost use Rattle.lynx_weave.specs.Senders.{FindsSenders};
ghost use Rattle.lynx_weave.specs.Servers.{AreServersOf, histories_of};
ghost use Rattle.lynx_cluster.specs.Starting.{AreOpened, IsUnstarted};
ghost use Rattle.lynx_cluster.specs.inner.Opening.{IsOpenFault, OpensOne};

use crate::fault::StartFault;
use lynx_keep::Keeper;
use lynx_names::{Memory, ServerId, TryCopy};
use lynx_server::{OpenFault, Server};
use lynx_set::ChainSet;
use lynx_weave::{WeaveFault, check_senders};
use std::alloc::Global;

/// The servers of a set, opened over their keepers and not running yet.
#[derive(Drop)]
pub struct Opened<K: Keeper> {
    pub(crate) set: ChainSet,
    pub(crate) servers: Vec<Server<K>>,
}

/// The server over its keeper.
fn open_one<K: Keeper + Drop>(
    alloc: Global,
    set: &ChainSet,
    server: ServerId,
    keeper: K,
) -> Result<Server<K>, StartFault>
    ensures { OpensOne K.terms set.now server keeper result }
{
    match Server::open(alloc, set, server, keeper) {
        Ok(state) => Ok(state),
        Err(OpenFault::Memory) => Err(StartFault::Memory),
        Err(fault) => Err(StartFault::Open { server, fault }),
    }
}

/// One server more.
fn add<K: Keeper + Drop>(servers: &mut Vec<Server<K>>, opened: Server<K>) -> Result<(), Memory>
    ensures { OnOk result (servers.new.items ≡ servers.old.items ++ opened ∷ []) }
{
    servers.push(opened)?;
    Ok(())
}

/// The servers of the set in order, one over each keeper.
fn open_all<K: Keeper + Drop>(
    alloc: Global,
    set: &ChainSet,
    keepers: Vec<K>,
) -> Result<Vec<Server<K>>, StartFault>
    requires { length keepers.items ≡ set.now.servers }
    ensures opened { IfOk result (λ servers. AreOpened K.terms set.now keepers.items
        servers.items) }
    ensures fault { IfErr result (IsOpenFault K.terms set.now keepers.items) }
{
    let count = set.servers();
    let mut servers = Vec::new(alloc);
    let mut keepers = keepers.into_iter();
    for number in 0..count {
        let Some(keeper) = keepers.next() else {
            unreachable!()
        };
        match open_one(alloc, set, ServerId::at(number), keeper) {
            Ok(opened) => add(&mut servers, opened)?,
            Err(fault) => return Err(fault),
        }
    }
    Ok(servers)
}

impl<K: Keeper + Drop> Opened<K> {
    /// Opens each server of the set over its keeper, in order. The set is copied. Where it fails
    /// the keepers are dropped, and what they stored stands.
    pub fn open(alloc: Global, set: &ChainSet, keepers: Vec<K>) -> Result<Opened<K>, StartFault>
        ensures set { IfOk result (λ opened. opened.set ≡ set.now) }
        ensures opened { IfOk result (λ opened. AreOpened K.terms set.now keepers.items
            opened.servers.items) }
        ensures servers { IfOk result (λ opened. AreServersOf opened.set opened.servers.items) }
        ensures fault { IfErr result (IsUnstarted K.terms set.now keepers.items) }
    {
        if keepers.len() != usize::from(set.servers()) {
            return Err(StartFault::OtherCount);
        }
        let servers = open_all(alloc, set, keepers)?;
        let set = set.copy(alloc)?;
        Ok(Opened { set, servers })
    }

    /// The servers, in order.
    pub fn servers(&self) -> &[Server<K>]
        ensures { result.now ≡ self.now.servers.items }
    {
        self.servers.as_slice()
    }

    /// Whether the servers fit together: each later hop ran on a message that an entry of another
    /// of them sends. Those that one cluster left always do; where one is missing, or is an older
    /// copy, the first entry whose message nobody sends is told, by server and place. One look-up
    /// and two copies of a message for each hop behind a first.
    pub fn check(&self, alloc: Global) -> Result<(), WeaveFault>
        requires { AreServersOf self.now.set self.now.servers.items }
        ensures { FindsSenders self.now.set (histories_of self.now.servers.items) result }
    {
        check_senders(alloc, &self.set, self.servers.as_slice())
    }
}
