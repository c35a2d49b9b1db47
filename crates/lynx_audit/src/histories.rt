//! The histories that keepers keep, each judged as the opening of its server judges it.
ghost use Rattle.std.specs.Prelude.{◌≡◌, ◌∷◌, ◌++◌, [], IfErr, IfOk, OnOk, length};
ghost use Rattle.lynx_weave.specs.Rebuilt.{histories_in};
ghost use Rattle.lynx_audit.specs.Audits.{AreOpenedTo, BlamesRight, DoesntOpen, IsOpenedTo};

use lynx_cluster::StartFault;
use lynx_entry::Entry;
use lynx_keep::Keeper;
use lynx_names::{Memory, ServerId};
use lynx_server::Server;
use lynx_service::ServeFault;
use lynx_set::ChainSet;
use std::alloc::Global;

/// The history of the server that opens over its keeper.
fn history_of<K: Keeper + Drop>(
    alloc: Global,
    set: &ChainSet,
    server: ServerId,
    keeper: K,
) -> Result<Vec<Entry>, ServeFault>
    ensures ok { IfOk result
        (λ history. IsOpenedTo K.terms set.now server keeper history.items) }
    ensures err { IfErr result (DoesntOpen K.terms set.now server keeper) }
{
    match Server::open(alloc, set, server, keeper) {
        Ok(opened) => Ok(opened.into_parts().0),
        Err(fault) => Err(ServeFault::from(StartFault::Open { server, fault })),
    }
}

/// One history more.
fn add(histories: &mut Vec<Vec<Entry>>, history: Vec<Entry>) -> Result<(), Memory>
    ensures { OnOk result (histories.new.items ≡ histories.old.items ++ history ∷ []) }
{
    histories.push(history)?;
    Ok(())
}

/// The histories of the servers of the set, each opened over its keeper.
pub(crate) fn histories_of<K: Keeper + Drop>(
    alloc: Global,
    set: &ChainSet,
    keepers: Vec<K>,
) -> Result<Vec<Vec<Entry>>, ServeFault>
    requires { length keepers.items ≡ set.now.servers }
    ensures ok { IfOk result (λ histories. AreOpenedTo K.terms set.now keepers.items
        (histories_in histories.items)) }
    ensures err { IfErr result (BlamesRight K.terms set.now keepers.items) }
{
    let count = set.servers();
    let mut histories = Vec::new(alloc);
    let mut keepers = keepers.into_iter();
    for number in 0..count {
        let Some(keeper) = keepers.next() else {
            unreachable!()
        };
        let history = history_of(alloc, set, ServerId::at(number), keeper)?;
        add(&mut histories, history)?;
    }
    Ok(histories)
}
