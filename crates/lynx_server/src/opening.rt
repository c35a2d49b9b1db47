//! Opening a server over what was kept.
ghost use Rattle.std.specs.Prelude.{◌≡◌, ◌↔◌, IsTrue, IfOk};
ghost use Rattle.lynx_server.specs.History.{IsJudged};
ghost use Rattle.lynx_server.specs.Opening.{Opens};
ghost use Rattle.lynx_server.specs.inner.ReadingBack.{ReadsBack};

use crate::fault::OpenFault;
use crate::replay::{Replayed, Unkept, replay};
use crate::server::Server;
use lynx_cells::Cells;
use lynx_entry::Entry;
use lynx_keep::Keeper;
use lynx_names::{Memory, ServerId, TryCopy};
use lynx_set::ChainSet;
use std::alloc::Global;

/// The place of the first entry that isn't lawful at this server after those before it, None where
/// each is. The entries are gone over once, and each takes the work of its hop and a few look-ups.
pub fn first_unlawful(
    alloc: Global,
    set: &ChainSet,
    server: ServerId,
    entries: &[Entry],
) -> Result<Option<u64>, Memory>
    ensures { IfOk result (IsJudged set.now server entries.now) }
{
    match replay(alloc, set, server, entries)? {
        Replayed::Done(_) => Ok(None),
        Replayed::Differs(place) => Ok(Some(place as u64)),
    }
}

/// Whether two servers' cells hold the same. Both are listed for it.
pub fn same_cells(alloc: Global, left: &Cells, right: &Cells) -> Result<bool, Memory>
    ensures { IfOk result (λ same. IsTrue same ↔ (left.now.database ≡ right.now.database)) }
{
    let left = left.list(alloc)?;
    let right = right.list(alloc)?;
    Ok(left == right)
}

/// A server over no store that did what the keeper keeps. Nothing is committed.
fn read_back<K: Keeper>(
    alloc: Global,
    set: &ChainSet,
    server: ServerId,
    keeper: &mut K,
) -> Result<Server<Unkept>, OpenFault>
    ensures { ReadsBack K.terms set.now server keeper.old keeper.new result }
{
    let loaded = keeper.load(alloc)?;
    let entries = loaded.entries.as_slice();
    let replayed = match replay(alloc, set, server, entries)? {
        Replayed::Done(replayed) => replayed,
        Replayed::Differs(place) => {
            return Err(OpenFault::Damaged {
                place: place as u64,
            });
        }
    };
    if !same_cells(alloc, replayed.cells(), &loaded.cells)? {
        return Err(OpenFault::Damaged {
            place: entries.len() as u64,
        });
    }
    Ok(replayed)
}

impl<K: Keeper> Server<K> {
    /// A server over all that the keeper keeps. Nothing is held, and the keeper's earlier faults
    /// don't count. The kept entries are gone over once, and each takes the work of its hop and a
    /// few look-ups. A stop at any moment leaves what was kept.
    pub fn open(
        alloc: Global,
        set: &ChainSet,
        server: ServerId,
        mut keeper: K,
    ) -> Result<Server<K>, OpenFault>
    where
        K: Drop,
        ensures { Opens K.terms set.now server keeper result }
    {
        let replayed = read_back(alloc, set, server, &mut keeper)?;
        Ok(replayed.over(keeper))
    }

    /// Drops all but the keeper, and opens again over what it keeps: nothing is held, and a server
    /// that stopped runs again.
    pub fn restart(self, alloc: Global) -> Result<Server<K>, OpenFault>
    where
        K: Drop,
        ensures { Opens K.terms self.set self.server self.keeper result }
    {
        let set = self.set().copy(alloc)?;
        let server = self.server();
        Server::open(alloc, &set, server, self.into_keeper())
    }
}
