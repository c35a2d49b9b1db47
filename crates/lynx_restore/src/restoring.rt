//! New stores of the greatest world below copies of stores.
ghost use Rattle.std.specs.Prelude.{◌≡◌, IfOk, length};
ghost use Rattle.lynx_restore.specs.Restored.{IsRestored};

use crate::copying::cut_counts;
use crate::fault::RestoreFault;
use crate::restored::Restored;
use crate::storing::store_all;
use crate::summing::sum_up;
use lynx_cluster::Opened;
use lynx_keep::{BatchKeeper, Keeper};
use lynx_set::ChainSet;
use lynx_store_files::Stores;
use std::alloc::Global;

/// Makes new stores in the folder of as much of these copies as fits together, one copy for each
/// server of the set: opens each server over its copy, finds how many of its first entries are
/// those of one run, as many as can be of each server at once, and has a new server do just these.
/// The copies may be of different moments, and of runs that parted. The folder has no stores of the
/// set yet, and none is made before it is known what all of them are to have.
///
/// It holds the histories in memory a few times over, and takes about three times as long as
/// opening servers over the copies, and a commit for each 64 entries of a server.
pub fn restore<K: Keeper + Drop, L: BatchKeeper + Drop, S: Stores<L>>(
    alloc: Global,
    set: &ChainSet,
    copies: Vec<K>,
    stores: &S,
    folder: &str,
) -> Result<Restored, RestoreFault>
    requires { length copies.items ≡ set.now.servers }
    ensures { IfOk result
        (IsRestored K.terms L.terms S.store_terms folder.now set.now copies.items) }
{
    let opened = Opened::open(alloc, set, copies)?;
    let servers = opened.servers();
    let counts = cut_counts(alloc, set, servers)?;
    let restored = sum_up(alloc, servers, counts.as_slice())?;
    store_all(alloc, set, servers, counts.as_slice(), stores, folder)?;
    Ok(restored)
}
