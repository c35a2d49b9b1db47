//! Stores of servers that have none are made.
ghost use Rattle.std.specs.Prelude.{◌≡◌, ◌∷◌, ◌++◌, [], length, IfOk, OnOk};
ghost use Rattle.std.specs.Io.KnownBytes.{Appends};
ghost use Rattle.lynx_give.specs.Given.{Each, IsMade, made_text, told_of};

use crate::fault::GiveFault;
use crate::lines::write_made;
use crate::store::{Store, add};
use lynx_keep::Keeper;
use lynx_names::ServerId;
use lynx_set::ChainSet;
use lynx_store::StoreFault;
use lynx_store_files::Stores;
use std::alloc::Global;
use std::io::Write;

/// The store of a server: the one that was found, or else a new one, which is told.
fn make_at<K: Keeper + Drop, C: Drop, S: Stores<K>, W: Write>(
    stores: &S,
    folder: &str,
    set: &ChainSet,
    server: ServerId,
    found: Option<C>,
    writer: &mut W,
) -> Result<Store<K, C>, GiveFault>
    ensures made { IfOk result (IsMade S.store_terms folder.now set.now server found) }
    ensures told { IfOk result (λ store.
        Appends (W.contents writer.old) (W.contents writer.new) (made_text server store)) }
{
    if let Some(held) = found {
        return Ok(Store::Held(held));
    }
    let keeper = match stores.open(folder, set, server) {
        Ok(keeper) => keeper,
        Err(fault) => return Err(GiveFault::of_store(server, fault)),
    };
    // None was there a moment ago: what somebody else put there since is left to them.
    if stores.entries(&keeper) > 0 {
        return Err(GiveFault::of_store(server, StoreFault::Store));
    }
    write_made(server, writer)?;
    Ok(Store::Made(keeper))
}

/// The store of each server of the set. Those that weren't found are made, in order, and told.
pub(crate) fn make_all<K: Keeper + Drop, C: Drop, S: Stores<K>, W: Write>(
    alloc: Global,
    stores: &S,
    folder: &str,
    set: &ChainSet,
    found: Vec<Option<C>>,
    writer: &mut W,
) -> Result<Vec<Store<K, C>>, GiveFault>
    requires { length found.items ≡ set.now.servers }
    ensures made { IfOk result (λ made.
        Each (IsMade S.store_terms folder.now set.now) 0 found.items made.items) }
    ensures told { IfOk result (λ made.
        Appends (W.contents writer.old) (W.contents writer.new) (told_of made_text 0 made.items)) }
{
    let count = set.servers();
    let mut made = Vec::new(alloc);
    let mut found = found.into_iter();
    for number in 0..count {
        let Some(one) = found.next() else {
            unreachable!()
        };
        let store = make_at(stores, folder, set, ServerId::at(number), one, writer)?;
        add(&mut made, store)?;
    }
    Ok(made)
}
