//! Stores that were there are given to the set.
ghost use Rattle.std.specs.Prelude.{◌≡◌, ◌∷◌, ◌++◌, [], length, map, List, Option, IfOk, OnOk};
ghost use Rattle.std.specs.Io.KnownBytes.{Appends};
ghost use Rattle.sqlite.specs.Held.{state};
ghost use Rattle.lynx_store.specs.declared.extending.Extended.{Extended};
ghost use Rattle.lynx_store.specs.Extensions.{ExtendsStore, IsOfSet, TellsOld};
ghost use Rattle.lynx_store.specs.Premise.{IsUndisturbed};
ghost use Rattle.lynx_give.specs.Given.{GivesAll, IsGiven, given_text};
ghost use Rattle.lynx_give.specs.Lines.{given_line};

use crate::fault::GiveFault;
use crate::lines::write_given;
use crate::store::{Store, add};
use lynx_names::ServerId;
use lynx_set::ChainSet;
use lynx_sql::Rising;
use lynx_store::{Extended, extend_store};
use sqlite::Connection;
use std::alloc::Global;
use std::io::Write;

/// Gives the store of a server to the set, and tells of it.
fn extend_held<D: Rising + Drop, W: Write>(
    alloc: Global,
    conn: &mut Connection<D>,
    server: ServerId,
    set: &ChainSet,
    writer: &mut W,
) -> Result<Extended, GiveFault>
    ensures given { IsUndisturbed (state D.Store conn.new) → IfOk result (λ done.
        ExtendsStore (state D.Store conn.old) (state D.Store conn.new) server set.now done.entries
        × IsOfSet (state D.Store conn.new) server set.now done.entries
        × TellsOld (state D.Store conn.old) set.now done) }
    ensures told { IfOk result (λ done.
        Appends (W.contents writer.old) (W.contents writer.new) (given_line server done)) }
{
    let done = match extend_store(alloc, conn, server, set) {
        Ok(done) => done,
        Err(fault) => return Err(GiveFault::of_store(server, fault)),
    };
    write_given(server, done, writer)?;
    Ok(done)
}

/// Gives the store of a server to the set, if it was there.
fn extend_at<K: Drop, D: Rising + Drop, W: Write>(
    alloc: Global,
    set: &ChainSet,
    server: ServerId,
    store: Store<K, Connection<D>>,
    writer: &mut W,
) -> Result<Store<K, Connection<D>>, GiveFault>
    ensures { IfOk result (λ given. (done : Option Extended)
        × IsGiven (λ conn. state D.Store conn) set.now server store (given, done)
        × Appends (W.contents writer.old) (W.contents writer.new)
        (given_text server (given, done))) }
{
    match store {
        Store::Made(keeper) => Ok(Store::Made(keeper)),
        Store::Held(mut conn) => {
            extend_held(alloc, &mut conn, server, set, writer)?;
            Ok(Store::Held(conn))
        }
    }
}

/// Gives each store that was there to the set, in order, and tells of it.
pub(crate) fn extend_all<K: Drop, D: Rising + Drop, W: Write>(
    alloc: Global,
    set: &ChainSet,
    stores: Vec<Store<K, Connection<D>>>,
    writer: &mut W,
) -> Result<Vec<Store<K, Connection<D>>>, GiveFault>
    requires { length stores.items ≡ set.now.servers }
    ensures { IfOk result (λ given. GivesAll (λ conn. state D.Store conn) set.now stores.items
        given.items (W.contents writer.old) (W.contents writer.new)) }
{
    let count = set.servers();
    let mut given = Vec::new(alloc);
    let mut stores = stores.into_iter();
    for number in 0..count {
        let Some(store) = stores.next() else {
            unreachable!()
        };
        let one = extend_at(alloc, set, ServerId::at(number), store, writer)?;
        add(&mut given, one)?;
    }
    Ok(given)
}
