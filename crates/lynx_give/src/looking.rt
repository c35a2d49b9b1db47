//! What stands in a folder of the stores of a set's servers.
ghost use Rattle.std.specs.Prelude.{◌≡◌, ◌∷◌, ◌++◌, [], None, ℕ, List, IfOk, OnOk};
ghost use Rattle.sqlite.specs.Held.{state};
ghost use Rattle.lynx_extend.specs.Places.{first_lost};
ghost use Rattle.lynx_extend.specs.declared.places.Place.{Place};
ghost use Rattle.lynx_give.specs.Given.{AreFound, IsFound, TellsPlace};
ghost use Rattle.lynx_store.specs.Extensions.{IsExtendable};
ghost use Rattle.lynx_store.specs.Premise.{IsUndisturbed};

use crate::fault::GiveFault;
use lynx_extend::{Place, first_lost};
use lynx_names::{Memory, ServerId};
use lynx_set::ChainSet;
use lynx_sql::Rising;
use lynx_store::{StoreFault, check_extend};
use lynx_store_files::Databases;
use sqlite::Connection;
use std::alloc::Global;

/// What stands in the place of a server's store, and its database where there is one.
#[derive(Drop)]
struct Found<C> {
    place: Place,
    database: Option<C>,
}

/// Reads a store: whether the set can have it, and of which set it is.
fn place_of<D: Rising>(
    alloc: Global,
    conn: &mut Connection<D>,
    server: ServerId,
    set: &ChainSet,
) -> Result<Place, StoreFault>
    ensures extendable { IsUndisturbed (state D.Store conn.new) → IfOk result (λ _. (count : ℕ)
        × IsExtendable (state D.Store conn.old) (state D.Store conn.new) server set.now count) }
    ensures tells { IsUndisturbed (state D.Store conn.new)
        → IfOk result (TellsPlace (state D.Store conn.old) set.now) }
{
    let found = check_extend(alloc, conn, server, set)?;
    if found.was_same {
        return Ok(Place::New);
    }
    Ok(Place::Old {
        servers: found.servers,
    })
}

/// Opens the store of a server where there is one, and reads it.
fn look_at<D: Rising + Drop, S: Databases<Connection<D>>>(
    alloc: Global,
    stores: &S,
    folder: &str,
    server: ServerId,
    set: &ChainSet,
) -> Result<Found<Connection<D>>, GiveFault>
    ensures { IfOk result (λ found. IsFound (λ conn. state D.Store conn) (S.opened_at folder.now)
        set.now server found.database found.place) }
{
    let opened = match stores.open_database(folder, server) {
        Ok(opened) => opened,
        Err(fault) => return Err(GiveFault::of_store(server, fault)),
    };
    let Some(mut conn) = opened else {
        return Ok(Found {
            place: Place::Empty,
            database: None,
        });
    };
    match place_of(alloc, &mut conn, server, set) {
        Ok(place) => Ok(Found {
            place,
            database: Some(conn),
        }),
        Err(fault) => Err(GiveFault::of_store(server, fault)),
    }
}

/// What stands in the place of one server more.
fn add<C: Drop>(
    found: &mut Vec<Option<C>>,
    places: &mut Vec<Place>,
    one: Found<C>,
) -> Result<(), Memory>
    ensures found { OnOk result (found.new.items ≡ found.old.items ++ one.database ∷ []) }
    ensures places { OnOk result (places.new.items ≡ places.old.items ++ one.place ∷ []) }
{
    let Found { place, database } = one;
    found.push(database)?;
    places.push(place)?;
    Ok(())
}

/// What stands in the place of each server's store. Lost where one that was there isn't.
pub(crate) fn look_at_all<D: Rising + Drop, S: Databases<Connection<D>>>(
    alloc: Global,
    stores: &S,
    folder: &str,
    set: &ChainSet,
) -> Result<Vec<Option<Connection<D>>>, GiveFault>
    ensures { IfOk result (λ found. (places : List Place)
        × AreFound (λ conn. state D.Store conn) (S.opened_at folder.now) set.now found.items places
        × (first_lost places ≡ None)) }
{
    let count = set.servers();
    let mut found = Vec::new(alloc);
    let mut places = Vec::new(alloc);
    for number in 0..count {
        let one = look_at(alloc, stores, folder, ServerId::at(number), set)?;
        add(&mut found, &mut places, one)?;
    }
    let Some(place) = first_lost(places.as_slice()) else {
        return Ok(found);
    };
    let Some(server) = ServerId::among(count, place as u64) else {
        unreachable!()
    };
    Err(GiveFault::Lost { server })
}
