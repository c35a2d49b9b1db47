//! What is left of a store whose rows may be damaged.
ghost use Rattle.std.specs.Prelude.{◌≡◌, ◌≢◌, ◌<◌, ◌≤◌, ◌^◌, ℕ, length, Err, IfErr, IfOk, IsErrOf};
ghost use Rattle.std.specs.List.{AllByRecursion};
ghost use Rattle.lynx_keep.specs.Stored.{HasEncoding};
ghost use Rattle.lynx_set.specs.Set.{Set};
ghost use Rattle.sqlite_trees.specs.View.{doubt};
ghost use Rattle.sqlite.specs.Held.{state};
ghost use Rattle.lynx_keep.specs.Kept.{KeptState};
ghost use Rattle.lynx_sql.specs.Tables.{IsStoreSchema};
ghost use Rattle.lynx_store.specs.Premise.{IsUndisturbed};
ghost use Rattle.lynx_store.specs.Salvages.{IsLongestShown, Salvages};
ghost use Rattle.lynx_store.specs.Stored.{HasTitle, HoldsNothing, IsKept, IsOfNoVersion, IsServerOf, KeepsNothingForAny, LeavesNoMore, Owner, StaysKept, ShowsTitle, owner_for, title_for};

use crate::fault::StoreFault;
use crate::inspecting::{heading_in, owner_of};
use crate::loading::entry_at;
use lynx_entry::Entry;
use lynx_names::{Memory, ServerId};
use lynx_set::ChainSet;
use lynx_sql::schema::is_store;
use lynx_sql::{Rising, StoredRows, read_rows};
use sqlite::{Connection, Row};
use std::alloc::Global;

/// The first entries of a store.
#[derive(Debug, Drop)]
pub struct Salvaged {
    pub set: ChainSet,
    pub server: ServerId,
    pub entries: Vec<Entry>,
}

/// The entries of the first rows, up to one that isn't that of an entry at its place; fewer than
/// 2^32.
fn first_entries(alloc: Global, rows: &[Row]) -> Result<Vec<Entry>, Memory>
    ensures { IfOk result (λ entries. IsLongestShown rows.now entries.items) }
{
    let mut entries = Vec::new(alloc);
    let mut place = 0u32;
    for row in rows {
        let Some(entry) = entry_at(alloc, row, place)? else {
            return Ok(entries);
        };
        if place == u32::MAX {
            return Ok(entries);
        }
        entries.push(entry)?;
        place += 1;
    }
    Ok(entries)
}

/// What the rows of a store tell of its first entries, whatever server and set they are of.
fn salvaged_from(alloc: Global, rows: &StoredRows) -> Result<Salvaged, StoreFault>
    ensures ok { IfOk result (λ held.
        Salvages rows.now (owner_for held.server held.set) held.entries.items) }
    ensures set { IfOk result (λ held. IsServerOf held.server held.set) }
    ensures other { IsErrOf result StoreFault.OtherVersion
        → IsOfNoVersion (ShowsTitle rows.now.title.items) }
    ensures damaged { IsErrOf result StoreFault.Damaged → (server : ℕ) (chains : Set)
        → IsServerOf server chains
        → ShowsTitle rows.now.title.items (title_for (owner_for server chains)) → ⊥ }
    ensures never { IfErr result (λ fault. fault ≢ StoreFault.OtherSet) }
{
    let heading = heading_in(alloc, rows.title.as_slice())?;
    let (set, server) = owner_of(alloc, &heading)?;
    let entries = first_entries(alloc, rows.entries.as_slice())?;
    Ok(Salvaged {
        set,
        server,
        entries,
    })
}

/// The first entries of a store, up to a row that isn't that of an entry at its place, whatever
/// stands behind them and in its other tables; of a store that is whole these are all of its
/// entries. They need not be lawful. The texts in `meta` have to be whole, and the file has to be
/// one that can be read. Nothing is written. Takes the memory of all of it.
pub fn salvage<S: Rising>(alloc: Global, conn: &mut Connection<S>) -> Result<Salvaged, StoreFault>
    ensures clean { doubt (state S.Store conn.old).is_clean
        ≤ doubt (state S.Store conn.new).is_clean }
    // The database has the tables of a store, and nothing else.
    ensures tables { IfOk result (λ held. IsStoreSchema (state S.Store conn.old).now.schema) }
    // Of what was kept each entry is told.
    ensures all { IsUndisturbed (state S.Store conn.new)
        → IfOk result (λ held. (owner : Owner) (count : ℕ) (kept : KeptState) → count < 2 ^ 32
        → IsKept (state S.Store conn.old) owner count kept
        → (owner ≡ owner_for held.server held.set) × (kept.entries ≡ held.entries.items)) }
    // Each has its encoding, and there are no more than a store has places for.
    ensures formed { IfOk result (λ held. AllByRecursion HasEncoding held.entries.items) }
    ensures few { IfOk result (λ held. length held.entries.items < 2 ^ 32) }
    // It stays kept, whatever comes out but a fault of the database.
    ensures same { IsUndisturbed (state S.Store conn.new) → result ≢ Err StoreFault.Store
        → StaysKept (state S.Store conn.old) (state S.Store conn.new) }
    // The server is one of the set's.
    ensures set { IfOk result (λ held. IsServerOf held.server held.set) }
    // A store is called damaged only where nothing is kept for any server of any set, and of
    // another version only where its `meta` says so; it is of no other set.
    ensures damaged { IsUndisturbed (state S.Store conn.new) → IsErrOf result StoreFault.Damaged
        → KeepsNothingForAny (state S.Store conn.old) }
    ensures other_version { IsUndisturbed (state S.Store conn.new)
        → IsErrOf result StoreFault.OtherVersion
        → IsOfNoVersion (HasTitle (state S.Store conn.old)) }
    ensures never { IfErr result (λ fault. fault ≢ StoreFault.OtherSet) }
    // A store of either version is called of no other.
    ensures other { IsUndisturbed (state S.Store conn.new)
        → IfErr result (λ fault. fault ≡ StoreFault.OtherVersion
        → HoldsNothing (state S.Store conn.old)) }
    ensures stop { IsUndisturbed (state S.Store conn.new)
        → LeavesNoMore (state S.Store conn.old) (state S.Store conn.new) }
{
    if !is_store(conn.schema()) {
        return Err(StoreFault::Damaged);
    }
    match read_rows(conn) {
        Ok(rows) => salvaged_from(alloc, &rows),
        Err(_) => Err(StoreFault::Store),
    }
}
