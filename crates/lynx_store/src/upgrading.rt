//! Stores of version 1 made stores of version 2.
ghost use Rattle.std.specs.Prelude.{◌≡◌, ◌≢◌, ◌⊎◌, ◌<◌, ◌≤◌, ◌^◌, ℕ, length, IfErr, IfOk, IsErrOf, OnOk};
ghost use Rattle.lynx_set.specs.Set.{Set};
ghost use Rattle.sqlite_trees.specs.View.{doubt};
ghost use Rattle.sqlite.specs.Held.{state};
ghost use Rattle.sqlite.specs.Tree.{Trees};
ghost use Rattle.lynx_keep.specs.Kept.{KeptState};
ghost use Rattle.lynx_set.specs.Text.{text_of};
ghost use Rattle.lynx_store.specs.Acts.{AreApart, acts_from};
ghost use Rattle.lynx_store.specs.Premise.{IsUndisturbed};
ghost use Rattle.lynx_store.specs.Stored.{AreInTables, IsKept, Owner};
ghost use Rattle.lynx_store.specs.Upgrades.{CanUpgrade, IsFirst, IsSecond, LeavesUpgraded, Upgrades, second_of};

use crate::acts::{acts_of, are_apart};
use crate::fault::StoreFault;
use crate::heading::version_text;
use crate::inspecting::{Inspected, are_in_tables, inspect};
use lynx_set::{ChainSet, Version, upgrade_set};
use lynx_sql::upgrade::upgrade_tables;
use lynx_sql::{Acted, Rising, StoreVersion};
use lynx_text::print;
use sqlite::Connection;
use std::alloc::Global;

/// What a store is to get: the text of its set at version 2, and the hops that its entries are of.
#[derive(Drop)]
struct Added {
    set: Vec<u8>,
    acts: Vec<Acted>,
}

/// Damaged where a cell of the store is of a table that its set hasn't.
pub(crate) fn check_tables(alloc: Global, held: &Inspected) -> Result<(), StoreFault>
    ensures ok { OnOk result (AreInTables held.now.set held.now.loaded.cells.database) }
    ensures damaged { IsErrOf result StoreFault.Damaged
        → AreInTables held.now.set held.now.loaded.cells.database → ⊥ }
    ensures told { IfErr result
        (λ fault. (fault ≡ StoreFault.Damaged) ⊎ (fault ≡ StoreFault.Memory)) }
{
    let cells = held.loaded.cells.list(alloc)?;
    if !are_in_tables(&held.set, cells.as_slice()) {
        return Err(StoreFault::Damaged);
    }
    Ok(())
}

/// The hops that the entries of the store are of. Damaged where two are of one.
pub(crate) fn apart_acts(alloc: Global, held: &Inspected) -> Result<Vec<Acted>, StoreFault>
    ensures acts { IfOk result
        (λ acts. acts.items ≡ acts_from 0 held.now.loaded.entries.items) }
    ensures apart { IfOk result (λ acts. AreApart acts.items) }
    ensures damaged { IsErrOf result StoreFault.Damaged
        → length held.now.loaded.entries.items < 2 ^ 32
        → AreApart (acts_from 0 held.now.loaded.entries.items) → ⊥ }
    ensures told { IfErr result
        (λ fault. (fault ≡ StoreFault.Damaged) ⊎ (fault ≡ StoreFault.Memory)) }
{
    let Some(acts) = acts_of(alloc, held.loaded.entries.as_slice())? else {
        return Err(StoreFault::Damaged);
    };
    if !are_apart(alloc, acts.as_slice())? {
        return Err(StoreFault::Damaged);
    }
    Ok(acts)
}

/// What a store of version 1 is to get. OtherVersion only where it is one of version 2. Damaged
/// where a cell is of a table that the set hasn't, or a hop is that of two entries.
fn added_to(alloc: Global, held: &Inspected) -> Result<Added, StoreFault>
    ensures first { OnOk result (held.now.set.version ≡ Version.One) }
    ensures set { IfOk result (λ added. added.set.items ≡ text_of (second_of held.now.set)) }
    ensures acts { IfOk result
        (λ added. added.acts.items ≡ acts_from 0 held.now.loaded.entries.items) }
    ensures tables { OnOk result (AreInTables held.now.set held.now.loaded.cells.database) }
    ensures apart { IfOk result (λ added. AreApart added.acts.items) }
    ensures other { IfErr result
        (λ fault. fault ≡ StoreFault.OtherVersion → held.now.set.version ≡ Version.Two) }
    ensures damaged { IsErrOf result StoreFault.Damaged
        → length held.now.loaded.entries.items < 2 ^ 32
        → AreInTables held.now.set held.now.loaded.cells.database
        → AreApart (acts_from 0 held.now.loaded.entries.items) → ⊥ }
{
    match held.set.version() {
        Version::One => {}
        Version::Two => return Err(StoreFault::OtherVersion),
    }
    check_tables(alloc, held)?;
    let acts = apart_acts(alloc, held)?;
    let set = upgrade_set(alloc, &held.set)?;
    Ok(Added {
        set: print(alloc, &set)?,
        acts,
    })
}

/// Whether a store can be upgraded, by reading alone: where it can't, [`upgrade_store`] answers the
/// same fault. Takes the memory of all that the store holds.
pub fn check_upgrade<S: Rising>(alloc: Global, conn: &mut Connection<S>) -> Result<(), StoreFault>
    ensures clean { doubt (state S.Store conn.old).is_clean
        ≤ doubt (state S.Store conn.new).is_clean }
    ensures ok { IsUndisturbed (state S.Store conn.new)
        → OnOk result (IsFirst (state S.Store conn.new)) }
    // A store is called damaged only where no server of any set keeps what can be upgraded, and of
    // another version only where it is of version 2, or of none.
    ensures damaged { IsUndisturbed (state S.Store conn.new) → IsErrOf result StoreFault.Damaged
        → (server : ℕ) (chains : Set) (count : ℕ) (kept : KeptState)
        → CanUpgrade (state S.Store conn.old) server chains count kept → ⊥ }
    ensures other { IsUndisturbed (state S.Store conn.new)
        → IfErr result (λ fault. fault ≡ StoreFault.OtherVersion
        → (owner : Owner) (count : ℕ) (kept : KeptState)
        → IsKept (state S.Store conn.old) owner count kept
        → owner.version ≡ StoreVersion.Two) }
    // A stop leaves what it could leave before.
    ensures stop { IsUndisturbed (state S.Store conn.new) → (db : Trees)
        → (state S.Store conn.new).may_leave db → (state S.Store conn.old).may_leave db }
{
    let held = inspect(alloc, conn)?;
    added_to(alloc, &held)?;
    Ok(())
}

/// Makes a store of version 1 one of version 2, in one transaction: it keeps the same entries and
/// cells, under the text of its set at version 2, and the hops that its entries are of. Gives the
/// count of its entries. No server may have the store open. OtherVersion where it is of version 2
/// already, or of one that isn't known; Damaged, before anything is written, also where a cell is
/// of a table that the set hasn't, or a hop is that of two entries. After Store it is as it was or
/// of version 2, whole; after every other fault as it was. Takes the memory of all that it holds.
pub fn upgrade_store<S: Rising>(
    alloc: Global,
    conn: &mut Connection<S>,
) -> Result<usize, StoreFault>
    ensures clean { doubt (state S.Store conn.old).is_clean
        ≤ doubt (state S.Store conn.new).is_clean }
    // Entries and cells are what they were, of the same server, and of the same set at version 2.
    ensures ok { IsUndisturbed (state S.Store conn.new) → IfOk result (λ count.
        Upgrades (state S.Store conn.old) (state S.Store conn.new) count) }
    // A store of version 2 is there, whatever the database held.
    ensures second { IsUndisturbed (state S.Store conn.new)
        → IfOk result (λ count. IsSecond (state S.Store conn.new) count) }
    // A fault but that of the database leaves what was kept.
    ensures same { IsUndisturbed (state S.Store conn.new)
        → IfErr result (λ fault. fault ≢ StoreFault.Store
        → (owner : Owner) (count : ℕ) (kept : KeptState)
        → IsKept (state S.Store conn.old) owner count kept
        → IsKept (state S.Store conn.new) owner count kept) }
    // A store of version 1 is called of no other.
    ensures other { IsUndisturbed (state S.Store conn.new)
        → IfErr result (λ fault. fault ≡ StoreFault.OtherVersion
        → (owner : Owner) (count : ℕ) (kept : KeptState)
        → IsKept (state S.Store conn.old) owner count kept
        → owner.version ≡ StoreVersion.Two) }
    // A store is called damaged only where no server of any set keeps what can be upgraded.
    ensures damaged { IsUndisturbed (state S.Store conn.new) → IsErrOf result StoreFault.Damaged
        → (server : ℕ) (chains : Set) (count : ℕ) (kept : KeptState)
        → CanUpgrade (state S.Store conn.old) server chains count kept → ⊥ }
    // A stop leaves the store as it was, or the whole store of version 2.
    ensures stop { IsUndisturbed (state S.Store conn.new)
        → LeavesUpgraded (state S.Store conn.old) (state S.Store conn.new) }
{
    let held = inspect(alloc, conn)?;
    let added = added_to(alloc, &held)?;
    let version = version_text(StoreVersion::Two);
    match upgrade_tables(conn, version, added.set.as_slice(), added.acts.as_slice()) {
        Ok(()) => Ok(held.loaded.entries.len()),
        Err(_) => Err(StoreFault::Store),
    }
}
