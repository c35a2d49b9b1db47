//! Stores given to a set that extends theirs.
ghost use Rattle.std.specs.Prelude.{◌≡◌, ◌≢◌, ◌⊎◌, ◌↔◌, ◌<◌, ◌≤◌, ◌^◌, ℕ, length, IfErr, IfOk, IsErrOf, IsTrue, OnOk};
ghost use Rattle.sqlite_trees.specs.View.{doubt};
ghost use Rattle.sqlite.specs.Held.{state};
ghost use Rattle.sqlite.specs.Tree.{Trees};
ghost use Rattle.lynx_keep.specs.Kept.{KeptState, kept_in};
ghost use Rattle.lynx_set.specs.Text.{text_of};
ghost use Rattle.lynx_extend.specs.Extends.{Extends, StaysOrRises};
ghost use Rattle.lynx_sql.specs.Contents.{Contents};
ghost use Rattle.lynx_sql.specs.Steps.{Holds, Keeps};
ghost use Rattle.lynx_store.specs.Acts.{AreApart, acts_from};
ghost use Rattle.lynx_store.specs.Extensions.{AreActsFor, CanGet, ExtendsStore, IsExtendable, IsForeign, IsOfLaterVersion, IsOfSet, KeepsNoSuch, LeavesExtended, MayExtend, Rises, TellsOld, given};
ghost use Rattle.lynx_store.specs.Premise.{IsUndisturbed};
ghost use Rattle.lynx_store.specs.Stored.{IsKept, Owner};

use crate::fault::StoreFault;
use crate::heading::version_text;
use crate::inspecting::{Inspected, inspect};
use crate::upgrading::{apart_acts, check_tables};
use lynx_extend::{ExtendFault, extend_fault};
use lynx_names::ServerId;
use lynx_set::{ChainSet, Version};
use lynx_sql::upgrade::{retitle_tables, upgrade_tables};
use lynx_sql::{Acted, Rising, StoreVersion};
use lynx_text::print;
use sqlite::Connection;
use std::alloc::Global;

/// A store that is of the set now.
#[derive(Clone, Copy, Debug, PartialEq, Eq)]
pub struct Extended {
    /// How many entries it keeps.
    pub entries: usize,
    /// How many servers the set has that it was of before.
    pub servers: u8,
    /// Whether it was of this very set before, so that nothing was written.
    pub was_same: bool,
}

/// What a store is to get: the text of the set, and where its version rises the hops that its
/// entries are of.
#[derive(Drop)]
struct Gift {
    set: Vec<u8>,
    acts: Option<Vec<Acted>>,
}

/// Whether the store is that of the server, and the set extends that of the store.
fn check_set(held: &Inspected, server: ServerId, set: &ChainSet) -> Result<(), StoreFault>
    ensures server { OnOk result (held.now.server ≡ server) }
    ensures ok { OnOk result (Extends held.now.set set.now) }
    ensures version { IsErrOf result StoreFault.OtherVersion
        → StaysOrRises held.now.set.version set.now.version → ⊥ }
    ensures other { IsErrOf result StoreFault.OtherSet → (held.now.server ≢ server)
        ⊎ (StaysOrRises held.now.set.version set.now.version
        × (Extends held.now.set set.now → ⊥)) }
    ensures told { IfErr result
        (λ fault. (fault ≡ StoreFault.OtherVersion) ⊎ (fault ≡ StoreFault.OtherSet)) }
{
    if held.server != server {
        return Err(StoreFault::OtherSet);
    }
    match extend_fault(&held.set, set) {
        None => Ok(()),
        Some(ExtendFault::Version) => Err(StoreFault::OtherVersion),
        Some(_) => Err(StoreFault::OtherSet),
    }
}

/// The hops that a store is to get, None where its version stays.
fn gift_acts(
    alloc: Global,
    held: &Inspected,
    set: &ChainSet,
) -> Result<Option<Vec<Acted>>, StoreFault>
    requires { StaysOrRises held.now.set.version set.now.version }
    ensures acts { IfOk result (AreActsFor held.now.set.version set.now.version
        held.now.loaded.entries.items) }
    ensures apart { OnOk result (Rises held.now.set.version set.now.version
        → AreApart (acts_from 0 held.now.loaded.entries.items)) }
    ensures damaged { IsErrOf result StoreFault.Damaged
        → length held.now.loaded.entries.items < 2 ^ 32
        → Rises held.now.set.version set.now.version
        × (AreApart (acts_from 0 held.now.loaded.entries.items) → ⊥) }
    ensures told { IfErr result
        (λ fault. (fault ≡ StoreFault.Damaged) ⊎ (fault ≡ StoreFault.Memory)) }
{
    match (held.set.version(), set.version()) {
        (Version::One, Version::Two) => Ok(Some(apart_acts(alloc, held)?)),
        _ => Ok(None),
    }
}

/// What the store of a server is to get of the set. OtherSet where it is another server's,
/// OtherVersion where the set's version is an earlier one, OtherSet where the set doesn't extend
/// the store's for another reason, Damaged where a cell is of a table that the store's set hasn't,
/// or where the version rises a hop is that of two entries.
fn gift_of(
    alloc: Global,
    held: &Inspected,
    server: ServerId,
    set: &ChainSet,
) -> Result<Gift, StoreFault>
    ensures server { OnOk result (held.now.server ≡ server) }
    ensures set { IfOk result (λ gift. gift.set.items ≡ text_of set.now) }
    ensures acts { IfOk result (λ gift. AreActsFor held.now.set.version set.now.version
        held.now.loaded.entries.items gift.acts) }
    ensures may { OnOk result (MayExtend held.now.set set.now (kept_in held.now.loaded)) }
    ensures version { IsErrOf result StoreFault.OtherVersion
        → StaysOrRises held.now.set.version set.now.version → ⊥ }
    ensures other { IsErrOf result StoreFault.OtherSet → (held.now.server ≢ server)
        ⊎ (StaysOrRises held.now.set.version set.now.version
        × (Extends held.now.set set.now → ⊥)) }
    ensures damaged { IsErrOf result StoreFault.Damaged
        → length held.now.loaded.entries.items < 2 ^ 32
        → MayExtend held.now.set set.now (kept_in held.now.loaded) → ⊥ }
{
    check_set(held, server, set)?;
    check_tables(alloc, held)?;
    let acts = gift_acts(alloc, held, set)?;
    Ok(Gift {
        set: print(alloc, set)?,
        acts,
    })
}

/// Writes what a store is to get, in one transaction.
fn give<S: Rising>(conn: &mut Connection<S>, gift: &Gift) -> Result<(), StoreFault>
    ensures clean { doubt (state S.Store conn.old).is_clean
        ≤ doubt (state S.Store conn.new).is_clean }
    ensures ok { IsUndisturbed (state S.Store conn.new) → OnOk result ((before : Contents)
        → Keeps (state S.Store conn.old) before → CanGet before gift.now.acts
        → Keeps (state S.Store conn.new) (given before gift.now.set.items gift.now.acts)) }
    ensures stop { IsUndisturbed (state S.Store conn.new) → (before : Contents)
        → Keeps (state S.Store conn.old) before → CanGet before gift.now.acts
        → (db : Trees) → (state S.Store conn.new).may_leave db
        → (state S.Store conn.old).may_leave db
        ⊎ Holds db (given before gift.now.set.items gift.now.acts) }
    ensures err { IfErr result (λ fault. fault ≡ StoreFault.Store) }
{
    let set = gift.set.as_slice();
    let written = match &gift.acts {
        Some(acts) => upgrade_tables(conn, version_text(StoreVersion::Two), set, acts.as_slice()),
        None => retitle_tables(conn, set),
    };
    match written {
        Ok(()) => Ok(()),
        Err(_) => Err(StoreFault::Store),
    }
}

/// Whether the store of a server can be given to a set, by reading alone: where it can't,
/// [`extend_store`] answers the same fault. It tells how many entries the store keeps, of how many
/// servers its set is, and whether it is of this very set. Takes the memory of all that the store
/// holds.
pub fn check_extend<S: Rising>(
    alloc: Global,
    conn: &mut Connection<S>,
    server: ServerId,
    set: &ChainSet,
) -> Result<Extended, StoreFault>
    ensures clean { doubt (state S.Store conn.old).is_clean
        ≤ doubt (state S.Store conn.new).is_clean }
    ensures ok { IsUndisturbed (state S.Store conn.new) → IfOk result (λ found. IsExtendable
        (state S.Store conn.old) (state S.Store conn.new) server set.now found.entries) }
    ensures told { IsUndisturbed (state S.Store conn.new) → IfOk result (λ found. TellsOld
        (state S.Store conn.old) set.now found) }
    // Each fault comes for its reason alone.
    ensures version { IsUndisturbed (state S.Store conn.new)
        → IsErrOf result StoreFault.OtherVersion
        → IsOfLaterVersion (state S.Store conn.old) set.now }
    ensures other { IsUndisturbed (state S.Store conn.new) → IsErrOf result StoreFault.OtherSet
        → IsForeign (state S.Store conn.old) server set.now }
    ensures damaged { IsUndisturbed (state S.Store conn.new) → IsErrOf result StoreFault.Damaged
        → KeepsNoSuch (state S.Store conn.old) server set.now }
    // A stop leaves what it could leave before.
    ensures stop { IsUndisturbed (state S.Store conn.new) → (db : Trees)
        → (state S.Store conn.new).may_leave db → (state S.Store conn.old).may_leave db }
{
    let found = inspect(alloc, conn)?;
    gift_of(alloc, &found, server, set)?;
    Ok(Extended {
        entries: found.loaded.entries.len(),
        servers: found.set.servers(),
        was_same: found.set.is_same(set),
    })
}

/// Gives the store of a server to a set that extends the store's own, in one transaction: it keeps
/// the same entries and cells under the text of that set, and where the version rises the hops that
/// its entries are of. A store that is of this very set stays as it is. Nobody may have the store
/// open. OtherVersion where its version is a later one than the set's, or one that isn't known;
/// OtherSet where it is another server's, or the set doesn't extend its own for another reason;
/// Damaged, before anything is written, also where a cell is of a table that its set hasn't, or
/// where the version rises a hop is that of two entries. After Store it is as it was or of the new
/// set, whole; after every other fault as it was. Takes the memory of all that it holds.
pub fn extend_store<S: Rising>(
    alloc: Global,
    conn: &mut Connection<S>,
    server: ServerId,
    set: &ChainSet,
) -> Result<Extended, StoreFault>
    ensures clean { doubt (state S.Store conn.old).is_clean
        ≤ doubt (state S.Store conn.new).is_clean }
    // Entries and cells are what they were, of the same server, and of the new set.
    ensures ok { IsUndisturbed (state S.Store conn.new) → IfOk result (λ done. ExtendsStore
        (state S.Store conn.old) (state S.Store conn.new) server set.now done.entries) }
    ensures told { IsUndisturbed (state S.Store conn.new) → IfOk result (λ done. TellsOld
        (state S.Store conn.old) set.now done) }
    // A store of the set is there, whatever the database held.
    ensures of { IsUndisturbed (state S.Store conn.new)
        → IfOk result (λ done. IsOfSet (state S.Store conn.new) server set.now done.entries) }
    // A fault but that of the database leaves what was kept.
    ensures kept { IsUndisturbed (state S.Store conn.new)
        → IfErr result (λ fault. fault ≢ StoreFault.Store
        → (owner : Owner) (count : ℕ) (kept : KeptState)
        → IsKept (state S.Store conn.old) owner count kept
        → IsKept (state S.Store conn.new) owner count kept) }
    // Each fault comes for its reason alone.
    ensures version { IsUndisturbed (state S.Store conn.new)
        → IsErrOf result StoreFault.OtherVersion
        → IsOfLaterVersion (state S.Store conn.old) set.now }
    ensures other { IsUndisturbed (state S.Store conn.new) → IsErrOf result StoreFault.OtherSet
        → IsForeign (state S.Store conn.old) server set.now }
    ensures damaged { IsUndisturbed (state S.Store conn.new) → IsErrOf result StoreFault.Damaged
        → KeepsNoSuch (state S.Store conn.old) server set.now }
    // A stop leaves the store as it was, or the whole store of the new set.
    ensures stop { IsUndisturbed (state S.Store conn.new)
        → LeavesExtended (state S.Store conn.old) (state S.Store conn.new) set.now }
{
    let held = inspect(alloc, conn)?;
    let gift = gift_of(alloc, &held, server, set)?;
    let entries = held.loaded.entries.len();
    let servers = held.set.servers();
    if held.set.is_same(set) {
        return Ok(Extended {
            entries,
            servers,
            was_same: true,
        });
    }
    give(conn, &gift)?;
    Ok(Extended {
        entries,
        servers,
        was_same: false,
    })
}
