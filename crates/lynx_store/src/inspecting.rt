//! What a store holds, whatever server and set it is of.
ghost use Rattle.std.specs.Prelude.{◌≡◌, ◌≢◌, ◌↔◌, ◌<◌, ◌≤◌, ◌^◌, ℕ, length, All, Some, IfErr, IfNone, IfOk, IfSome, IsErrOf, IsTrue};
ghost use Rattle.lynx_names.specs.declared.limits.TheConstants.{MAX_SERVERS};
ghost use Rattle.lynx_set.specs.Rules.{IsSet};
ghost use Rattle.lynx_set.specs.Set.{Set};
ghost use Rattle.lynx_sql.specs.Contents.{Title};
ghost use Rattle.sqlite_trees.specs.View.{doubt};
ghost use Rattle.std.specs.Fmt.{decimal};
ghost use Rattle.sqlite.specs.Held.{state};
ghost use Rattle.lynx_keep.specs.Kept.{KeptState, kept_in};
ghost use Rattle.lynx_set.specs.Text.{text_of};
ghost use Rattle.lynx_store.specs.Heading.{owner_in};
ghost use Rattle.lynx_store.specs.Premise.{IsUndisturbed};
ghost use Rattle.lynx_store.specs.Stored.{HasTitle, HoldsNothing, IsKept, IsOfNoVersion, IsOther, IsServerOf, KeepsNothingForAny, LeavesNoMore, Owner, StaysKept, ShowsTitle, Tells, owner_for, title_for, version_text};

use crate::fault::StoreFault;
use crate::heading::{Heading, texts_of, version_for, version_text};
use crate::keeper::loaded_of;
use lynx_keep::{KeepFault, Loaded};
use lynx_lex::number::number;
use lynx_names::{ServerId, TableId};
use lynx_set::ChainSet;
use lynx_sql::schema::is_store;
use lynx_sql::{Rising, StoreVersion, StoredRows, read_rows};
use lynx_text::{FaultKind, parse};
use sqlite::{Connection, Row};
use std::alloc::Global;

/// What a store holds.
#[derive(Debug, Drop)]
pub struct Inspected {
    pub set: ChainSet,
    pub server: ServerId,
    pub loaded: Loaded,
}

/// The version whose text this is.
#[tactic(auto, using(crate::proofs::Kept::neither_version))]
fn version_in(text: &[u8]) -> Option<StoreVersion>
    ensures some { IfSome result (λ version. text.now ≡ version_text version) }
    ensures none { IfNone result ((version : StoreVersion) → text.now ≢ version_text version) }
{
    if text == version_text(StoreVersion::One) {
        return Some(StoreVersion::One);
    }
    if text == version_text(StoreVersion::Two) {
        return Some(StoreVersion::Two);
    }
    None
}

/// The heading that the rows of `meta` tell. Damaged where they are no three texts, OtherVersion
/// where the first is that of no version.
pub(crate) fn heading_in(alloc: Global, rows: &[Row]) -> Result<Heading, StoreFault>
    ensures ok { IfOk result
        (λ heading. ShowsTitle rows.now (title_for (owner_in heading))) }
    ensures damaged { IsErrOf result StoreFault.Damaged → (title : Title)
        → ShowsTitle rows.now title → ⊥ }
    ensures other { IsErrOf result StoreFault.OtherVersion → IsOfNoVersion (ShowsTitle rows.now) }
    ensures never { IfErr result (λ fault. fault ≢ StoreFault.OtherSet) }
{
    let Some((version, server, set)) = texts_of(rows) else {
        return Err(StoreFault::Damaged);
    };
    let Some(version) = version_in(version) else {
        return Err(StoreFault::OtherVersion);
    };
    Ok(Heading::copied(alloc, version, server, set)?)
}

/// The server that a text is the number of, None where it is that of none.
fn server_in(text: &[u8]) -> Option<ServerId>
    ensures some { IfSome result (λ server. text.now ≡ decimal server) }
    ensures only { (server : ℕ) → server < MAX_SERVERS → text.now ≡ decimal server
        → result ≡ Some server }
{
    let number = number(text)?;
    ServerId::new(u8::try_from(number).ok()?)
}

/// The set that a text spells.
fn set_in(alloc: Global, text: &[u8]) -> Result<ChainSet, StoreFault>
    ensures ok { IfOk result (λ set. IsSet set × (text.now ≡ text_of set)) }
    ensures damaged { IsErrOf result StoreFault.Damaged → (set : Set) → IsSet set
        → text.now ≢ text_of set }
    ensures never { IfErr result (λ fault. ¬ IsOther fault) }
{
    match parse(alloc, text) {
        Ok(set) => Ok(set),
        Err(fault) if fault.kind == FaultKind::Memory => Err(StoreFault::Memory),
        Err(_) => Err(StoreFault::Damaged),
    }
}

/// The set and the server of a heading, which is one of the set's, as its version is.
#[tactic(auto, using(crate::proofs::Kept::same_owner))]
pub(crate) fn owner_of(alloc: Global, heading: &Heading) -> Result<(ChainSet, ServerId), StoreFault>
    ensures ok { IfOk result (λ owner. owner_in heading.now ≡ owner_for owner.1 owner.0) }
    ensures set { IfOk result (λ owner. IsServerOf owner.1 owner.0) }
    ensures damaged { IsErrOf result StoreFault.Damaged → (server : ℕ) (chains : Set)
        → IsServerOf server chains → owner_in heading.now ≢ owner_for server chains }
    ensures never { IfErr result (λ fault. ¬ IsOther fault) }
{
    let set = set_in(alloc, heading.set.as_slice())?;
    if version_for(set.version()) != heading.version {
        return Err(StoreFault::Damaged);
    }
    match server_in(heading.server.as_slice()) {
        Some(server) if set.has_server(server) => Ok((set, server)),
        _ => Err(StoreFault::Damaged),
    }
}

/// What the rows of a store tell, whatever server and set they are of.
fn told_by(alloc: Global, rows: &StoredRows) -> Result<Inspected, StoreFault>
    ensures ok { IfOk result
        (λ held. Tells rows.now (owner_for held.server held.set) (kept_in held.loaded)) }
    ensures set { IfOk result (λ held. IsServerOf held.server held.set) }
    ensures other { IsErrOf result StoreFault.OtherVersion
        → IsOfNoVersion (ShowsTitle rows.now.title.items) }
    ensures damaged { IsErrOf result StoreFault.Damaged → (server : ℕ) (chains : Set)
        (kept : KeptState) → IsServerOf server chains → length kept.entries < 2 ^ 32
        → Tells rows.now (owner_for server chains) kept → ⊥ }
    ensures never { IfErr result (λ fault. fault ≢ StoreFault.OtherSet) }
{
    let heading = heading_in(alloc, rows.title.as_slice())?;
    let (set, server) = owner_of(alloc, &heading)?;
    match loaded_of(alloc, &heading, rows) {
        Ok(loaded) => Ok(Inspected {
            set,
            server,
            loaded,
        }),
        Err(KeepFault::Memory) => Err(StoreFault::Memory),
        Err(KeepFault::Failed) => Err(StoreFault::Damaged),
    }
}

/// Whether each cell is of a table that the set has.
pub fn are_in_tables(set: &ChainSet, cells: &[(TableId, u64, u64)]) -> bool
    ensures { IsTrue result ↔ All (λ cell. cell.0 < length set.now.tables) cells.now }
{
    let count = set.tables().len();
    cells.iter().all(|cell| cell.0.index() < count)
}

/// What a store holds, and of which server and set it is. Nothing is written. Takes the memory of
/// all of it.
pub fn inspect<S: Rising>(alloc: Global, conn: &mut Connection<S>) -> Result<Inspected, StoreFault>
    ensures clean { doubt (state S.Store conn.old).is_clean
        ≤ doubt (state S.Store conn.new).is_clean }
    // What is told is kept.
    ensures ok { IsUndisturbed (state S.Store conn.new) → IfOk result (λ held.
        IsKept (state S.Store conn.new) (owner_for held.server held.set)
        (length held.loaded.entries.items) (kept_in held.loaded)) }
    // What was kept is told.
    ensures all { IsUndisturbed (state S.Store conn.new)
        → IfOk result (λ held. (owner : Owner) (count : ℕ) (kept : KeptState)
        → IsKept (state S.Store conn.old) owner count kept
        → (owner ≡ owner_for held.server held.set) × (kept ≡ kept_in held.loaded)) }
    // It stays kept, whatever fault there is but one of the database.
    ensures same { IsUndisturbed (state S.Store conn.new)
        → IfErr result (λ fault. fault ≢ StoreFault.Store
        → StaysKept (state S.Store conn.old) (state S.Store conn.new)) }
    // The server is one of the set's.
    ensures set { IfOk result (λ held. IsServerOf held.server held.set) }
    // A store is called damaged only where nothing is kept for any server of any set, and of
    // another version only where its `meta` says so; it is of no other set.
    ensures damaged { IsUndisturbed (state S.Store conn.new) → IsErrOf result StoreFault.Damaged
        → KeepsNothingForAny (state S.Store conn.old) }
    ensures other_version { IsUndisturbed (state S.Store conn.new)
        → IsErrOf result StoreFault.OtherVersion
        → IsOfNoVersion (HasTitle (state S.Store conn.old)) }
    ensures never { IfErr result (λ fault. fault ≢ StoreFault.OtherSet) }
    // A store of either version is called of no other.
    ensures other { IsUndisturbed (state S.Store conn.new)
        → IfErr result (λ fault. fault ≡ StoreFault.OtherVersion
        → HoldsNothing (state S.Store conn.old)) }
    ensures stop { IsUndisturbed (state S.Store conn.new)
        → LeavesNoMore (state S.Store conn.old) (state S.Store conn.new) }
{
    if !is_store(conn.schema()) {
        return Err(StoreFault::Damaged);
    }
    match read_rows(conn) {
        Ok(rows) => told_by(alloc, &rows),
        Err(_) => Err(StoreFault::Store),
    }
}
