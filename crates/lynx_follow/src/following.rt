//! A store that follows a server.
ghost use Rattle.std.specs.Prelude.{◌≡◌, ◌↔◌, ◌++◌, ◌≤◌, [], All, IfNone, IfOk, IfSome, IsErrOf, IsTrue, OnOk, length, take};
ghost use Rattle.lynx_codec.specs.Entries.{IsEntryInRange};
ghost use Rattle.lynx_entry.specs.Entry.{History};
ghost use Rattle.lynx_keep.specs.Kept.{HasRisen};
ghost use Rattle.lynx_rules.specs.Tables.{tables_of};
ghost use Rattle.lynx_server.specs.Keeping.{kept_of};
ghost use Rattle.lynx_follow.specs.Following.{Follows, FollowsOn, Opens};
ghost use Rattle.lynx_follow.specs.inner.Reading.{ReadsBack};

use crate::redoing::redo_all;
use lynx_cells::{Cells, Changes};
use lynx_entry::Entry;
use lynx_keep::{BatchKeeper, KeepFault, Keeper};
use lynx_names::Memory;
use lynx_server::{OpenFault, same_cells};
use lynx_set::ChainSet;
use std::alloc::Global;
use std::collections::VecDeque;

/// A store that follows a server, and the cells that its entries leave. It doesn't hold the
/// entries.
#[derive(Drop)]
pub struct Follower<K> {
    pub(crate) keeper: K,
    pub(crate) cells: Cells,
    /// How many entries it keeps.
    pub(crate) count: u64,
}

/// A store that was opened to follow a server, and those of its entries that nobody compared yet
/// with what the server did. It follows once none is left: [`Opened::compare`], then
/// [`Opened::into_follower`].
#[derive(Drop)]
pub struct Opened<K> {
    pub(crate) follower: Follower<K>,
    pub(crate) rest: VecDeque<Entry>,
}

/// A store that couldn't follow on: why, and its keeper, which tells the cause and may be closed.
#[derive(Drop)]
pub struct Unfollowed<K> {
    pub fault: KeepFault,
    pub keeper: K,
}

/// The cells that entries leave.
fn cells_of(alloc: Global, set: &ChainSet, entries: &[Entry]) -> Result<Cells, Memory>
    ensures { IfOk result (λ cells. cells.database ≡ tables_of set.now entries.now) }
{
    let mut cells = Cells::new(alloc);
    let mut changes = Changes::new(alloc);
    redo_all(alloc, set, entries, &mut cells, &mut changes)?;
    Ok(cells)
}

/// What a keeper keeps: entries, and the cells that they leave.
#[derive(Drop)]
pub(crate) struct ReadBack {
    entries: Vec<Entry>,
    cells: Cells,
}

/// Reads what the keeper keeps, and looks whether its cells are those of its entries.
fn read_back<K: Keeper>(
    alloc: Global,
    set: &ChainSet,
    keeper: &mut K,
) -> Result<ReadBack, OpenFault>
    ensures { ReadsBack K.terms set.now keeper.old keeper.new result }
{
    let loaded = keeper.load(alloc)?;
    let entries = loaded.entries.as_slice();
    let cells = cells_of(alloc, set, entries)?;
    if !same_cells(alloc, &cells, &loaded.cells)? {
        return Err(OpenFault::Damaged {
            place: entries.len() as u64,
        });
    }
    Ok(ReadBack {
        entries: loaded.entries,
        cells,
    })
}

impl<K: BatchKeeper> Follower<K> {
    /// A store that is to go on with what its keeper keeps. Damaged, at the count of its entries,
    /// where its cells aren't those that they leave. The entries are read and gone over once, and
    /// each takes the work of its hop; whether they are lawful isn't looked at.
    pub fn open(alloc: Global, set: &ChainSet, mut keeper: K) -> Result<Opened<K>, OpenFault>
    where
        K: Drop,
        ensures { Opens K.terms set.now keeper result }
    {
        let read = read_back(alloc, set, &mut keeper)?;
        let follower = Follower {
            keeper,
            cells: read.cells,
            count: read.entries.len() as u64,
        };
        Ok(Opened {
            follower,
            rest: VecDeque::from_vec(read.entries),
        })
    }

    /// Keeps what the server did next, all of these entries or none, in one transaction. A stop at
    /// any moment leaves what was kept, or that with all of them. Where that fails nothing follows
    /// on: the store is to be opened again, since its cells here may be more than what is kept.
    pub fn follow(
        mut self,
        alloc: Global,
        set: &ChainSet,
        entries: &[Entry],
    ) -> Result<Follower<K>, Unfollowed<K>>
        requires range { All IsEntryInRange entries.now }
        ensures { FollowsOn K.terms set.now self entries.now result }
    {
        match self.keep(alloc, set, entries) {
            Ok(()) => Ok(self),
            Err(fault) => Err(Unfollowed {
                fault,
                keeper: self.keeper,
            }),
        }
    }

    /// Keeps these entries, and has their cells.
    fn keep(&mut self, alloc: Global, set: &ChainSet, entries: &[Entry]) -> Result<(), KeepFault>
        requires range { All IsEntryInRange entries.now }
        ensures ok { OnOk result ((front : History) → Follows K.terms set.now front self.old
            → Follows K.terms set.now (front ++ entries.now) self.new) }
        ensures sound { K.terms.sound self.new.keeper → K.terms.sound self.old.keeper }
        ensures stop { K.terms.sound self.new.keeper → (front : History)
            → Follows K.terms set.now front self.old
            → K.terms.leaves self.new.keeper (kept_of set.now front)
            (kept_of set.now (front ++ entries.now)) }
        ensures failed { IsErrOf result KeepFault.Failed
            → HasRisen (K.terms.counted self.old.keeper) (K.terms.counted self.new.keeper) }
    {
        let Some(count) = self.count.checked_add(entries.len() as u64) else {
            return Err(KeepFault::Memory);
        };
        let mut changes = Changes::new(alloc);
        redo_all(alloc, set, entries, &mut self.cells, &mut changes)?;
        self.keeper.commit_all(alloc, entries, &changes)?;
        self.count = count;
        Ok(())
    }

    /// How many entries it keeps.
    pub fn count(&self) -> u64
        ensures { result ≡ self.now.count }
    {
        self.count
    }

    /// Gives back the keeper.
    pub fn into_keeper(self) -> K
        ensures { result ≡ self.keeper }
    {
        self.keeper
    }
}

/// Whether these are the same entry.
fn is_same(entry: &Entry, other: &Entry) -> bool
    ensures { IsTrue result ↔ entry.now ≡ other.now }
{
    entry == other
}

impl<K> Opened<K> {
    /// How many of its entries nobody compared yet.
    pub fn left(&self) -> usize
        ensures { result ≡ length self.now.rest.items }
    {
        self.rest.len()
    }

    /// Compares the entries that are left with those that the server did from there on, as far as
    /// these go. The same store, in which those that are the same are left no longer; None where
    /// one differs, so that a store of another history never follows.
    pub fn compare(mut self, did: &[Entry]) -> Option<Opened<K>>
    where
        K: Drop,
        ensures same { IfSome result (λ same. self.rest.items
            ≡ take (length self.rest.items) did.now ++ same.rest.items) }
        ensures other { IfNone result ((rest : History) → self.rest.items
            ≡ take (length self.rest.items) did.now ++ rest → ⊥) }
        ensures follower { IfSome result (λ same. same.follower ≡ self.follower) }
    {
        for entry in did {
            let Some(kept) = self.rest.pop_front() else {
                return Some(self);
            };
            if !is_same(&kept, entry) {
                return None;
            }
        }
        Some(self)
    }

    /// The store that follows, where no entry is left that nobody compared.
    pub fn into_follower(self) -> Option<Follower<K>>
    where
        K: Drop,
        ensures some { IfSome result (λ follower. (follower ≡ self.follower)
            × (self.rest.items ≡ [])) }
        ensures none { IfNone result (1 ≤ length self.rest.items) }
    {
        if self.rest.is_empty() {
            Some(self.follower)
        } else {
            None
        }
    }
}
