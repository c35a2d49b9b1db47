//! A keeper that holds back what it is given, until it is told to settle.
ghost use Rattle.std.specs.Prelude.{◌≡◌, ◌++◌, ◌∷◌, ◌≤◌, [], IfOk, IsErrOf, IsTrue, ◌↔◌, OnErr, OnOk};
ghost use Rattle.std.specs.FinMap as map;
ghost use Rattle.lynx_cells.specs.Database.{Database, applied};
ghost use Rattle.lynx_codec.specs.Entries.{IsEntryInRange};
ghost use Rattle.lynx_keep.specs.HeldBack.{KeepsBehind, counted_both};
ghost use Rattle.lynx_keep.specs.Kept.{HasRisen, KeptState, with_entries};

use crate::batch_keeper::BatchKeeper;
use crate::cause::Cause;
use crate::fault::KeepFault;
use crate::keeper::{Keeper, Loaded};
use crate::merging::merged;
use lynx_cells::Changes;
use lynx_entry::Entry;
use lynx_names::{Memory, TryCopy};
use std::alloc::Global;
use std::marker::Model;

/// A keeper over another that holds back each entry that it is given, and hands all of them on at
/// once when it is told to settle. Meanwhile a stop leaves what was settled: nobody is told of an
/// entry that waits.
#[derive(Drop)]
pub struct HeldBack<K: BatchKeeper> {
    inner: K,
    waiting: Vec<Entry>,
    changes: Changes,
    faults: u64,
}

impl<K: BatchKeeper> Model for HeldBack<K> {
    ghost use Rattle.lynx_keep.specs.HeldBack.{Holding, IsHolding, holding_code};

    ghost Value = { Holding K };

    ghost coded = { holding_code K.code };

    ghost view = { λ keeper. record {
      inner = keeper.inner;
      waiting = keeper.waiting.items;
      changes = keeper.changes;
      faults = keeper.faults;
    } };

    ghost invariant = { λ keeper. IsHolding keeper.waiting.items keeper.changes };
}

impl<K: BatchKeeper> HeldBack<K> {
    /// Nothing waits. Takes no memory.
    pub fn new(alloc: Global, inner: K) -> HeldBack<K>
        ensures inner { result.inner ≡ inner }
        ensures waiting { result.waiting ≡ [] }
        ensures unchanged { result.changes ≡ map.empty }
        ensures faults { result.faults ≡ 0 }
    {
        HeldBack {
            inner,
            waiting: Vec::new(alloc),
            changes: Changes::new(alloc),
            faults: 0,
        }
    }

    /// Whether nothing waits: then all that was committed is settled.
    pub fn is_settled(&self) -> bool
        ensures { IsTrue result ↔ (self.now.waiting ≡ []) }
    {
        self.waiting.is_empty()
    }

    /// One more entry waits. All growth comes first.
    fn hold(&mut self, alloc: Global, entry: &Entry, changes: &Changes) -> Result<(), Memory>
        requires { IsEntryInRange entry.now }
        ensures inner { self.new.inner ≡ self.old.inner }
        ensures faults { self.new.faults ≡ self.old.faults }
        ensures waiting { OnOk result (self.new.waiting ≡ self.old.waiting ++ entry.now ∷ []) }
        ensures changes { OnOk result ((db : Database) → applied self.new.changes db
            ≡ applied changes.now (applied self.old.changes db)) }
        ensures err { OnErr result (self.new ≡ self.old) }
    {
        let entry = entry.copy(alloc)?;
        let changes = merged(alloc, &self.changes, changes)?;
        self.waiting.push(entry)?;
        self.changes = changes;
        Ok(())
    }

    /// Hands on all that waits at once. Want of memory leaves everything as it was; a fault leaves
    /// nothing waiting.
    fn hand_on(&mut self, alloc: Global) -> Result<(), KeepFault>
        ensures sound { K.terms.sound self.new.inner → K.terms.sound self.old.inner }
        ensures ok { K.terms.sound self.new.inner → OnOk result ((kept : KeptState)
            → KeepsBehind K.terms self.old kept → K.terms.keeps self.new.inner kept) }
        ensures empty { OnOk result (self.new.waiting ≡ []) }
        ensures unchanged { OnOk result (self.new.changes ≡ map.empty) }
        ensures memory { K.terms.sound self.new.inner → IsErrOf result KeepFault.Memory
            → (kept : KeptState)
            → KeepsBehind K.terms self.old kept → KeepsBehind K.terms self.new kept }
        ensures stop { K.terms.sound self.new.inner → (base : KeptState)
            → K.terms.keeps self.old.inner base
            → K.terms.leaves self.new.inner base
            (with_entries base self.old.waiting self.old.changes) }
        ensures failed { IsErrOf result KeepFault.Failed
            → HasRisen (K.terms.counted self.old.inner) (K.terms.counted self.new.inner) }
        ensures counts { K.terms.counted self.old.inner ≤ K.terms.counted self.new.inner }
        ensures owner { K.terms.owner self.new.inner ≡ K.terms.owner self.old.inner }
        ensures dropped { IsErrOf result KeepFault.Failed → self.new.waiting ≡ [] }
        ensures dropped_changes { IsErrOf result KeepFault.Failed → self.new.changes ≡ map.empty }
        ensures faults { self.new.faults ≡ self.old.faults }
        ensures untouched { K.terms.sound self.new.inner → IsErrOf result KeepFault.Memory
            → (base : KeptState)
            → K.terms.keeps self.old.inner base → K.terms.keeps self.new.inner base }
        ensures waits { IsErrOf result KeepFault.Memory → self.new.waiting ≡ self.old.waiting }
        ensures changes { IsErrOf result KeepFault.Memory → self.new.changes ≡ self.old.changes }
    {
        if self.is_settled() {
            return Ok(());
        }
        match self
            .inner
            .commit_all(alloc, self.waiting.as_slice(), &self.changes)
        {
            Err(KeepFault::Memory) => Err(KeepFault::Memory),
            done => {
                self.let_go(alloc);
                done
            }
        }
    }

    /// Hands on all that waits, and once more where memory was wanting: what was refused once may
    /// be had again.
    fn hand_on_again(&mut self, alloc: Global) -> Result<(), KeepFault>
        ensures sound { K.terms.sound self.new.inner → K.terms.sound self.old.inner }
        ensures ok { K.terms.sound self.new.inner → OnOk result ((kept : KeptState)
            → KeepsBehind K.terms self.old kept → K.terms.keeps self.new.inner kept) }
        ensures empty { OnOk result (self.new.waiting ≡ []) }
        ensures unchanged { OnOk result (self.new.changes ≡ map.empty) }
        ensures stop { K.terms.sound self.new.inner → (base : KeptState)
            → K.terms.keeps self.old.inner base
            → K.terms.leaves self.new.inner base
            (with_entries base self.old.waiting self.old.changes) }
        ensures failed { IsErrOf result KeepFault.Failed
            → HasRisen (K.terms.counted self.old.inner) (K.terms.counted self.new.inner) }
        ensures counts { K.terms.counted self.old.inner ≤ K.terms.counted self.new.inner }
        ensures owner { K.terms.owner self.new.inner ≡ K.terms.owner self.old.inner }
        ensures dropped { IsErrOf result KeepFault.Failed → self.new.waiting ≡ [] }
        ensures dropped_changes { IsErrOf result KeepFault.Failed → self.new.changes ≡ map.empty }
        ensures faults { self.new.faults ≡ self.old.faults }
    {
        match self.hand_on(alloc) {
            Err(KeepFault::Memory) => self.hand_on(alloc),
            done => done,
        }
    }

    /// Nothing waits any more.
    fn let_go(&mut self, alloc: Global)
        ensures inner { self.new.inner ≡ self.old.inner }
        ensures waiting { self.new.waiting ≡ [] }
        ensures unchanged { self.new.changes ≡ map.empty }
        ensures faults { self.new.faults ≡ self.old.faults }
    {
        self.waiting.clear();
        self.changes = Changes::new(alloc);
    }

    /// Keeps for good all that was committed, in one transaction. From then on a stop leaves all of
    /// it. Where it fails, also where memory is wanting twice, a stop leaves what was settled
    /// before, or that with all that waited; nothing waits then, and nothing more is to be
    /// committed.
    pub fn settle(&mut self, alloc: Global) -> Result<(), KeepFault>
        ensures sound { K.terms.sound self.new.inner → K.terms.sound self.old.inner }
        ensures ok { K.terms.sound self.new.inner → OnOk result ((kept : KeptState)
            → KeepsBehind K.terms self.old kept → K.terms.keeps self.new.inner kept) }
        ensures empty { self.new.waiting ≡ [] }
        ensures unchanged { self.new.changes ≡ map.empty }
        ensures stop { K.terms.sound self.new.inner → (base : KeptState)
            → K.terms.keeps self.old.inner base
            → K.terms.leaves self.new.inner base
            (with_entries base self.old.waiting self.old.changes) }
        ensures failed { OnErr result (HasRisen (counted_both K.terms self.old)
            (counted_both K.terms self.new)) }
        ensures counts { counted_both K.terms self.old ≤ counted_both K.terms self.new }
        ensures owner { K.terms.owner self.new.inner ≡ K.terms.owner self.old.inner }
    {
        match self.hand_on_again(alloc) {
            Ok(()) => Ok(()),
            Err(KeepFault::Memory) => {
                self.faults = self.faults.saturating_add(1);
                self.let_go(alloc);
                Err(KeepFault::Failed)
            }
            Err(KeepFault::Failed) => Err(KeepFault::Failed),
        }
    }

    /// The keeper under it, which keeps what was settled.
    pub fn inner(&self) -> &K
        ensures { result.now ≡ self.now.inner }
    {
        &self.inner
    }

    /// Gives back the keeper under it. What waits is let go.
    pub fn into_inner(self) -> K
        ensures { result ≡ self.inner }
    {
        self.inner
    }
}

impl<K: BatchKeeper> Keeper for HeldBack<K> {
    ghost use Rattle.lynx_keep.specs.HeldBack.{held_terms};
    ghost use Rattle.lynx_keep.specs.HeldLaws.{settled_front, weaker_front};

    ghost terms = { held_terms K.terms };

    fn commit(&mut self, alloc: Global, entry: &Entry, changes: &Changes) -> Result<(), KeepFault> {
        match self.hold(alloc, entry, changes) {
            Ok(()) => Ok(()),
            Err(Memory) => Err(KeepFault::Memory),
        }
    }

    fn load(&mut self, alloc: Global) -> Result<Loaded, KeepFault> {
        match self.hand_on(alloc) {
            Ok(()) => self.inner.load(alloc),
            Err(fault) => Err(fault),
        }
    }

    fn faults(&self) -> u64 {
        self.faults.saturating_add(self.inner.faults())
    }

    fn cause(&self) -> Option<Cause> {
        self.inner.cause()
    }

    ghost settled = { λ keeper kept sound keeps. settled_front K.terms K.settled keeper kept sound
        keeps };

    ghost weaker = { λ keeper kept other left. weaker_front K.terms keeper.inner kept other left };
}
