ghost use Rattle.std.specs.Prelude.{◌≡◌, Some};

use crate::batch_keeper::BatchKeeper;
use crate::fault::KeepFault;
use crate::keeper::{Keeper, Loaded};
use crate::memory_keeper::MemoryKeeper;
use lynx_cells::Changes;
use lynx_entry::Entry;
use std::alloc::Global;

/// What a keeper answers at the commit that a test chose.
#[derive(Clone, Copy, Debug, PartialEq, Eq)]
pub enum Planned {
    /// Want of memory. Nothing more is kept.
    Memory,
    /// It fails, and nothing more is kept.
    FailsBefore,
    /// It fails, and all that was to be kept is.
    FailsAfter,
}

/// Keeps everything in memory, and answers one chosen commit by a fault, whether it is of one entry
/// or of many: for tests of what is above.
#[derive(Debug, Drop)]
pub struct FaultKeeper {
    inner: MemoryKeeper,
    /// How many commits come before the chosen one. None where it came.
    left: Option<u64>,
    planned: Planned,
    faults: u64,
}

impl FaultKeeper {
    /// The commit after so many is answered as planned, and each other one kept.
    pub fn new(inner: MemoryKeeper, commits_before: u64, planned: Planned) -> FaultKeeper
        ensures inner { result.inner ≡ inner }
        ensures faults { result.faults ≡ 0 }
        ensures plan { (result.left ≡ Some commits_before) × (result.planned ≡ planned) }
    {
        FaultKeeper {
            inner,
            left: Some(commits_before),
            planned,
            faults: 0,
        }
    }

    /// The keeper without faults, which keeps what was kept.
    pub fn into_inner(self) -> MemoryKeeper
        ensures { result ≡ self.inner }
    {
        self.inner
    }

    /// Whether this commit is the chosen one. Counts it.
    fn is_chosen(&mut self) -> bool
        ensures inner { self.new.inner ≡ self.old.inner }
        ensures faults { self.new.faults ≡ self.old.faults }
    {
        match self.left {
            Some(0) => {
                self.left = None;
                true
            }
            Some(left) => {
                self.left = Some(left - 1);
                false
            }
            None => false,
        }
    }
}

impl Keeper for FaultKeeper {
    ghost use Rattle.std.specs.Prelude.{◌≡◌, ◌⊎◌};
    ghost use Rattle.std.proofs.Common.{inl, sym, rules};

    ghost terms = { record {
      sound = λ _. Unit {0};
      keeps = λ keeper kept. kept ≡ keeper.inner;
      leaves = λ keeper one other. (keeper.inner ≡ one) ⊎ (keeper.inner ≡ other);
      counted = λ keeper. keeper.faults;
      rests = λ keeper settled kept. Unit {0};
      Owner = Unit {0};
      owner = λ _. tt;
    } };

    fn commit(&mut self, alloc: Global, entry: &Entry, changes: &Changes) -> Result<(), KeepFault> {
        if !self.is_chosen() {
            return self.inner.commit(alloc, entry, changes);
        }
        match self.planned {
            Planned::Memory => return Err(KeepFault::Memory),
            Planned::FailsBefore => {}
            Planned::FailsAfter => self.inner.commit(alloc, entry, changes)?,
        }
        self.faults = self.faults.saturating_add(1);
        Err(KeepFault::Failed)
    }

    fn load(&mut self, alloc: Global) -> Result<Loaded, KeepFault> {
        self.inner.load(alloc)
    }

    fn faults(&self) -> u64 {
        self.faults
    }

    ghost settled = { λ keeper kept sound keeps. inl (sym keeps) };

    ghost weaker = { λ keeper kept other left. Prim.search rules };
}

impl BatchKeeper for FaultKeeper {
    fn commit_all(
        &mut self,
        alloc: Global,
        entries: &[Entry],
        changes: &Changes,
    ) -> Result<(), KeepFault> {
        if !self.is_chosen() {
            return self.inner.commit_all(alloc, entries, changes);
        }
        match self.planned {
            Planned::Memory => return Err(KeepFault::Memory),
            Planned::FailsBefore => {}
            Planned::FailsAfter => self.inner.commit_all(alloc, entries, changes)?,
        }
        self.faults = self.faults.saturating_add(1);
        Err(KeepFault::Failed)
    }
}
