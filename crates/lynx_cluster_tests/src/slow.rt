//! A keeper that takes its time.
use lynx_cells::Changes;
use lynx_entry::Entry;
use lynx_keep::{BatchKeeper, KeepFault, Keeper, Loaded, MemoryKeeper};
use lynx_names::Memory;
use std::alloc::Global;
use std::sync::Arc;
use std::sync::atomic::{AtomicU64, Ordering};
use std::thread;
use std::time::{Clock, Duration};

/// Keeps everything in memory, each commit after a while, of one entry or of many, and counts them.
#[derive(Drop)]
pub struct SlowKeeper<R: Clock> {
    rt: R,
    inner: MemoryKeeper,
    pause: Duration,
    commits: Arc<AtomicU64>,
}

/// A keeper with such a pause, and its count.
pub fn slow_keeper<R: Clock + Drop>(
    rt: R,
    alloc: Global,
    pause: Duration,
) -> Result<(SlowKeeper<R>, Arc<AtomicU64>), Memory> {
    let commits = Arc::new(alloc, AtomicU64::new(0))?;
    let theirs = Arc::try_clone(&commits)?;
    let keeper = SlowKeeper {
        rt,
        inner: MemoryKeeper::new(alloc),
        pause,
        commits: theirs,
    };
    Ok((keeper, commits))
}

impl<R: Clock> Keeper for SlowKeeper<R> {
    ghost use Rattle.std.specs.Prelude.{◌≡◌, ◌⊎◌};
    ghost use Rattle.std.proofs.Common.{inl, sym, rules};

    ghost terms = { record {
      sound = λ _. Unit {0};
      keeps = λ keeper kept. kept ≡ keeper.inner;
      leaves = λ keeper one other. (keeper.inner ≡ one) ⊎ (keeper.inner ≡ other);
      counted = λ _. 0;
      rests = λ keeper settled kept. Unit {0};
      Owner = Unit {0};
      owner = λ _. tt;
    } };

    fn commit(&mut self, alloc: Global, entry: &Entry, changes: &Changes) -> Result<(), KeepFault> {
        self.commits.fetch_add(1, Ordering::SeqCst);
        thread::sleep(&self.rt, self.pause);
        self.inner.commit(alloc, entry, changes)
    }

    fn load(&mut self, alloc: Global) -> Result<Loaded, KeepFault> {
        self.inner.load(alloc)
    }

    fn faults(&self) -> u64 {
        0
    }

    ghost settled = { λ keeper kept sound keeps. inl (sym keeps) };

    ghost weaker = { λ keeper kept other left. Prim.search rules };
}

impl<R: Clock> BatchKeeper for SlowKeeper<R> {
    fn commit_all(
        &mut self,
        alloc: Global,
        entries: &[Entry],
        changes: &Changes,
    ) -> Result<(), KeepFault> {
        self.commits.fetch_add(1, Ordering::SeqCst);
        thread::sleep(&self.rt, self.pause);
        self.inner.commit_all(alloc, entries, changes)
    }
}
