//! The mirror of a server: made, brought up to what is settled, and shared with readers.
ghost use Rattle.std.specs.Prelude.{◌≡◌};

use crate::mirror::Mirror;
use crate::resting::Resting;
use lynx_keep::BatchKeeper;
use lynx_names::{Memory, learn};
use std::alloc::Global;
use std::sync::Arc;

impl<K: BatchKeeper> Resting<K> {
    /// Whether its cells are mirrored.
    pub fn has_mirror(&self) -> bool {
        self.mirror.is_some()
    }

    /// Its mirror, which the caller owns too, as it was when it was made, or followed last.
    pub fn mirror(&self) -> Option<Arc<Mirror>> {
        match &self.mirror {
            Some(mirror) => Arc::try_clone(mirror).ok(),
            None => None,
        }
    }

    /// Mirrors the cells, unless something waits to be settled: as much work as there are cells.
    pub fn make_mirror(&mut self, alloc: Global) -> Result<(), Memory>
        ensures { self.new ≡ self.old }
    {
        // By its type the history is lawful.
        learn(self.server.history());
        if self.settled < self.server.history().len() {
            return Ok(());
        }
        let mirror = Mirror::new(
            alloc,
            self.server.set(),
            self.server.server(),
            self.server.history(),
            self.server.cells(),
        )?;
        self.mirror = Some(Arc::new(alloc, mirror)?);
        Ok(())
    }

    /// Brings the mirror up to what is settled: the work of the hops of the entries that are more.
    /// There is none any more where another one owns it too, or memory is wanting.
    pub fn follow_mirror(&mut self, alloc: Global)
        ensures { self.new ≡ self.old }
    {
        let Some(shared) = self.mirror.take() else {
            return;
        };
        let Ok(mirror) = Arc::try_unwrap(shared) else {
            return;
        };
        // By its type the history is lawful.
        learn(self.server.history());
        let history = &self.server.history()[..self.settled];
        let Ok(mirror) = mirror.follow(alloc, history) else {
            return;
        };
        if let Ok(shared) = Arc::new(alloc, mirror) {
            self.mirror = Some(shared);
        }
    }

    /// Lets the mirror go.
    pub fn drop_mirror(&mut self)
        ensures { self.new ≡ self.old }
    {
        self.mirror = None;
    }
}
