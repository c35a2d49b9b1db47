ghost use Rattle.std.specs.Prelude.{◌≡◌, ◌≤◌, IsErrOf, OnOk, IfOk, ℕ};
ghost use Rattle.lynx_codec.specs.Entries.{IsEntryInRange};
ghost use Rattle.lynx_keep.specs.Kept.{HasRisen, KeptState, RestsOn, Terms, kept_in, with_entry};

use crate::cause::Cause;
use crate::fault::KeepFault;
use lynx_cells::{Cells, Changes};
use lynx_entry::Entry;
use std::alloc::Global;

/// What a keeper kept, as it is read back.
#[derive(Debug, Drop)]
pub struct Loaded {
    pub entries: Vec<Entry>,
    pub cells: Cells,
}

/// What keeps a server's entries, and the cells after them.
pub trait Keeper {
    // When the store can be believed, what is kept, what a stop leaves of it, how often the store
    // failed, and whose it is.
    ghost terms: { Terms Self };

    /// Keeps an entry, which has an encoding, and the changes of its cells, both or neither. A stop
    /// at any moment of the call leaves what was kept, or that with the whole entry.
    fn commit(&mut self, alloc: Global, entry: &Entry, changes: &Changes) -> Result<(), KeepFault>
        requires range { IsEntryInRange entry.now }
        ensures sound { terms.sound self.new → terms.sound self.old }
        ensures ok { terms.sound self.new
            → OnOk result ((before : KeptState) → terms.keeps self.old before
            → terms.keeps self.new (with_entry before entry.now changes.now)) }
        ensures memory { terms.sound self.new → IsErrOf result KeepFault.Memory
            → (before : KeptState)
            → terms.keeps self.old before → terms.keeps self.new before }
        ensures stop { terms.sound self.new → (before : KeptState) → terms.keeps self.old before
            → terms.leaves self.new before (with_entry before entry.now changes.now) }
        ensures failed { IsErrOf result KeepFault.Failed → HasRisen (terms.counted self.old)
            (terms.counted self.new) }
        ensures counts { terms.counted self.old ≤ terms.counted self.new }
        ensures owner { terms.owner self.new ≡ terms.owner self.old }
        ensures rests { OnOk result ((before : KeptState)
            → RestsOn terms self.old self.new before (with_entry before entry.now changes.now)) }
        ensures rests_still { IsErrOf result KeepFault.Memory → (before : KeptState)
            → RestsOn terms self.old self.new before before };

    /// Reads back what is kept, also after a failure.
    fn load(&mut self, alloc: Global) -> Result<Loaded, KeepFault>
        ensures sound { terms.sound self.new → terms.sound self.old }
        ensures ok { terms.sound self.new → IfOk result (λ loaded.
            terms.keeps self.new (kept_in loaded)) }
        ensures all { terms.sound self.new → IfOk result (λ loaded. (kept : KeptState)
            → terms.keeps self.old kept → kept ≡ kept_in loaded) }
        ensures memory { terms.sound self.new → IsErrOf result KeepFault.Memory → (kept : KeptState)
            → terms.keeps self.old kept → terms.keeps self.new kept }
        ensures stop { terms.sound self.new → (kept : KeptState) → terms.keeps self.old kept
            → terms.leaves self.new kept kept }
        ensures failed { IsErrOf result KeepFault.Failed → HasRisen (terms.counted self.old)
            (terms.counted self.new) }
        ensures counts { terms.counted self.old ≤ terms.counted self.new }
        ensures owner { terms.owner self.new ≡ terms.owner self.old };

    /// How often the store has failed. A count at the limit of a u64 stays there.
    fn faults(&self) -> u64
        ensures { result ≡ terms.counted self.now };

    /// Why the store failed last, for whoever operates it; None where it hasn't, or doesn't know.
    /// Nothing rests on it.
    fn cause(&self) -> Option<Cause> {
        None
    }

    // Between two calls a stop leaves what is kept.
    ghost settled: { (keeper : Self) (kept : KeptState) → terms.sound keeper
        → terms.keeps keeper kept
        → terms.leaves keeper kept kept };

    // What is left is one of more.
    ghost weaker: { (keeper : Self) (kept other : KeptState) → terms.leaves keeper kept kept
        → terms.leaves keeper kept other };
}
