//! Stores whose tables can be read back.
use sqlite::{Alter, FileStore};
use sqlite_disk::Disk;
use sqlite_trees::memory::MemStore;

/// A store of which it is known, as long as it is open, that each table's rows rise by their
/// numbers in what the last commit left. Without that the rows that a query shows would not tell
/// the rows that are stored.
pub trait Rising: Alter {
    ghost use Rattle.std.specs.Prelude.{IsTrue};
    ghost use Rattle.lynx_sql.specs.Rising.{IsRising};

    ghost rises: { (s : Self) → IsTrue (Self.Store.view s).is_open → IsRising (Self.Store.view s) };
}

impl Rising for MemStore {
    ghost use Rattle.lynx_sql.specs.RisingLaws.{memory_rises};

    ghost rises = { λ s _. memory_rises s };
}

impl<D: Disk> Rising for FileStore<D> {
    ghost use Rattle.lynx_sql.specs.RisingLaws.{file_rises};

    ghost rises = { λ s is_open. file_rises s is_open };
}
