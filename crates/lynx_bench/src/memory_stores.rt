//! Stores in memory.
use lynx_names::ServerId;
use lynx_set::ChainSet;
use lynx_store::{SqlKeeper, StoreFault};
use lynx_store_files::Stores;
use sqlite::{Connection, MemStore};
use std::alloc::Global;

/// A keeper over a database in memory.
type MemoryStoreKeeper = SqlKeeper<MemStore>;

/// Stores in memory, each a new one, whatever the folder. A store is gone once it is closed.
#[derive(Drop)]
pub struct MemoryStores {
    alloc: Global,
}

impl MemoryStores {
    /// Stores in the memory of this allocator.
    pub fn new(alloc: Global) -> MemoryStores {
        MemoryStores { alloc }
    }
}

impl Stores<MemoryStoreKeeper> for MemoryStores {
    ghost use Rattle.std.specs.Prelude.{◌≡◌};
    ghost use Rattle.lynx_store.specs.Heading.{owner_in};
    ghost use Rattle.lynx_store.specs.Stored.{owner_for};

    ghost store_terms = { record {
      store_in = λ folder set server keeper. owner_in keeper.heading ≡ owner_for server set;
      lacks = λ folder server. Unit {0};
      count_of = λ keeper. keeper.count;
      closed = λ keeper is_well. Unit {0};
    } };

    fn open(
        &self,
        _folder: &str,
        set: &ChainSet,
        server: ServerId,
    ) -> Result<MemoryStoreKeeper, StoreFault> {
        let Ok(conn) = Connection::open_in_memory(self.alloc) else {
            return Err(StoreFault::Memory);
        };
        match SqlKeeper::open(self.alloc, conn, set, server) {
            Ok(keeper) => Ok(keeper),
            Err((fault, _)) => Err(fault),
        }
    }

    fn open_there(
        &self,
        _folder: &str,
        _set: &ChainSet,
        _server: ServerId,
    ) -> Result<Option<MemoryStoreKeeper>, StoreFault> {
        Ok(None)
    }

    fn has(&self, _folder: &str, _server: ServerId) -> Result<bool, StoreFault> {
        Ok(false)
    }

    fn entries(&self, keeper: &MemoryStoreKeeper) -> u64 {
        u64::from(keeper.entries())
    }

    fn close(&self, keeper: MemoryStoreKeeper) -> Result<(), StoreFault> {
        drop(keeper);
        Ok(())
    }
}
