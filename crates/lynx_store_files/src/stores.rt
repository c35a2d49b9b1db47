use lynx_names::ServerId;
use lynx_set::ChainSet;
use lynx_store::StoreFault;

/// Where the servers of a set have their keepers.
pub trait Stores<K> {
    ghost use Rattle.std.specs.Prelude.{◌≡◌, false, IfNone, IfOk, IfSome, is_ok};
    ghost use Rattle.lynx_store_files.specs.Terms.{StoreTerms};

    // What a keeper is the store of, that there is none, how much is kept, and what was let go.
    ghost store_terms: { StoreTerms K };

    /// The keeper of that server in the folder, which is made where there is none. Where it fails,
    /// whatever was there stands. [`Damaged`](StoreFault::Damaged) also where the folder waits for
    /// stores that a restore was to move to it.
    fn open(&self, folder: &str, set: &ChainSet, server: ServerId) -> Result<K, StoreFault>
        ensures store { IfOk result (store_terms.store_in folder.now set.now server) };

    /// The keeper of that server in the folder. None where there is no store: nothing, or no more
    /// than what a stop within the making of one leaves, a database without tables. A folder that
    /// isn't there is a fault. Nothing is made.
    fn open_there(
        &self,
        folder: &str,
        set: &ChainSet,
        server: ServerId,
    ) -> Result<Option<K>, StoreFault>
        ensures store { IfOk result (λ found.
            IfSome found (store_terms.store_in folder.now set.now server)) }
        ensures none { IfOk result (λ found. IfNone found (store_terms.lacks folder.now server)) };

    /// Whether there is something of a store for that server in the folder: a file, or a log beside
    /// where it would be, that isn't empty. A folder that isn't there is a fault. Nothing is opened
    /// as a database, and nothing is made.
    fn has(&self, folder: &str, server: ServerId) -> Result<bool, StoreFault>
        ensures none { IfOk result (λ is_there. is_there ≡ false
            → store_terms.lacks folder.now server) };

    /// How many entries a keeper keeps.
    fn entries(&self, keeper: &K) -> u64
        ensures { result ≡ store_terms.count_of keeper.now };

    /// Lets go of a keeper, once nothing more is to be kept. A fault tells that what was kept
    /// stands, but not where it ought to stand: in a log beside the file, say.
    fn close(&self, keeper: K) -> Result<(), StoreFault>
        ensures told { store_terms.closed keeper (is_ok result) };
}
