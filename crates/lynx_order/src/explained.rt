use lynx_names::{ChainId, Items};

/// Which order of chains gives what the servers of a world did; or why none was found.
#[derive(Debug, PartialEq, Eq, Drop)]
pub enum Explained {
    /// All chains that began: one after another they give the same.
    Order(Items<ChainId>),
    /// Chains each of which precedes the next, and the last the first.
    Cycle(Items<ChainId>),
}
