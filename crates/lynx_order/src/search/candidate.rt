use lynx_names::Items;

/// What a search found.
#[derive(Debug, Drop)]
pub(crate) enum Candidate {
    /// Chains in the order in which they could have run one after another.
    Order(Items<usize>),
    /// Chains each of which precedes the next, and the last the first.
    Cycle(Items<Link>),
}

/// A chain of a cycle, with the places of two entries that conflict: its own, and a later one of
/// the next chain.
#[derive(Clone, Copy, Debug)]
pub(crate) struct Link {
    pub chain: usize,
    pub own: usize,
    pub next: usize,
}
