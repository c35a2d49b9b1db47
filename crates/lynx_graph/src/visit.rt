use lynx_names::{Items, ProgramId};

/// A visit of a walk: an instance of the program that is entered at one hop and left by one, hops
/// counted from 0.
#[derive(Clone, Copy, Debug, PartialEq, Eq)]
pub struct Visit {
    pub program: ProgramId,
    pub entered: usize,
    pub left: usize,
}

/// A list of visits, read round a circle: the last joins the first.
pub type Walk = Items<Visit>;
