use lynx_names::{Items, ProgramId};

/// A part of a cycle of chains that is entered at one hop and left by one, hops counted from 0.
#[derive(Clone, Copy, Debug, PartialEq, Eq)]
pub enum Block {
    /// One chain of the program.
    One {
        program: ProgramId,
        entered: usize,
        left: usize,
    },
    /// Two chains of programs of one origin. The one begun first is entered, the other is left.
    Two {
        first: ProgramId,
        entered: usize,
        second: ProgramId,
        left: usize,
    },
}

/// A list of blocks, read round a circle: the last meets the first.
pub type BlockWalk = Items<Block>;
