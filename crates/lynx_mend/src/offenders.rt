//! The programs of walks that offend. To end a walk one of its programs has to change.
use crate::marks::ProgramMarks;
use lynx_graph::{Block, BlockWalk, Walk};

fn add_block(marks: &mut ProgramMarks, block: &Block) {
    match *block {
        Block::One { program, .. } => marks.add(program),
        Block::Two { first, second, .. } => {
            marks.add(first);
            marks.add(second);
        }
    }
}

/// The programs of a closed walk and of a walk of blocks.
pub(crate) fn offenders(walk: &Walk, blocks: &BlockWalk) -> ProgramMarks {
    let mut marks = ProgramMarks::new();
    for visit in walk.as_slice() {
        marks.add(visit.program);
    }
    for block in blocks.as_slice() {
        add_block(&mut marks, block);
    }
    marks
}
