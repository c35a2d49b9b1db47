//! Walks of blocks that offend or don't, and why sets are accepted.
use crate::checker::small::small_set;
use crate::checker::verdicts::CHAINED;
use crate::checker::walks::{given, judged};
use lynx_check::{Reason, Verdict, search_walk};
use lynx_fixtures::texts::{
    CROSSING, EMPTY_SET, ONE_ORIGIN_JOINS, ONE_ORIGIN_SETS, PAY_AND_NOTE, TRIP, set_of,
};
use lynx_graph::{Block, BlockWalk, blocks_hold};
use lynx_names::{Memory, ProgramId};
use std::alloc::Global;

/// A block by numbers: the program and the hop entered, the program and the hop left. Of one chain,
/// where both programs are the same.
type Hops = (u8, usize, u8, usize);

fn block((first, entered, second, left): Hops) -> Option<Block> {
    let program = ProgramId::new(first)?;
    if first == second {
        Some(Block::One {
            program,
            entered,
            left,
        })
    } else {
        Some(Block::Two {
            first: program,
            entered,
            second: ProgramId::new(second)?,
            left,
        })
    }
}

fn block_walk(alloc: Global, blocks: &[Hops]) -> Result<BlockWalk, Memory> {
    let mut walk = BlockWalk::new(alloc);
    for hops in blocks {
        walk.push(block(*hops).ok_or(Memory)?)?;
    }
    Ok(walk)
}

/// Whether the walk of these blocks offends.
fn offends(alloc: Global, text: &str, blocks: &[Hops]) -> Result<bool, Memory> {
    let set = set_of(alloc, text)?;
    let walk = block_walk(alloc, blocks)?;
    Ok(blocks_hold(&set, &walk))
}

/// A set, a walk of blocks, and whether it offends. In the first set p and q begin at server 0 and
/// both set its cell, p gets what d sets and q what e sets.
const WALKS: &[(&str, &[Hops], bool)] = &[
    (
        ONE_ORIGIN_SETS,
        &[(0, 1, 1, 1), (3, 0, 3, 0), (1, 1, 0, 1), (2, 0, 2, 0)],
        true,
    ),
    (
        ONE_ORIGIN_SETS,
        &[(3, 0, 3, 0), (1, 1, 0, 1), (2, 0, 2, 0), (0, 1, 1, 1)],
        true,
    ),
    (CROSSING, &[(0, 1, 0, 0), (1, 1, 1, 0)], true),
    // Forward.
    (CROSSING, &[(0, 0, 0, 0), (1, 1, 1, 1)], false),
    // No neighbour.
    (CROSSING, &[(0, 1, 0, 0)], false),
    (CROSSING, &[], false),
    // Two of different origins are no block.
    (CROSSING, &[(0, 1, 1, 0), (1, 1, 0, 0)], false),
    // Neighbours of one origin.
    (
        ONE_ORIGIN_SETS,
        &[
            (0, 1, 0, 0),
            (1, 0, 1, 1),
            (3, 0, 3, 0),
            (1, 1, 0, 1),
            (2, 0, 2, 0),
        ],
        false,
    ),
    // A hop that meets nothing of the next.
    (ONE_ORIGIN_SETS, &[(0, 1, 1, 1), (2, 0, 2, 0)], false),
];

#[test]
fn worked_walks_of_blocks(rt: HostRuntime) {
    for &(text, blocks, want) in WALKS {
        assert!(rt; offends(rt.alloc(), text, blocks) == Ok(want), "{text}");
    }
}

/// Why the set is accepted; None where it isn't. A walk of blocks that is given offends.
fn reason(alloc: Global, text: &str) -> Result<Option<Reason>, Memory> {
    let set = set_of(alloc, text)?;
    let verdict = judged(alloc, &set)?;
    match &*verdict {
        Verdict::Accepted(accepted) => Ok(Some(accepted.reason())),
        Verdict::Offending(_, blocks) if blocks_hold(&set, blocks) => Ok(None),
        Verdict::Offending(_, _) => Err(Memory),
    }
}

const REASONS: &[(&str, Option<Reason>)] = &[
    (EMPTY_SET, Some(Reason::Walks)),
    (TRIP, Some(Reason::Walks)),
    (ONE_ORIGIN_JOINS, Some(Reason::Walks)),
    (PAY_AND_NOTE, Some(Reason::Blocks)),
    (CROSSING, None),
    (ONE_ORIGIN_SETS, None),
    (CHAINED, Some(Reason::Blocks)),
];

#[test]
fn reasons_of_worked_sets(rt: HostRuntime) {
    for &(text, want) in REASONS {
        assert!(rt; reason(rt.alloc(), text) == Ok(want), "{text}");
    }
}

/// Whether the search alone finds the walk that is given, and none where none is.
fn is_searched(alloc: Global, seed: u64) -> Result<bool, Memory> {
    let set = small_set(alloc, seed)?;
    let verdict = judged(alloc, &set)?;
    match search_walk(alloc, &set)? {
        Some(walk) => Ok(walk.as_slice() == given(&verdict)),
        None => Ok(given(&verdict).is_empty()),
    }
}

#[test]
fn the_search_finds_each_walk(rt: HostRuntime) {
    for seed in 0..3_000u64 {
        assert!(rt; is_searched(rt.alloc(), seed) == Ok(true), "{seed}");
    }
}
