//! Pictures: a whole one, and walks that a verdict may name and the checker never gives.
use crate::checker::expected::PAY_AND_NOTE_LINES;
use crate::checker::walks::judged;
use lynx_check::Verdict;
use lynx_draw::{Extent, draw};
use lynx_fixtures::texts::{PAY_AND_NOTE, TRIP, set_of};
use lynx_graph::{BlockWalk, Visit, Walk};
use lynx_names::{Memory, ProgramId};
use std::alloc::Global;
use std::fmt::Write;

/// The lines, each with its line feed.
fn text_of(alloc: Global, lines: &[&str]) -> Result<String, Memory> {
    let mut text = String::new(alloc);
    for line in lines {
        text.push_str(line)?;
        text.push_str("\n")?;
    }
    Ok(text)
}

/// Whether the picture of the set that is accepted by blocks has its lines.
fn is_drawn(alloc: Global) -> Result<bool, Memory> {
    let set = set_of(alloc, PAY_AND_NOTE)?;
    let verdict = judged(alloc, &set)?;
    let picture = draw(alloc, &set, &verdict, Extent::All)?;
    let want = text_of(alloc, PAY_AND_NOTE_LINES)?;
    Ok(picture.as_slice() == want.as_bytes())
}

#[test]
fn picture_of_a_set_accepted_by_blocks(rt: HostRuntime) {
    assert!(rt; is_drawn(rt.alloc()) == Ok(true));
}

/// A verdict that names a walk of three visits of the first program, from its second hop to its
/// first.
fn three_visits(alloc: Global) -> Result<Box<Verdict>, Memory> {
    let program = ProgramId::new(0).ok_or(Memory)?;
    let mut walk = Walk::new(alloc);
    for _ in 0..3 {
        walk.push(Visit {
            program,
            entered: 1,
            left: 0,
        })?;
    }
    Ok(Box::new(alloc, Verdict::Offending(walk, BlockWalk::new(alloc)))?)
}

/// Whether the picture of the set ends so, where three visits of its first program are given as the
/// walk.
fn three_visits_end(alloc: Global, text: &str, lines: &[&str]) -> Result<bool, Memory> {
    let set = set_of(alloc, text)?;
    let verdict = three_visits(alloc)?;
    let picture = draw(alloc, &set, &verdict, Extent::All)?;
    let want = text_of(alloc, lines)?;
    Ok(picture.as_slice().ends_with(want.as_bytes()))
}

/// A third visit is drawn at the second chain too.
const THIRD_VISIT: &[&str] = &[
    "  \"pay 0\" -> \"pay 1 again\" [label=\" 1 \"];",
    "  \"pay 1 again\" -> \"pay 0 again\" [label=\" 2\", style=solid, constraint=false];",
    "  \"pay 0 again\" -> \"pay 1 again\" [label=\" 3 \"];",
    "  \"pay 1 again\" -> \"pay 0 again\" [label=\" 4\", style=solid, constraint=false];",
    "  \"pay 0 again\" -> \"pay 1\" [label=\" 5 \"];",
    "  \"pay 1\" -> \"pay 0\" [label=\" 6\", style=solid, constraint=false];",
    "}",
];

/// A program that is drawn once has each visit there.
const ONE_CHAIN: &[&str] = &[
    "  \"trip 0\" -> \"trip 1\" [label=\" 1 \"];",
    "  \"trip 1\" -> \"trip 0\" [label=\" 2\", style=solid, constraint=false];",
    "  \"trip 0\" -> \"trip 1\" [label=\" 3 \"];",
    "  \"trip 1\" -> \"trip 0\" [label=\" 4\", style=solid, constraint=false];",
    "  \"trip 0\" -> \"trip 1\" [label=\" 5 \"];",
    "  \"trip 1\" -> \"trip 0\" [label=\" 6\", style=solid, constraint=false];",
    "}",
];

#[test]
fn three_visits_of_one_program(rt: HostRuntime) {
    for (text, lines) in [(PAY_AND_NOTE, THIRD_VISIT), (TRIP, ONE_CHAIN)] {
        assert!(rt;
            three_visits_end(rt.alloc(), text, lines) == Ok(true),
            "{text}"
        );
    }
}
