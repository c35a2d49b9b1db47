//! Sets of as many programs and hops as there may be.
use crate::checker::verdicts::gives;
use lynx_check::Verdict;
use lynx_draw::{Extent, draw};
use lynx_fixtures::texts::set_of;
use lynx_graph::{BlockWalk, Walk, conflict_edges};
use lynx_names::Memory;
use std::alloc::Global;
use std::fmt::Write;

fn add_program(text: &mut String, number: u8, action: &str, actions: u8) -> Result<(), Memory> {
    write!(text, "program p{number}\n")?;
    for _ in 0..8u8 {
        text.push_str("hop 0\n")?;
        for _ in 0..actions {
            text.push_str(action)?;
        }
    }
    text.push_str("end\n")?;
    Ok(())
}

/// The text of 64 programs of one origin, of 8 hops each, with so many of these actions.
fn large_text(alloc: Global, action: &str, actions: u8) -> Result<String, Memory> {
    let mut text = String::from_str(
        alloc,
        "lynx 1\nservers 1\ntable t\nshard 0 18446744073709551615 0\n",
    )?;
    for number in 0..64u8 {
        add_program(&mut text, number, action, actions)?;
    }
    Ok(text)
}

/// Whether the set is accepted that has as many of these actions as a text has room for.
fn is_accepted(alloc: Global, action: &str) -> Result<bool, Memory> {
    let text = large_text(alloc, action, 11)?;
    gives(alloc, text.as_str(), &[])
}

/// Where all hops conflict, and where none do.
#[test]
fn the_largest_sets_take_seconds(rt: HostRuntime) {
    for action in ["set t 0 1\n", "add t 0 1\n"] {
        assert!(rt; is_accepted(rt.alloc(), action) == Ok(true), "{action}");
    }
}

/// The text of as many programs, all of whose hops at server 0 conflict, and the last of which
/// begins at server 1.
fn text_of_two_origins(alloc: Global) -> Result<String, Memory> {
    let mut text = String::from_str(
        alloc,
        "lynx 1\nservers 2\ntable t\nshard 0 9 0\nshard 10 18446744073709551615 1\n",
    )?;
    for number in 0..63u8 {
        add_program(&mut text, number, "set t 0 1\n", 1)?;
    }
    text.push_str("program last\nhop 1\nset t 10 1\n")?;
    for _ in 0..7u8 {
        text.push_str("hop 0\nset t 0 1\n")?;
    }
    text.push_str("end\n")?;
    Ok(text)
}

/// How many edges the set of a text has, and how many lines its picture where no walk is drawn.
fn counts(alloc: Global, text: &str) -> Result<(usize, usize), Memory> {
    let set = set_of(alloc, text)?;
    let edges = conflict_edges(alloc, &set)?;
    let verdict = Box::new(
        alloc,
        Verdict::Offending(Walk::new(alloc), BlockWalk::new(alloc)),
    )?;
    let picture = draw(alloc, &set, &verdict, Extent::All)?;
    let lines = picture.iter().filter(|byte| **byte == b'\n').count();
    Ok((edges.len(), lines))
}

fn counts_of_one_origin(alloc: Global) -> Result<(usize, usize), Memory> {
    let text = large_text(alloc, "set t 0 1\n", 1)?;
    counts(alloc, text.as_str())
}

fn counts_of_two_origins(alloc: Global) -> Result<(usize, usize), Memory> {
    let text = text_of_two_origins(alloc)?;
    counts(alloc, text.as_str())
}

/// 512 hops make 512 * 513 / 2 pairs, which aren't drawn, since all programs begin at one server.
/// Of the picture's lines 8 are no program's, 3 are the box's and 57 put the programs in rows of
/// seven; each of the 64 programs has 3 lines, 8 nodes and 7 arrows.
#[test]
fn the_largest_set_is_drawn_in_a_box(rt: HostRuntime) {
    assert!(rt; counts_of_one_origin(rt.alloc()) == Ok((131_328, 8 + 3 + 57 + 64 * 18)));
}

/// 511 hops at server 0 make 511 * 512 / 2 pairs, and the one at server 1 conflicts with itself; of
/// the picture's lines 8 are no edges, and each of the 64 programs, all of which stand in the way
/// and are drawn twice, has 4 lines, 8 nodes and 7 arrows.
#[test]
fn a_set_of_two_origins_is_drawn_whole(rt: HostRuntime) {
    assert!(rt; counts_of_two_origins(rt.alloc()) == Ok((130_817, 130_817 + 8 + 64 * 2 * 19)));
}
