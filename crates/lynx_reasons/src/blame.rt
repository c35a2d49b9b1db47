//! The lines of the programs to blame.

ghost use Rattle.std.specs.Prelude.{◌≡◌, ◌++◌, ℕ, List, OnOk};
ghost use Rattle.std.specs.List.{flat_map};
ghost use Rattle.lynx_graph.specs.Edges.{edges_of};
ghost use Rattle.lynx_reasons.specs.Blame.{AreBlameLines, bound_text, culprit_text, name_text, without_line, without_lines};

use crate::culprit::Culprit;
use crate::search::culprits_of;
use lynx_graph::Edge;
use lynx_names::{Memory, ProgramId};
use lynx_set::ChainSet;
use lynx_text::printing::{put_number, put_word};
use std::alloc::Global;

/// Writes the name of the program after a space.
fn put_name(out: &mut Vec<u8>, set: &ChainSet, program: ProgramId) -> Result<(), Memory>
    ensures { OnOk result (out.new.items ≡ out.old.items ++ name_text set.now program) }
{
    put_word(out, set.program_name(program))
}

/// Writes the names of the programs.
pub(crate) fn put_culprit(
    out: &mut Vec<u8>,
    set: &ChainSet,
    culprit: &Culprit,
) -> Result<(), Memory>
    ensures { OnOk result (out.new.items ≡ out.old.items ++ culprit_text set.now culprit.now) }
{
    match *culprit {
        Culprit::One(first) => put_name(out, set, first),
        Culprit::Two(first, second) => {
            put_name(out, set, first)?;
            put_name(out, set, second)
        }
        Culprit::Three(first, second, third) => {
            put_name(out, set, first)?;
            put_name(out, set, second)?;
            put_name(out, set, third)
        }
    }
}

/// Writes the line of programs whose taking away makes the set accepted.
fn put_without(out: &mut Vec<u8>, set: &ChainSet, culprit: &Culprit) -> Result<(), Memory>
    ensures { OnOk result (out.new.items ≡ out.old.items ++ without_line set.now culprit.now) }
{
    out.extend_from_slice(b"without".as_slice())?;
    put_culprit(out, set, culprit)?;
    out.push(b'\n')?;
    Ok(())
}

/// Writes a line for each of these.
fn put_without_lines(out: &mut Vec<u8>, set: &ChainSet, found: &[Culprit]) -> Result<(), Memory>
    ensures { OnOk result (out.new.items ≡ out.old.items ++ without_lines set.now found.now) }
{
    for culprit in found {
        put_without(out, set, culprit)?;
    }
    Ok(())
}

/// Writes how many sets were looked at, where one was not for want of looks.
fn put_bound(alloc: Global, out: &mut Vec<u8>, is_bound: bool, looks: usize) -> Result<(), Memory>
    ensures { OnOk result (out.new.items ≡ out.old.items ++ bound_text is_bound looks) }
{
    if is_bound {
        out.extend_from_slice(b"bound ".as_slice())?;
        put_number(alloc, out, looks as u64)?;
        out.push(b'\n')?;
    }
    Ok(())
}

/// Writes the programs to blame.
pub(crate) fn put_blame(
    alloc: Global,
    out: &mut Vec<u8>,
    set: &ChainSet,
    edges: &[Edge],
) -> Result<(), Memory>
    requires { edges.now ≡ edges_of set.now }
    ensures { OnOk result ((lines : List ℕ) × AreBlameLines set.now lines
        × (out.new.items ≡ out.old.items ++ lines)) }
{
    let search = culprits_of(alloc, set, edges)?;
    put_without_lines(out, set, search.found.as_slice())?;
    put_bound(alloc, out, search.is_bound, search.looks)
}
