//! Where what is changed stands in the text of the set.
use crate::change::Change;
use crate::marks::ProgramMarks;
use crate::words::{put, put_between};
use lynx_names::limits::MAX_PROGRAMS;
use lynx_names::{Memory, ProgramId};
use lynx_set::{ChainSet, Hop, Program};
use lynx_text::printing::put_number;
use std::alloc::Global;

/// How many lines the hops have.
fn lines_of_hops(hops: &[Hop]) -> usize {
    let mut lines = 0usize;
    for hop in hops {
        lines = lines.saturating_add(hop.actions.len()).saturating_add(1);
    }
    lines
}

/// How many lines the program has.
fn lines_of(program: &Program) -> usize {
    let hops = lines_of_hops(program.hops.as_slice());
    hops.saturating_add(program.ranges.len()).saturating_add(2)
}

/// The line of the first program, counted from 1.
fn first_line(set: &ChainSet) -> usize {
    let mut line = 3usize;
    for shards in set.shards().tables() {
        line = line.saturating_add(shards.len()).saturating_add(1);
    }
    line
}

/// The line of the program, counted from 1.
fn line_of(set: &ChainSet, id: ProgramId) -> usize {
    let mut line = first_line(set);
    let mut before = id.index();
    for (_, program) in set.programs() {
        if before > 0 {
            line = line.saturating_add(lines_of(program));
            before -= 1;
        }
    }
    line
}

/// The line of an action of the program.
fn action_line(set: &ChainSet, id: ProgramId, hop: usize, action: usize) -> usize {
    let mut line = line_of(set, id).saturating_add(2);
    if let Some(program) = set.program(id) {
        let hops = program.hops.as_slice();
        let before = lines_of_hops(&hops[..hop.min(hops.len())]);
        line = line
            .saturating_add(program.ranges.len())
            .saturating_add(before);
    }
    line.saturating_add(action)
}

fn put_line(alloc: Global, out: &mut Vec<u8>, line: usize) -> Result<(), Memory> {
    put(out, " (line ")?;
    put_number(alloc, out, line as u64)?;
    put(out, ")")
}

/// Writes the lines of the programs.
fn put_program_lines(
    alloc: Global,
    out: &mut Vec<u8>,
    set: &ChainSet,
    programs: &ProgramMarks,
) -> Result<(), Memory> {
    put(out, " (lines ")?;
    let mut place = 0usize;
    for number in 0..MAX_PROGRAMS {
        if let Some(program) = ProgramId::new(number) {
            if programs.has(program) {
                put_between(out, place, programs.len())?;
                put_number(alloc, out, line_of(set, program) as u64)?;
                place = place.saturating_add(1);
            }
        }
    }
    put(out, ")")
}

/// Writes on which lines of the set's text that stands which is changed: its programs, or the `get`
/// that is left out.
pub(crate) fn put_place(
    alloc: Global,
    out: &mut Vec<u8>,
    set: &ChainSet,
    change: &Change,
) -> Result<(), Memory> {
    match *change {
        Change::Order { program, .. }
        | Change::Turn { program, .. }
        | Change::Cut { program, .. }
        | Change::Leave { program } => put_line(alloc, out, line_of(set, program)),
        Change::Drop {
            program,
            hop,
            action,
        } => put_line(alloc, out, action_line(set, program, hop, action)),
        Change::Decide { programs, .. } => put_program_lines(alloc, out, set, &programs),
        Change::Range { program, other, .. } => {
            let mut programs = ProgramMarks::new();
            programs.add(program);
            programs.add(other);
            put_program_lines(alloc, out, set, &programs)
        }
    }
}
