//! Plans chains that leave cells.
ghost use Rattle.std.specs.Prelude.{IfErr, IfOk};
ghost use Rattle.lynx_carry.specs.Counts.{HaveRoom};
ghost use Rattle.lynx_carry.specs.Faults.{IsPlanFault};

use crate::fault::CarryFault;
use crate::filling::{Fillers, add_chains};
use crate::judging::{check_room, why_left};
use crate::left::{LeftCell, left_cells};
use crate::naming::{NamedCell, numbered_cells};
use crate::slots::{Writer, writers_of};
use lynx_entry::Request;
use lynx_names::limits::MAX_PARAMETERS;
use lynx_names::{Memory, TableId};
use lynx_set::ChainSet;
use std::alloc::Global;

/// Adds the chains of all writers, those with the most slots first.
fn add_all(
    alloc: Global,
    set: &ChainSet,
    writers: &[Writer],
    fillers: Fillers,
    left: &mut [LeftCell],
    requests: &mut Vec<Request>,
) -> Result<(), Memory> {
    for fewer in 0..MAX_PARAMETERS {
        let slots = MAX_PARAMETERS - fewer;
        for writer in writers {
            if writer.slots.len() == slots {
                add_chains(alloc, set, writer, fillers, left, requests)?;
            }
        }
    }
    Ok(())
}

/// Whether a slot of the writers takes the cell.
fn is_wanted(writers: &[Writer], cell: &LeftCell) -> bool {
    writers.iter().any(|writer| writer.slots.as_slice().iter().any(|slot| slot.takes(cell)))
}

/// The place of a given cell that was left over: the first that no slot takes, if there is one.
fn left_over(writers: &[Writer], left: &[LeftCell]) -> Option<usize> {
    let mut first = None;
    for cell in left {
        if cell.is_left {
            if !is_wanted(writers, cell) {
                return Some(cell.place);
            }
            if first.is_none() {
                first = Some(cell.place);
            }
        }
    }
    first
}

/// The chains that were found, and the place of a cell that they leave over.
#[derive(Debug, Drop)]
struct Found {
    requests: Vec<Request>,
    left_over: Option<usize>,
}

/// Looks for chains that leave the cells: first those all of whose slots are filled with cells, and
/// then those in which others are given what changes nothing.
fn find_chains(
    alloc: Global,
    set: &ChainSet,
    cells: &[(TableId, u64, u64)],
) -> Result<Found, Memory> {
    let mut left = left_cells(alloc, set, cells)?;
    let left = left.as_mut_slice();
    let writers = writers_of(alloc, set)?;
    let writers = writers.as_slice();
    let mut requests = Vec::new(alloc);
    add_all(alloc, set, writers, Fillers::Refused, left, &mut requests)?;
    add_all(alloc, set, writers, Fillers::Allowed, left, &mut requests)?;
    Ok(Found {
        requests,
        left_over: left_over(writers, left),
    })
}

/// Chains that leave these cells where they run in new stores of the set, in order and one after
/// another: a search that promises nothing but room; [`carry`](crate::carry) says whether they do.
/// The cells are to have values that aren't 0, and no key of a table twice. All are requests of the
/// client 2^64 - 1, numbered from 0.
///
/// It takes n log n steps for n cells, and a step for each cell and slot of the set. A program that
/// reads, decides or computes is none that writes cells.
///
/// NoTable and NoWriter name what is wrong with one of the cells. TooMany names the first server
/// that hasn't room for the entries of the chains that were found. Where programs write a cell that
/// is left over, but no chain of them was found, it Differs: some slot of theirs can be given
/// neither a cell nor what changes nothing.
pub fn plan(alloc: Global, set: &ChainSet, cells: &[NamedCell]) -> Result<Vec<Request>, CarryFault>
    ensures ok { IfOk result (λ requests. HaveRoom set.now requests.items) }
    ensures err { IfErr result (IsPlanFault set.now cells.now) }
{
    let triples = numbered_cells(alloc, set, cells)?;
    let found = find_chains(alloc, set, triples.as_slice())?;
    if let Some(place) = found.left_over {
        return Err(why_left(set, cells, place));
    }
    let requests = found.requests;
    check_room(alloc, set, requests.as_slice(), cells)?;
    Ok(requests)
}
