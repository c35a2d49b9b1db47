//! Fills the slots of a program with cells, chain by chain.
use crate::keys::free_key;
use crate::left::{Group, LeftCell, group_of, mark};
use crate::slots::{Slot, Writer};
use lynx_entry::Request;
use lynx_names::{ClientId, Memory, Values};
use lynx_set::{ChainSet, Update};
use std::alloc::Global;

/// The client of all requests.
const CLIENT: u64 = u64::MAX;

/// What a slot may be given where no cell is left for it: it leaves the cells as they are to be.
#[derive(Clone, Copy, Debug)]
pub(crate) struct Filler {
    key: u64,
    value: u64,
}

/// Whether slots may be given fillers.
#[derive(Clone, Copy, Debug, PartialEq, Eq)]
pub(crate) enum Fillers {
    Refused,
    Allowed,
}

/// A slot, with the part of the cells in which it looks for the next.
#[derive(Clone, Copy, Debug)]
struct Lane {
    slot: Slot,
    rest: Group,
    filler: Option<Filler>,
    /// A cell that the slot wrote is a filler for it.
    learns: bool,
}

/// The first cell of the group that the slot takes, and that is left or not.
fn find_cell(left: &[LeftCell], slot: &Slot, group: Group, is_left: bool) -> Option<usize> {
    for place in group.start..group.end {
        if let Some(cell) = left.get(place)
            && cell.is_left == is_left
            && slot.takes(cell)
        {
            return Some(place);
        }
    }
    None
}

/// A cell that a chain wrote, as a filler: to set it to its value once more changes nothing.
fn written_cell(left: &[LeftCell], slot: &Slot, group: Group) -> Option<Filler> {
    let cell = left.get(find_cell(left, slot, group, false)?)?;
    Some(Filler {
        key: cell.key,
        value: cell.value,
    })
}

/// The key, with the value 0, if the slot takes that.
fn nothing_at(slot: &Slot, key: Option<u64>) -> Option<Filler> {
    if !slot.values.holds(0) {
        return None;
    }
    Some(Filler {
        key: key?,
        value: 0,
    })
}

/// A filler for the slot of that writer: to add 0 changes nothing, nor does it to set a cell to 0
/// that no chain writes, or one that a chain wrote to its value.
fn filler_for(
    set: &ChainSet,
    left: &[LeftCell],
    writer: &Writer,
    slot: &Slot,
    group: Group,
) -> Option<Filler> {
    if slot.update == Update::Add {
        let key = writer.args.as_slice().get(usize::from(slot.key)).copied();
        return nothing_at(slot, key);
    }
    let unused = nothing_at(slot, free_key(set, left, slot, group));
    if unused.is_some() {
        return unused;
    }
    written_cell(left, slot, group)
}

/// The lane of a slot of that writer.
fn lane_of(
    set: &ChainSet,
    left: &[LeftCell],
    writer: &Writer,
    slot: &Slot,
    fillers: Fillers,
) -> Lane {
    let rest = group_of(left, slot.table, slot.server);
    let is_allowed = fillers == Fillers::Allowed;
    let filler = if is_allowed {
        filler_for(set, left, writer, slot, rest)
    } else {
        None
    };
    Lane {
        slot: *slot,
        rest,
        filler,
        learns: is_allowed && slot.update == Update::Set,
    }
}

fn lanes_of(
    alloc: Global,
    set: &ChainSet,
    left: &[LeftCell],
    writer: &Writer,
    fillers: Fillers,
) -> Result<Vec<Lane>, Memory> {
    let mut lanes = Vec::new(alloc);
    for slot in &writer.slots {
        lanes.push(lane_of(set, left, writer, slot, fillers))?;
    }
    Ok(lanes)
}

/// A chain that is being filled: its arguments, and the places of the cells that it writes.
#[derive(Debug, Drop)]
struct Filling {
    args: Vec<u64>,
    taken: Vec<usize>,
}

/// Gives the slot that key and value.
fn put(args: &mut [u64], slot: &Slot, key: u64, value: u64) {
    if let Some(argument) = args.get_mut(usize::from(slot.key)) {
        *argument = key;
    }
    if let Some(argument) = args.get_mut(usize::from(slot.value)) {
        *argument = value;
    }
}

/// Fills the slot with the next cell that it takes, or else with its filler. Answers whether there
/// was one.
fn fill_slot(
    lane: &mut Lane,
    left: &mut [LeftCell],
    filling: &mut Filling,
) -> Result<bool, Memory> {
    let slot = lane.slot;
    if let Some(place) = find_cell(left, &slot, lane.rest, true)
        && let Some(cell) = left.get_mut(place)
    {
        filling.taken.push(place)?;
        cell.is_left = false;
        let (key, value) = (cell.key, cell.value);
        put(filling.args.as_mut_slice(), &slot, key, value);
        lane.rest.start = place.saturating_add(1);
        if lane.learns && lane.filler.is_none() {
            lane.filler = Some(Filler { key, value });
        }
        return Ok(true);
    }
    lane.rest.start = lane.rest.end;
    let Some(filler) = lane.filler else {
        return Ok(false);
    };
    put(filling.args.as_mut_slice(), &slot, filler.key, filler.value);
    Ok(true)
}

/// Fills all slots of a chain. Answers whether that was possible, and one of them at least was
/// filled with a cell; else the chain is not to be begun.
fn fill_all(
    lanes: &mut [Lane],
    left: &mut [LeftCell],
    filling: &mut Filling,
) -> Result<bool, Memory> {
    for lane in lanes {
        if !fill_slot(lane, left, filling)? {
            return Ok(false);
        }
    }
    Ok(!filling.taken.is_empty())
}

/// The arguments of one more chain of the writer. None where there is none; then no cell is taken.
fn next_args(
    alloc: Global,
    writer: &Writer,
    lanes: &mut [Lane],
    left: &mut [LeftCell],
) -> Result<Option<Vec<u64>>, Memory> {
    let mut filling = Filling {
        args: Vec::from_slice(alloc, writer.args.as_slice())?,
        taken: Vec::new(alloc),
    };
    if fill_all(lanes, left, &mut filling)? {
        Ok(Some(filling.args))
    } else {
        mark(left, filling.taken.as_slice(), true);
        Ok(None)
    }
}

/// Adds chains of the writer, as long as each of them writes a cell that is left.
pub(crate) fn add_chains(
    alloc: Global,
    set: &ChainSet,
    writer: &Writer,
    fillers: Fillers,
    left: &mut [LeftCell],
    requests: &mut Vec<Request>,
) -> Result<(), Memory> {
    let mut lanes = lanes_of(alloc, set, left, writer, fillers)?;
    for _ in 0..left.len() {
        let Some(args) = next_args(alloc, writer, lanes.as_mut_slice(), left)? else {
            break;
        };
        requests.push(Request {
            client: ClientId::new(CLIENT),
            number: requests.len() as u64,
            program: writer.program,
            args: Values::from_vec(args),
        })?;
    }
    Ok(())
}
