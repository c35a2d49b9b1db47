//! Keys that the actions of a program may be given.
use crate::left::{Group, LeftCell};
use crate::slots::Slot;
use lynx_names::{ServerId, TableId};
use lynx_set::{Action, ChainSet, Hop, Interval, Key, Program, range_of};
use lynx_shards::Shard;

/// The interval of all numbers.
const ALL: Interval = Interval {
    low: 0,
    high: u64::MAX,
};

/// The numbers that the parameter's argument may be.
pub(crate) fn numbers_for(program: &Program, parameter: u8) -> Interval {
    range_of(program.ranges.as_slice(), parameter).unwrap_or(ALL)
}

/// Whether a cell of that key is at the server, where the number is the parameter's argument. Other
/// keys are none of its.
fn is_key_home(
    set: &ChainSet,
    server: ServerId,
    table: TableId,
    key: Key,
    parameter: u8,
    number: u64,
) -> bool {
    match key {
        Key::Literal(_) => true,
        Key::Param(place) => {
            place != parameter || set.shards().server_of(table, number) == server
        }
    }
}

/// Whether that is so of the cell that the action touches.
fn is_home(set: &ChainSet, server: ServerId, action: &Action, parameter: u8, number: u64) -> bool {
    match action.cell() {
        Some((table, key)) => is_key_home(set, server, table, key, parameter, number),
        None => true,
    }
}

fn are_home(set: &ChainSet, hop: &Hop, parameter: u8, number: u64) -> bool {
    hop.actions.as_slice().iter().all(|action| is_home(set, hop.server, action, parameter, number))
}

/// Whether all cells of which the parameter is the key are at their hops' servers, where the number
/// is its argument.
fn is_placed(set: &ChainSet, program: &Program, parameter: u8, number: u64) -> bool {
    program
        .hops
        .as_slice()
        .iter()
        .all(|hop| are_home(set, hop, parameter, number))
}

/// The first key of the table's shards that may be the parameter's argument.
fn low_key(
    set: &ChainSet,
    program: &Program,
    parameter: u8,
    numbers: Interval,
    shards: &[Shard],
) -> Option<u64> {
    for shard in shards {
        if numbers.holds(shard.low) && is_placed(set, program, parameter, shard.low) {
            return Some(shard.low);
        }
    }
    None
}

/// A number that the parameter's argument may be. The least one is the least of its range, or the
/// least key of a shard; so no others are tried.
pub(crate) fn argument_for(set: &ChainSet, program: &Program, parameter: u8) -> Option<u64> {
    let numbers = numbers_for(program, parameter);
    if is_placed(set, program, parameter, numbers.low) {
        return Some(numbers.low);
    }
    for shards in set.shards().tables() {
        let found = low_key(set, program, parameter, numbers, shards.as_slice());
        if found.is_some() {
            return found;
        }
    }
    None
}

/// The least number from `low` on that is no key of these cells, which are in order of their keys.
fn free_from(left: &[LeftCell], group: Group, low: u64) -> Option<u64> {
    let mut free = low;
    for place in group.start..group.end {
        let Some(cell) = left.get(place) else {
            break;
        };
        if cell.key > free {
            break;
        }
        if cell.key == free {
            free = free.checked_add(1)?;
        }
    }
    Some(free)
}

/// The part of the group from that key on.
fn part_from(left: &[LeftCell], group: Group, low: u64) -> Group {
    let mut start = group.start;
    let mut end = group.end;
    for _ in 0..u64::BITS {
        if start >= end {
            break;
        }
        let middle = start + (end - start) / 2;
        match left.get(middle) {
            Some(cell) if cell.key < low => start = middle + 1,
            _ => end = middle,
        }
    }
    Group {
        start,
        end: group.end,
    }
}

/// The least key of the shard that the slot takes and that no cell of the group has.
fn free_in(left: &[LeftCell], slot: &Slot, group: Group, shard: &Shard) -> Option<u64> {
    let low = shard.low.max(slot.keys.low);
    let high = shard.high.min(slot.keys.high);
    if shard.server != slot.server || high < low {
        return None;
    }
    let free = free_from(left, part_from(left, group, low), low)?;
    if free <= high { Some(free) } else { None }
}

/// A key that the slot takes and that no cell of the group has.
pub(crate) fn free_key(
    set: &ChainSet,
    left: &[LeftCell],
    slot: &Slot,
    group: Group,
) -> Option<u64> {
    let shards = set.shards().tables().get(slot.table.index())?;
    for shard in shards.as_slice() {
        let found = free_in(left, slot, group, shard);
        if found.is_some() {
            return found;
        }
    }
    None
}
