//! Arguments that a chain can begin with.
use crate::choices::Choices;
use lynx_names::{Memory, ProgramId, ServerId, TableId, Values};
use lynx_set::{Action, ChainSet, Hop, Interval, Key, Program, range_of};
use std::alloc::Global;

/// Numbers that are tried where a parameter is no key.
const SMALL: [u64; 13] = [0, 1, 2, 3, 4, 5, 6, 7, 8, 9, 10, 50, 100];

/// An argument for each parameter of the program, none where the set hasn't it. They may fail the
/// checks of a request.
pub(crate) fn random_arguments(
    alloc: Global,
    set: &ChainSet,
    program: ProgramId,
    meeting: &[u64],
    choices: &mut Choices,
) -> Result<Values, Memory> {
    let mut arguments = Values::new(alloc);
    if let Some(program) = set.program(program) {
        let ranges = program.ranges.as_slice();
        for parameter in 0..program.parameters.min(255) {
            let parameter = parameter as u8;
            let drawn = random_argument(alloc, set, program, parameter, meeting, choices)?;
            arguments.push(within(range_of(ranges, parameter), drawn, choices))?;
        }
    }
    Ok(arguments)
}

/// A number at which chains can meet, or a key where the parameter is one, or a small number.
fn random_argument(
    alloc: Global,
    set: &ChainSet,
    program: &Program,
    parameter: u8,
    meeting: &[u64],
    choices: &mut Choices,
) -> Result<u64, Memory> {
    if choices.once_in(2) {
        if let Some(number) = meeting.get(choices.place(meeting.len())) {
            return Ok(*number);
        }
    }
    let uses = uses_as_key(alloc, program, parameter)?;
    match uses.as_slice().get(choices.place(uses.len())) {
        Some((table, server)) => Ok(random_key(set, *table, *server, choices)),
        None => Ok(small_number(choices)),
    }
}

/// One of the small numbers.
fn small_number(choices: &mut Choices) -> u64 {
    SMALL[choices.place(SMALL.len())]
}

/// The tables of which the parameter is a key, each with the server of the hop.
fn uses_as_key(
    alloc: Global,
    program: &Program,
    parameter: u8,
) -> Result<Vec<(TableId, ServerId)>, Memory> {
    let mut uses = Vec::new(alloc);
    for hop in program.hops.as_slice() {
        add_uses(&mut uses, hop, parameter)?;
    }
    Ok(uses)
}

/// Adds those in the hop.
fn add_uses(uses: &mut Vec<(TableId, ServerId)>, hop: &Hop, parameter: u8) -> Result<(), Memory> {
    for action in hop.actions.as_slice() {
        if let Some(table) = table_by(action, parameter) {
            uses.push((table, hop.server))?;
        }
    }
    Ok(())
}

/// The table of the action's cell, where its key is the parameter.
fn table_by(action: &Action, parameter: u8) -> Option<TableId> {
    let (table, key) = action.cell()?;
    if key == Key::Param(parameter) {
        Some(table)
    } else {
        None
    }
}

/// One of the first keys of a shard that the server keeps of the table, 0 where it keeps none.
fn random_key(set: &ChainSet, table: TableId, server: ServerId, choices: &mut Choices) -> u64 {
    let Some(shards) = set.shards().tables().get(table.index()) else {
        return 0;
    };
    let shards = shards.as_slice();
    let count = shards.iter().filter(|shard| shard.server == server).count();
    let place = choices.place(count);
    let offset = choices.below(4).saturating_sub(choices.below(4));
    match shards
        .iter()
        .filter(|shard| shard.server == server)
        .nth(place)
    {
        Some(shard) => shard.low.saturating_add(offset).min(shard.high),
        None => 0,
    }
}

/// The number, or where it isn't in the range one that is.
fn within(range: Option<Interval>, number: u64, choices: &mut Choices) -> u64 {
    match range {
        Some(range) if !range.holds(number) => match choices.below(3) {
            0 => range.low,
            1 => range.high,
            _ => range.low.saturating_add(number).min(range.high),
        },
        _ => number,
    }
}
