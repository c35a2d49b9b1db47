//! Ranges of two parameters that don't meet.
use crate::actions::actions_of;
use crate::cells::shard_at;
use crate::change::Change;
use crate::marks::ProgramMarks;
use crate::programs::{begun_text, put_hops_of};
use crate::trial::{Patch, Trial};
use crate::writing::put_end;
use lynx_foot::Kind;
use lynx_names::limits::MAX_PROGRAMS;
use lynx_names::{Memory, ProgramId, ServerId, TableId};
use lynx_set::{Action, ChainSet, Interval, Key, ParameterRange, Program, range_of};
use std::alloc::Global;

/// A parameter by which an action names its cell, where it may be any number.
#[derive(Clone, Copy, Debug)]
struct Open {
    program: ProgramId,
    parameter: u8,
    table: TableId,
    server: ServerId,
    kind: Kind,
}

fn kind_of(action: &Action) -> Kind {
    match *action {
        Action::Update { update, .. } => Kind::of(update),
        Action::Get { .. } | Action::Let { .. } | Action::Need { .. } => Kind::Getting,
    }
}

/// The parameter that a key is, if it has no range.
fn open_parameter(program: &Program, key: Key) -> Option<u8> {
    match key {
        Key::Param(parameter) => match range_of(program.ranges.as_slice(), parameter) {
            Some(_) => None,
            None => Some(parameter),
        },
        Key::Literal(_) => None,
    }
}

fn open_of(id: ProgramId, program: &Program, server: ServerId, action: &Action) -> Option<Open> {
    let (table, key) = action.cell()?;
    let parameter = open_parameter(program, key)?;
    Some(Open {
        program: id,
        parameter,
        table,
        server,
        kind: kind_of(action),
    })
}

/// Such parameters of the program, one for each action that has one.
fn opens(alloc: Global, set: &ChainSet, id: ProgramId) -> Result<Vec<Open>, Memory> {
    let mut found = Vec::new(alloc);
    let Some(program) = set.program(id) else {
        return Ok(found);
    };
    for (number, hop) in program.hops.as_slice().iter().enumerate() {
        for action in actions_of(program, number) {
            if let Some(open) = open_of(id, program, hop.server, action) {
                found.push(open)?;
            }
        }
    }
    Ok(found)
}

fn collide(left: &Open, right: &Open) -> bool {
    left.table == right.table && left.server == right.server && !left.kind.commutes(right.kind)
}

/// The two halves of an interval, None where it has one number or none.
fn halves(low: u64, high: u64) -> Option<(Interval, Interval)> {
    if high <= low {
        return None;
    }
    let middle = low + (high - low) / 2;
    let lower = Interval { low, high: middle };
    let upper = Interval {
        low: middle + 1,
        high,
    };
    Some((lower, upper))
}

/// The text of a program with one range more.
fn ranged(
    alloc: Global,
    set: &ChainSet,
    program: ProgramId,
    parameter: u8,
    interval: Interval,
) -> Result<Patch, Memory> {
    let added = ParameterRange {
        parameter,
        interval,
    };
    let mut text = begun_text(alloc, set, program, Some(added))?;
    put_hops_of(alloc, &mut text, set, program, 0, set.hops(program).len())?;
    put_end(&mut text)?;
    Ok(Patch { program, text })
}

/// The two halves of the keys at the server, the first of them that are one behind the other.
fn halves_at(set: &ChainSet, open: &Open) -> Option<(Interval, Interval)> {
    let shard = shard_at(set, open.table, open.server)?;
    halves(shard.low, shard.high)
}

/// The parameter of the one program in the lower half of the keys at the server, that of the other
/// in the upper half.
fn range_trial(
    alloc: Global,
    set: &ChainSet,
    left: Open,
    right: Open,
) -> Result<Option<Trial>, Memory> {
    let Some((interval, other_interval)) = halves_at(set, &left) else {
        return Ok(None);
    };
    let (program, parameter) = (left.program, left.parameter);
    let (other, other_parameter) = (right.program, right.parameter);
    let mut patches = Vec::new(alloc);
    patches.push(ranged(alloc, set, program, parameter, interval)?)?;
    patches.push(ranged(alloc, set, other, other_parameter, other_interval)?)?;
    Ok(Some(Trial {
        change: Change::Range {
            program,
            parameter,
            interval,
            other,
            other_parameter,
            other_interval,
        },
        patches,
        tables: Vec::new(alloc),
        is_second: true,
    }))
}

fn has_change(trials: &[Trial], change: Change) -> bool {
    trials.iter().any(|trial| trial.change == change)
}

/// Adds the ranges of the two programs that end one of their meetings.
fn add_between(
    alloc: Global,
    set: &ChainSet,
    left: ProgramId,
    right: ProgramId,
    trials: &mut Vec<Trial>,
) -> Result<(), Memory> {
    let (lefts, rights) = (opens(alloc, set, left)?, opens(alloc, set, right)?);
    for open in lefts.as_slice() {
        for other in rights.as_slice() {
            if collide(open, other) {
                add_range(alloc, set, *open, *other, trials)?;
            }
        }
    }
    Ok(())
}

/// Adds ranges of the two parameters, if they aren't there.
fn add_range(
    alloc: Global,
    set: &ChainSet,
    left: Open,
    right: Open,
    trials: &mut Vec<Trial>,
) -> Result<(), Memory> {
    if let Some(trial) = range_trial(alloc, set, left, right)? {
        if !has_change(trials.as_slice(), trial.change) {
            trials.push(trial)?;
        }
    }
    Ok(())
}

/// Adds the ranges of the program and of each other of these that comes behind it.
pub(crate) fn add_ranges(
    alloc: Global,
    set: &ChainSet,
    program: ProgramId,
    programs: &ProgramMarks,
    trials: &mut Vec<Trial>,
) -> Result<(), Memory> {
    for number in 0..MAX_PROGRAMS {
        if let Some(other) = ProgramId::new(number) {
            if program < other && programs.has(other) {
                add_between(alloc, set, program, other, trials)?;
            }
        }
    }
    Ok(())
}
