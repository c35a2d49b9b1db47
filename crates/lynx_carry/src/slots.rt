//! The slots of programs that write cells.
use crate::keys::{argument_for, numbers_for};
use crate::left::LeftCell;
use crate::writers::{is_slot, is_writer, named_pair};
use lynx_names::limits::MAX_PROGRAMS;
use lynx_names::{Memory, ProgramId, ServerId, TableId};
use lynx_set::{Action, ChainSet, Hop, Interval, Program, Update};
use std::alloc::Global;

/// An action of a program that writes a cell which it is given.
#[derive(Clone, Copy, Debug)]
pub(crate) struct Slot {
    pub table: TableId,
    pub server: ServerId,
    pub update: Update,
    /// The parameter that is its key, and the one that is its value, by their places.
    pub key: u8,
    pub value: u8,
    /// What these may be.
    pub keys: Interval,
    pub values: Interval,
}

impl Slot {
    /// Whether the slot can write the cell.
    pub(crate) fn takes(&self, cell: &LeftCell) -> bool {
        cell.table == self.table
            && cell.server == self.server
            && self.keys.holds(cell.key)
            && self.values.holds(cell.value)
    }
}

/// A program that writes the cells which it is given.
#[derive(Debug, Drop)]
pub(crate) struct Writer {
    pub program: ProgramId,
    pub slots: Vec<Slot>,
    /// For each parameter a number that its argument may be.
    pub args: Vec<u64>,
}

/// The slot that the action of a hop at the server is.
fn slot_of(program: &Program, server: ServerId, action: &Action) -> Option<Slot> {
    let Action::Update {
        update,
        table,
        key,
        value,
    } = *action
    else {
        return None;
    };
    let (key, value) = named_pair(key, value)?;
    if !is_slot(program, action) {
        return None;
    }
    Some(Slot {
        table,
        server,
        update,
        key,
        value,
        keys: numbers_for(program, key),
        values: numbers_for(program, value),
    })
}

/// Adds the slots of a hop.
fn add_slots(slots: &mut Vec<Slot>, program: &Program, hop: &Hop) -> Result<(), Memory> {
    for action in hop.actions.as_slice() {
        if let Some(slot) = slot_of(program, hop.server, action) {
            slots.push(slot)?;
        }
    }
    Ok(())
}

fn slots_of(alloc: Global, program: &Program) -> Result<Vec<Slot>, Memory> {
    let mut slots = Vec::new(alloc);
    for hop in program.hops.as_slice() {
        add_slots(&mut slots, program, hop)?;
    }
    Ok(slots)
}

/// For each parameter a number that its argument may be. None where there is none for one.
fn args_of(alloc: Global, set: &ChainSet, program: &Program) -> Result<Option<Vec<u64>>, Memory> {
    let mut args = Vec::new(alloc);
    for place in 0..program.parameters {
        let Ok(parameter) = u8::try_from(place) else {
            return Ok(None);
        };
        let Some(argument) = argument_for(set, program, parameter) else {
            return Ok(None);
        };
        args.push(argument)?;
    }
    Ok(Some(args))
}

/// The program of that number, if it is a writer, and can be begun.
fn writer_of(alloc: Global, set: &ChainSet, program: ProgramId) -> Result<Option<Writer>, Memory> {
    let Some(found) = set.program(program) else {
        return Ok(None);
    };
    if !is_writer(found) {
        return Ok(None);
    }
    let slots = slots_of(alloc, found)?;
    match args_of(alloc, set, found)? {
        Some(args) => Ok(Some(Writer {
            program,
            slots,
            args,
        })),
        None => Ok(None),
    }
}

/// The programs of the set that write the cells which they are given, and can be begun.
pub(crate) fn writers_of(alloc: Global, set: &ChainSet) -> Result<Vec<Writer>, Memory> {
    let mut writers = Vec::new(alloc);
    for number in 0..MAX_PROGRAMS {
        let Some(program) = ProgramId::new(number) else {
            break;
        };
        if let Some(writer) = writer_of(alloc, set, program)? {
            writers.push(writer)?;
        }
    }
    Ok(writers)
}
