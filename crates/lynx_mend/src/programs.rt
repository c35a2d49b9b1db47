//! Texts of the programs of a set, each by its number.
use crate::actions::{Kept, put_actions, put_hop};
use crate::writing::put_head;
use lynx_names::{Memory, ProgramId, ServerId};
use lynx_set::{ChainSet, ParameterRange};
use std::alloc::Global;

/// The server of one of a program's hops.
pub(crate) fn server_of(set: &ChainSet, id: ProgramId, hop: usize) -> Option<ServerId> {
    let hop = set.hop(id, hop)?;
    Some(hop.server)
}

/// The first lines of a program, with one range more maybe. Nothing where the set hasn't it.
pub(crate) fn begun_text(
    alloc: Global,
    set: &ChainSet,
    id: ProgramId,
    added: Option<ParameterRange>,
) -> Result<Vec<u8>, Memory> {
    let mut text = Vec::new(alloc);
    if let Some(program) = set.program(id) {
        put_head(alloc, &mut text, set.program_name(id), program, added)?;
    }
    Ok(text)
}

/// Writes a hop of the program with its actions that are kept, and nothing where none is.
pub(crate) fn put_hop_of(
    alloc: Global,
    text: &mut Vec<u8>,
    set: &ChainSet,
    id: ProgramId,
    hop: usize,
    kept: &Kept,
) -> Result<(), Memory> {
    match set.program(id) {
        Some(program) => put_hop(alloc, text, set.tables().as_slice(), program, hop, kept),
        None => Ok(()),
    }
}

/// Writes those actions of a hop of the program that are kept.
pub(crate) fn put_actions_of(
    alloc: Global,
    text: &mut Vec<u8>,
    set: &ChainSet,
    id: ProgramId,
    hop: usize,
    kept: &Kept,
) -> Result<(), Memory> {
    match set.program(id) {
        Some(program) => put_actions(alloc, text, set.tables().as_slice(), program, hop, kept),
        None => Ok(()),
    }
}

/// Writes each hop of the program as it is, from one of them on to before another.
pub(crate) fn put_hops_of(
    alloc: Global,
    text: &mut Vec<u8>,
    set: &ChainSet,
    id: ProgramId,
    from: usize,
    to: usize,
) -> Result<(), Memory> {
    for hop in from..to {
        put_hop_of(alloc, text, set, id, hop, &Kept::All)?;
    }
    Ok(())
}
