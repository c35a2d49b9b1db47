//! A program to add to a set that writes cells of a table at a server, judged before it is told.
ghost use Rattle.std.specs.Prelude.{◌++◌, IfOk, IfSome, IsTrue};
ghost use Rattle.lynx_cli.specs.Proposals.{IsProposal};

use crate::mending::is_accepted;
use lynx_lex::{FaultKind, Name};
use lynx_names::{Memory, ServerId, TableId};
use lynx_set::ChainSet;
use lynx_text::{parse, print};
use std::alloc::Global;

/// Names that are tried, of which a set takes one: it has sixty-four programs at most.
const NAMES: u32 = 65;

/// Whether the text is that of an accepted set.
fn is_proposal(alloc: Global, text: &[u8]) -> Result<bool, Memory>
    ensures { IfOk result (λ accepted. IsTrue accepted → IsProposal text.now) }
{
    let set = match parse(alloc, text) {
        Ok(set) => set,
        Err(fault) if fault.kind == FaultKind::Memory => return Err(Memory),
        Err(_) => return Ok(false),
    };
    is_accepted(alloc, &set)
}

/// The program, if the set with it at its end is accepted.
fn judged(alloc: Global, set: &[u8], program: String) -> Result<Option<Vec<u8>>, Memory>
    ensures { IfOk result (λ found. IfSome found (λ program.
        IsProposal (set.now ++ program.items))) }
{
    let mut text = Vec::from_slice(alloc, set)?;
    text.extend_from_slice(program.as_bytes())?;
    if is_proposal(alloc, text.as_slice())? {
        Ok(Some(program.into_bytes()))
    } else {
        Ok(None)
    }
}

/// A name that no program of the set has.
fn free_name(alloc: Global, set: &ChainSet) -> Result<Option<String>, Memory> {
    for number in 0..NAMES {
        let Ok(spelled) = format!(in alloc; "carry_{number}") else {
            return Err(Memory);
        };
        let Some(name) = Name::new(spelled.as_bytes()) else {
            continue;
        };
        if set.place_of_program(&name).is_none() {
            return Ok(Some(spelled));
        }
    }
    Ok(None)
}

/// A key of a table that the server keeps, if it keeps any.
fn key_at(set: &ChainSet, table: TableId, server: ServerId) -> Option<u64> {
    let shards = set.shards().tables().get(table.index())?;
    let shard = shards
        .as_slice()
        .iter()
        .find(|shard| shard.server == server)?;
    Some(shard.low)
}

/// A cell at the server: the name of its table, and its key.
fn cell_at(set: &ChainSet, server: ServerId) -> Option<(Name, u64)> {
    for number in 0..set.tables().len() {
        let name = set.tables().get_index(number)?;
        let table = set.find_table(name)?;
        if let Some(key) = key_at(set, table, server) {
            return Some((*name, key));
        }
    }
    None
}

/// A program that takes a turn at a cell, which it leaves as it is, and then writes at the server.
fn turned(
    alloc: Global,
    name: &str,
    turn: (ServerId, Name, u64),
    table: &Name,
    server: ServerId,
) -> Result<String, Memory> {
    let (origin, other, key) = turn;
    let text = format!(in alloc;
        "program {name} k n\nhop {origin}\nadd {other} {key} 0\nhop {server}\nadd {table} k n\nend\n"
    );
    text.map_err(|_| Memory)
}

/// A program that writes a cell of the table at the server, with which the set is accepted: one of
/// one hop, or else one that takes a turn at another server before. None where neither is found.
pub(crate) fn proposed_writer(
    alloc: Global,
    set: &ChainSet,
    table: &Name,
    server: ServerId,
) -> Result<Option<Vec<u8>>, Memory> {
    let Some(name) = free_name(alloc, set)? else {
        return Ok(None);
    };
    let text = print(alloc, set)?;
    let Ok(direct) = format!(in alloc; "program {name} k n\nhop {server}\nadd {table} k n\nend\n")
    else {
        return Err(Memory);
    };
    if let Some(program) = judged(alloc, text.as_slice(), direct)? {
        return Ok(Some(program));
    }
    for number in 0..set.servers() {
        let origin = ServerId::at(number);
        let Some((other, key)) = cell_at(set, origin) else {
            continue;
        };
        let tried = turned(alloc, name.as_str(), (origin, other, key), table, server)?;
        if origin != server
            && let Some(program) = judged(alloc, text.as_slice(), tried)?
        {
            return Ok(Some(program));
        }
    }
    Ok(None)
}
