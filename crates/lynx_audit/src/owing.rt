//! The hops that chains owe, of stores that nobody has open.
ghost use Rattle.std.specs.Prelude.{◌≡◌, ◌++◌, OnOk, IfErr, IfOk, length};
ghost use Rattle.std.specs.BTreeMap.{get};
ghost use Rattle.std.specs.String.{string_bytes};
ghost use Rattle.lynx_names.specs.declared.chain.ChainId.{ChainId};
ghost use Rattle.lynx_report.specs.Owed.{AreTheOwed, chain_cmp};
ghost use Rattle.lynx_audit.specs.Audits.{BlamesRight};
ghost use Rattle.lynx_audit.specs.Latest.{latest_of};
ghost use Rattle.lynx_audit.specs.Owing.{TellsOwed, owing_by, owing_line, owing_lines, owing_text};

use crate::auditing::kept_world;
use crate::latest::{Latest, latest_chains};
use lynx_keep::Keeper;
use lynx_lines::write_bytes;
use lynx_names::{ChainId, Memory, ServerId, Stamp};
use lynx_report::{OwedHop, owed_hops};
use lynx_service::ServeFault;
use lynx_set::ChainSet;
use lynx_world::World;
use std::alloc::{AllocError, Global};
use std::collections::BTreeMap;
use std::fmt::Write as _;
use std::io::Write;

/// The line of a hop at that server, the chain of which did its last hop at that stamp.
fn owing_line(
    alloc: Global,
    owed: &OwedHop,
    server: ServerId,
    stamp: Stamp,
) -> Result<String, AllocError>
    ensures { IfOk result (λ text. string_bytes text ≡ owing_line owed.now server stamp) }
{
    let (chain, hop) = (&owed.chain, owed.hop);
    let mut text = String::new(alloc);
    write!(text, "owed {chain} {hop}")?;
    text.push_str(" server ")?;
    write!(text, "{server}")?;
    text.push_str(" since ")?;
    write!(text, "{stamp}")?;
    text.push_str("\n")?;
    Ok(text)
}

/// Adds the line of a hop, by what its chain did last.
fn put_owed(
    alloc: Global,
    text: &mut Vec<u8>,
    set: &ChainSet,
    owed: &OwedHop,
    latest: &Latest,
) -> Result<(), Memory>
    ensures { OnOk result
        (text.new.items ≡ text.old.items ++ owing_by set.now owed.now latest.now) }
{
    if let Some(hop) = set.hop(latest.program, owed.hop) {
        let line = owing_line(alloc, owed, hop.server, latest.stamp)?;
        text.extend_from_slice(line.as_bytes())?;
    }
    Ok(())
}

/// Adds the line of a hop.
fn put_owing(
    alloc: Global,
    text: &mut Vec<u8>,
    world: &World,
    chains: &BTreeMap<ChainId, Latest>,
    owed: &OwedHop,
) -> Result<(), Memory>
    requires { (chain : ChainId)
        → get chain_cmp chains.now chain ≡ latest_of world.now.list chain }
    ensures { OnOk result (text.new.items
        ≡ text.old.items ++ owing_text world.now.set world.now.list owed.now) }
{
    if let Some(latest) = chains.get(&owed.chain) {
        put_owed(alloc, text, world.set(), owed, latest)?;
    }
    Ok(())
}

/// A line for each of the hops, which chains of the world owe: what [`list_owed`] writes.
pub fn owing_lines(alloc: Global, world: &World, owed: &[OwedHop]) -> Result<Vec<u8>, Memory>
    ensures { IfOk result
        (λ text. text.items ≡ owing_lines world.now.set world.now.list owed.now) }
{
    let chains = latest_chains(alloc, world)?;
    let mut text = Vec::new(alloc);
    for hop in owed {
        put_owing(alloc, &mut text, world, &chains, hop)?;
    }
    Ok(text)
}

/// Writes a line for each hop that a chain owes, in the world of what these keepers keep, one for
/// each server of the set: `owed CHAIN HOP server S since STAMP`, S the server that is to do it and
/// STAMP that of the last hop that the chain did. They are done once the set is served over these
/// stores. The faults are those of [`crate::audit`].
pub fn list_owed<K: Keeper + Drop, W: Write>(
    alloc: Global,
    set: &ChainSet,
    keepers: Vec<K>,
    writer: &mut W,
) -> Result<(), ServeFault>
    requires { length keepers.items ≡ set.now.servers }
    ensures ok { OnOk result (TellsOwed K.terms set.now keepers.items
        (W.contents writer.old) (W.contents writer.new)) }
    ensures err { IfErr result (BlamesRight K.terms set.now keepers.items) }
{
    let world = kept_world(alloc, set, keepers)?;
    let owed = owed_hops(alloc, &world)?;
    let text = owing_lines(alloc, &world, owed.as_slice())?;
    write_bytes(writer, text.as_slice())?;
    Ok(())
}
