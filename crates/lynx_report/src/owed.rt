//! The hops that the chains of a world still owe: docs/FORMATS.md has their lines.
ghost use Rattle.std.specs.Prelude.{◌≡◌, ◌++◌, true, ℕ, List, IfErr, IfOk, OnErr, OnOk};
ghost use Rattle.std.specs.BTreeMap.{IsOrdered};
ghost use Rattle.std.specs.Io.KnownBytes.{Appends};
ghost use Rattle.std.specs.List.{flat_map};
ghost use Rattle.std.specs.String.{string_bytes};
ghost use Rattle.lynx_report.specs.Options.{RestPrints, WritesRest};
ghost use Rattle.lynx_report.specs.Owed.{AreTheOwed, chain_cmp, owed_line, owed_lines};
ghost use Rattle.lynx_report.specs.Runs.{IsLate};
ghost use Rattle.lynx_report.specs.Written.{AppendsPart};
ghost use Rattle.lynx_report.specs.inner.Reached.{left_of};

use crate::reached::{Reached, reached_chains};
use crate::run::RunFault;
use crate::writing::write_bytes;
use lynx_names::{ChainId, Memory};
use lynx_set::ChainSet;
use lynx_world::World;
use std::alloc::{AllocError, Global};
use std::collections::BTreeMap;
use std::fmt::Write as _;
use std::io::Write;

/// A hop of a chain that began, which no server has done yet.
#[derive(Clone, Copy, Debug, PartialEq, Eq)]
pub struct OwedHop {
    pub chain: ChainId,
    pub hop: usize,
}

/// Adds the hops of a chain that are left.
fn add_left(
    owed: &mut Vec<OwedHop>,
    set: &ChainSet,
    chain: &ChainId,
    reached: &Reached,
) -> Result<(), Memory>
    ensures { OnOk result
        (owed.new.items ≡ owed.old.items ++ left_of set.now (chain.now, reached.now)) }
{
    for hop in reached.next..set.hops(reached.program).len() {
        owed.push(OwedHop { chain: *chain, hop })?;
    }
    Ok(())
}

/// The hops that are left of each of the chains.
fn left_hops(
    alloc: Global,
    set: &ChainSet,
    chains: &BTreeMap<ChainId, Reached>,
) -> Result<Vec<OwedHop>, Memory>
    ensures ordered { IfOk result (λ owed. IsOrdered chain_cmp chains.now) }
    ensures left { IfOk result (λ owed. owed.items
        ≡ flat_map (left_of set.now) chains.now.entries) }
{
    let mut owed = Vec::new(alloc);
    for (chain, reached) in chains {
        add_left(&mut owed, set, chain, reached)?;
    }
    Ok(owed)
}

/// The hops that the chains of the world still owe, by origin, index and hop. It takes n log n
/// steps for n entries.
pub fn owed_hops(alloc: Global, world: &World) -> Result<Vec<OwedHop>, Memory>
    ensures { IfOk result (λ owed. AreTheOwed world.now.set world.now.list owed.items) }
{
    let chains = reached_chains(alloc, world)?;
    left_hops(alloc, world.set(), &chains)
}

/// The line of an owed hop.
fn owed_line(alloc: Global, owed: &OwedHop) -> Result<String, AllocError>
    ensures { IfOk result (λ text. string_bytes text ≡ owed_line owed.now) }
{
    let (chain, hop) = (&owed.chain, owed.hop);
    let mut text = String::new(alloc);
    write!(text, "owed {chain} {hop}")?;
    text.push_str("\n")?;
    Ok(text)
}

/// Writes a line for each of the owed hops.
fn write_each_owed<W: Write>(
    alloc: Global,
    owed: &[OwedHop],
    writer: &mut W,
) -> Result<(), RunFault>
    ensures lines { OnOk result (Appends (W.contents writer.old) (W.contents writer.new)
        (owed_lines owed.now)) }
    ensures part { OnErr result (AppendsPart (W.contents writer.old) (W.contents writer.new)
        (owed_lines owed.now)) }
    ensures late { IfErr result IsLate }
{
    for hop in owed {
        let line = owed_line(alloc, hop)?;
        write_bytes(writer, line.as_bytes())?;
    }
    Ok(())
}

/// Writes a line for each hop that the chains of the world still owe.
pub(crate) fn write_owed<W: Write>(
    alloc: Global,
    world: &World,
    writer: &mut W,
) -> Result<(), RunFault>
    ensures ok { OnOk result ((printed : List ℕ)
        × RestPrints true world.now.set world.now.list printed
        × Appends (W.contents writer.old) (W.contents writer.new) printed) }
    ensures part { OnErr result (WritesRest true world.now.set world.now.list
        (W.contents writer.old) (W.contents writer.new)) }
    ensures late { IfErr result IsLate }
{
    let owed = owed_hops(alloc, world)?;
    write_each_owed(alloc, owed.as_slice(), writer)
}
