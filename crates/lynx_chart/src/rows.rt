//! The rows of a chart.
ghost use Rattle.std.specs.Prelude.{◌≡◌, ◌==◌, IfOk, OnOk, length};
ghost use Rattle.std.specs.List.{list_any};
ghost use Rattle.lynx_chart.specs.Rows.{row_of, spot_at, stamps_of, with_stamp};

use crate::listed::listed_at;
use crate::spot::Spot;
use lynx_names::{Memory, ServerId, Stamp};
use lynx_world::World;
use std::alloc::Global;

/// A row's number, if it isn't too high to be one: a chart of so many rows fits no memory.
pub(crate) fn as_row(count: usize) -> Result<u32, Memory>
    ensures { IfOk result (λ row. row ≡ count) }
{
    match u32::try_from(count) {
        Ok(row) => Ok(row),
        Err(_) => Err(Memory),
    }
}

fn has_stamp(stamps: &[u64], stamp: u64) -> bool
    ensures { result ≡ list_any (λ other. other == stamp) stamps.now }
{
    stamps.contains(&stamp)
}

/// Adds a stamp, if it isn't there.
fn add_stamp(stamps: &mut Vec<u64>, stamp: u64) -> Result<(), Memory>
    ensures { OnOk result (stamps.new.items ≡ with_stamp stamps.old.items stamp) }
{
    if has_stamp(stamps.as_slice(), stamp) {
        return Ok(());
    }
    stamps.push(stamp)?;
    Ok(())
}

/// The stamps of all entries, each once.
pub(crate) fn stamps_of(alloc: Global, world: &World) -> Result<Vec<u64>, Memory>
    ensures { IfOk result (λ stamps. stamps.items ≡ stamps_of world.now.list) }
{
    let mut stamps = Vec::new(alloc);
    for place in 0..world.len() {
        add_stamp(&mut stamps, listed_at(world, place).entry.stamp().time())?;
    }
    Ok(stamps)
}

/// The row of a stamp: how many of the stamps are below it. It goes over all of them.
pub(crate) fn row_of(stamps: &[u64], stamp: Stamp) -> Result<u32, Memory>
    ensures { IfOk result (λ row. row ≡ row_of stamps.now stamp) }
{
    let time = stamp.time();
    as_row(stamps.iter().filter(|other| **other < time).count())
}

/// The row behind those of all stamps.
pub(crate) fn row_behind(stamps: &[u64]) -> Result<u32, Memory>
    ensures { IfOk result (λ row. row ≡ length stamps.now) }
{
    as_row(stamps.len())
}

/// Where the box of a server's entry stands.
pub(crate) fn spot_at(stamps: &[u64], server: ServerId, stamp: Stamp) -> Result<Spot, Memory>
    ensures { IfOk result (λ spot. spot ≡ spot_at stamps.now server stamp) }
{
    let row = row_of(stamps, stamp)?;
    Ok(Spot {
        column: server,
        row,
    })
}
