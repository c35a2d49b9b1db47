//! The restarts of servers.
ghost use Rattle.std.specs.Prelude.{◌≡◌, ◌≤◌, ◌<◌, ◌++◌, IfOk, OnOk, drop, length, slice_get};
ghost use Rattle.std.specs.Option.{option_and_then};
ghost use Rattle.lynx_chart.specs.Restarts.{adds_entry, all_restarts, is_done, is_fresh, left_behind, next_stamp, restart_shapes, row_at, stamp_at};
ghost use Rattle.lynx_chart.specs.Shapes.{drawn};

use crate::lines::put_restart;
use crate::listed::listed_at;
use crate::rows::{row_behind, row_of};
use lynx_entry::{Answer, Delivered, Outcome};
use lynx_names::{Memory, ServerId, Stamp};
use lynx_world::{Listed, World};
use std::alloc::Global;

/// Whether an answer comes with an entry.
fn is_fresh(answer: &Answer) -> bool
    ensures { result ≡ is_fresh answer.now }
{
    match answer {
        Answer::Begun { again, .. } | Answer::Refused { again, .. } => !*again,
        _ => false,
    }
}

fn is_done(delivered: &Delivered) -> bool
    ensures { result ≡ is_done delivered.now }
{
    matches!(delivered, Delivered::Done { .. })
}

/// Whether an outcome comes with an entry.
fn adds_entry(outcome: &Outcome) -> bool
    ensures { result ≡ adds_entry outcome.now }
{
    match outcome {
        Outcome::Answered(answer) => is_fresh(answer),
        Outcome::Delivered { delivered, .. } | Outcome::Woken { delivered, .. } => {
            is_done(delivered)
        }
        _ => false,
    }
}

/// The place behind a place, if the list has an entry there.
fn place_after(world: &World, place: usize) -> usize
    requires { place ≤ length world.now.list }
    ensures after { drop result world.now.list ≡ drop 1 (drop place world.now.list) }
    ensures within { result ≤ length world.now.list }
{
    if place < world.len() {
        place + 1
    } else {
        place
    }
}

/// The place of the first entry that comes behind an outcome, when the next is at this place.
fn place_behind(world: &World, outcome: &Outcome, place: usize) -> usize
    requires { place ≤ length world.now.list }
    ensures behind { drop result world.now.list
        ≡ left_behind outcome.now (drop place world.now.list) }
    ensures within { result ≤ length world.now.list }
{
    if adds_entry(outcome) {
        place_after(world, place)
    } else {
        place
    }
}

/// The stamp of the entry at a place, if it is the server's.
fn stamp_at(world: &World, server: ServerId, place: usize) -> Option<Stamp>
    requires { place < length world.now.list }
    ensures { result ≡ option_and_then (stamp_at server) (slice_get world.now.list place) }
{
    let Listed { server: at, entry } = listed_at(world, place);
    if at == server {
        return Some(entry.stamp());
    }
    None
}

/// The stamp of the first of the entries from that place on that is the server's, if one is.
fn next_stamp(world: &World, server: ServerId, from: usize) -> Option<Stamp>
    requires { from ≤ length world.now.list }
    ensures { result ≡ next_stamp server (drop from world.now.list) }
{
    for place in from..world.len() {
        if let Some(stamp) = stamp_at(world, server, place) {
            return Some(stamp);
        }
    }
    None
}

/// The row of that stamp, or the row behind all.
fn row_at(stamps: &[u64], stamp: Option<Stamp>) -> Result<u32, Memory>
    ensures { IfOk result (λ row. row ≡ row_at stamps.now stamp) }
{
    match stamp {
        Some(stamp) => row_of(stamps, stamp),
        None => row_behind(stamps),
    }
}

/// Writes the shape of an outcome, if a server restarted: above its next entry.
fn put_outcome(
    alloc: Global,
    out: &mut Vec<u8>,
    world: &World,
    stamps: &[u64],
    from: usize,
    outcome: &Outcome,
) -> Result<(), Memory>
    requires { from ≤ length world.now.list }
    ensures { OnOk result (out.new.items ≡ out.old.items
        ++ drawn (restart_shapes stamps.now (drop from world.now.list) outcome.now)) }
{
    match outcome {
        Outcome::Restarted { server } => {
            let row = row_at(stamps, next_stamp(world, *server, from))?;
            put_restart(alloc, out, *server, row)
        }
        _ => Ok(()),
    }
}

/// Writes a shape for each restart, of outcomes of which the entries come.
pub(crate) fn put_restarts(
    alloc: Global,
    out: &mut Vec<u8>,
    world: &World,
    stamps: &[u64],
    outcomes: &[Outcome],
) -> Result<(), Memory>
    ensures { OnOk result (out.new.items ≡ out.old.items
        ++ drawn (all_restarts stamps.now world.now.list outcomes.now)) }
{
    let mut place = 0;
    for outcome in outcomes {
        put_outcome(alloc, out, world, stamps, place, outcome)?;
        place = place_behind(world, outcome, place);
    }
    Ok(())
}
