//! Where one chain of a cycle comes before the next.
ghost use Rattle.std.specs.Prelude.{◌≡◌, ◌<◌, ◌+◌, IfOk, Some, drop, length, option_map, slice_get};
ghost use Rattle.std.specs.List.{list_any};
ghost use Rattle.std.specs.Option.{option_and_then};
ghost use Rattle.lynx_foot.specs.Tests.{collide};
ghost use Rattle.lynx_world.specs.Servers.{placed_as};
ghost use Rattle.lynx_chart.specs.Meetings.{linked, meeting_behind, meeting_from, meeting_of, meeting_with, node_of, touch_met};

use crate::listed::listed_at;
use lynx_foot::{Touch, touches_collide};
use lynx_names::{ChainId, Memory, ServerId, Stamp, TableId};
use lynx_order::touches_in;
use lynx_world::{Listed, World};
use std::alloc::{AllocError, Global};

/// Where an entry stands.
#[derive(Clone, Copy)]
pub(crate) struct Node {
    pub server: ServerId,
    pub stamp: Stamp,
}

/// The entries of two hops, the one before the other, and the cell at which they collide.
#[derive(Clone, Copy)]
pub(crate) struct Meeting {
    pub before: Node,
    pub after: Node,
    pub table: TableId,
    pub key: u64,
}

fn collides_with_any(left: Touch, rights: &[Touch]) -> bool
    ensures { result ≡ list_any (collide left) rights.now }
{
    rights.iter().any(|right| touches_collide(left, *right))
}

/// The first of these touches that collides with one of the others.
fn touch_met(lefts: &[Touch], rights: &[Touch]) -> Option<Touch>
    ensures { result ≡ touch_met lefts.now rights.now }
{
    lefts
        .iter()
        .copied()
        .find(|left| collides_with_any(*left, rights))
}

/// Where an entry stands.
fn node_of(listed: &Listed<'_>) -> Node
    ensures { Some result ≡ option_map node_of (placed_as (Some listed.now)) }
{
    Node {
        server: listed.server,
        stamp: listed.entry.stamp(),
    }
}

/// The meeting of an entry, whose hop touched that, with the entry at a place, if that is of the
/// chain and collides.
fn meeting_with(
    alloc: Global,
    world: &World,
    other: &ChainId,
    before: &Node,
    touches: &[Touch],
    place: usize,
) -> Result<Option<Meeting>, Memory>
    requires { place < length world.now.list }
    ensures { IfOk result (λ met. met
        ≡ option_and_then (meeting_with world.now.set other.now before.now touches.now)
        (slice_get world.now.list place)) }
{
    let listed = listed_at(world, place);
    let others = touches_in(alloc, world.set(), other, listed.entry)?;
    match touch_met(touches, others.as_slice()) {
        Some(touch) => Ok(Some(Meeting {
            before: *before,
            after: node_of(&listed),
            table: touch.table,
            key: touch.key,
        })),
        None => Ok(None),
    }
}

/// The first meeting with an entry behind that place.
fn meeting_behind(
    alloc: Global,
    world: &World,
    other: &ChainId,
    before: &Node,
    touches: &[Touch],
    place: usize,
) -> Result<Option<Meeting>, Memory>
    requires { place < length world.now.list }
    ensures { IfOk result (λ met. met
        ≡ meeting_behind world.now.set other.now before.now touches.now
        (drop (place + 1) world.now.list)) }
{
    let end = world.len();
    for later in place + 1..end {
        if let Some(met) = meeting_with(alloc, world, other, before, touches, later)? {
            return Ok(Some(met));
        }
    }
    Ok(None)
}

/// The first meeting of the entry at that place with one behind it.
fn meeting_from(
    alloc: Global,
    world: &World,
    one: &ChainId,
    other: &ChainId,
    place: usize,
) -> Result<Option<Meeting>, Memory>
    requires { place < length world.now.list }
    ensures { IfOk result (λ met. met ≡ option_and_then
        (λ before. meeting_from world.now.set one.now other.now before
        (drop (place + 1) world.now.list)) (slice_get world.now.list place)) }
{
    let listed = listed_at(world, place);
    let found = touches_in(alloc, world.set(), one, listed.entry)?;
    let touches = found.as_slice();
    if touches.is_empty() {
        return Ok(None);
    }
    meeting_behind(alloc, world, other, &node_of(&listed), touches, place)
}

/// The first entries by which the one chain precedes the other, and the first cell at which they
/// do. It goes over the list once, and once more behind each entry of the one chain.
pub(crate) fn meeting_of(
    alloc: Global,
    world: &World,
    one: &ChainId,
    other: &ChainId,
) -> Result<Option<Meeting>, Memory>
    ensures { IfOk result (λ met. met ≡ meeting_of world.now.set one.now other.now world.now.list) }
{
    for place in 0..world.len() {
        if let Some(met) = meeting_from(alloc, world, one, other, place)? {
            return Ok(Some(met));
        }
    }
    Ok(None)
}

/// Each chain with the next, and the last with the first.
pub(crate) fn linked(
    alloc: Global,
    chains: &[ChainId],
) -> Result<Vec<(ChainId, ChainId)>, AllocError>
    ensures { IfOk result (λ links. links.items ≡ linked chains.now) }
{
    let next = chains.iter().skip(1).chain(chains.iter().take(1));
    chains
        .iter()
        .zip(next)
        .map(|(chain, next)| (*chain, *next))
        .collect(alloc)
}
