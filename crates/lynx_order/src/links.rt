//! Whether a cycle that was found is one, link by link.
ghost use Rattle.std.specs.Prelude.{◌≡◌, IsTrue, IfOk, length, map, slice_get};
ghost use Rattle.lynx_order.specs.Lists.{AreDifferent};
ghost use Rattle.lynx_order.specs.Precedence.{Precedes, IsCycle};
ghost use Rattle.lynx_order.specs.inner.Certificates.{AreNumbers};
ghost use Rattle.lynx_order.specs.inner.ChainsAt.{chain_at};
ghost use Rattle.lynx_order.specs.inner.Links.{EachPrecedes, PrecedesNext, chain_of, touches_of_placed};

use crate::ranks::{inverts, ranks_of};
use crate::search::Link;
use crate::touching::{any_collide, touches_in};
use lynx_foot::Touch;
use lynx_names::{ChainId, Items, Memory};
use lynx_set::ChainSet;
use lynx_world::World;
use std::alloc::Global;

/// What the chain's hop touched in the entry of that place.
fn touches_at(
    alloc: Global,
    set: &ChainSet,
    world: &World,
    chain: &ChainId,
    place: usize,
) -> Result<Vec<Touch>, Memory>
    ensures { IfOk result (λ touches. touches.items ≡
        touches_of_placed set.now chain.now (slice_get world.now.list place)) }
{
    match world.entry(place) {
        Some(listed) => touches_in(alloc, set, chain, listed.entry),
        None => Ok(Vec::new(alloc)),
    }
}

/// Whether the one chain precedes the other, as their entries of these places say.
fn precedes(
    alloc: Global,
    set: &ChainSet,
    world: &World,
    one: &ChainId,
    own: usize,
    other: &ChainId,
    next: usize,
) -> Result<bool, Memory>
    ensures { IfOk result
        (λ holds. IsTrue holds → Precedes set.now world.now.list one.now other.now) }
{
    if one == other || own >= next {
        return Ok(false);
    }
    let lefts = touches_at(alloc, set, world, one, own)?;
    let rights = touches_at(alloc, set, world, other, next)?;
    Ok(any_collide(lefts.as_slice(), rights.as_slice()))
}

/// Whether the link's chain precedes that of the next link, as the link's entries say.
fn holds(
    alloc: Global,
    set: &ChainSet,
    world: &World,
    chains: &[ChainId],
    link: &Link,
    next: &Link,
) -> Result<bool, Memory>
    ensures { IfOk result (λ holds. IsTrue holds → Precedes set.now world.now.list
        (chain_of chains.now link.now) (chain_of chains.now next.now)) }
{
    if link.chain >= chains.len() || next.chain >= chains.len() {
        return Ok(false);
    }
    let one = &chains[link.chain];
    let other = &chains[next.chain];
    precedes(alloc, set, world, one, link.own, other, link.next)
}

/// Whether the chain of the link at that place precedes that of the next, and the last link's that
/// of the first.
fn holds_at(
    alloc: Global,
    set: &ChainSet,
    world: &World,
    chains: &[ChainId],
    first: &Link,
    links: &[Link],
    place: usize,
) -> Result<bool, Memory>
    ensures { IfOk result (λ holds. IsTrue holds → PrecedesNext set.now world.now.list chains.now
        first.now links.now place) }
{
    match links.get(place) {
        Some(link) => {
            let next = links.get(place + 1).unwrap_or(first);
            holds(alloc, set, world, chains, link, next)
        }
        None => Ok(true),
    }
}

/// Whether the chain of each link precedes that of the next, that of the last the first.
fn each_precedes(
    alloc: Global,
    set: &ChainSet,
    world: &World,
    chains: &[ChainId],
    first: &Link,
    links: &[Link],
) -> Result<bool, Memory>
    ensures { IfOk result (λ holds. IsTrue holds → EachPrecedes set.now world.now.list chains.now
        first.now links.now) }
{
    for place in 0..links.len() {
        if !holds_at(alloc, set, world, chains, first, links, place)? {
            return Ok(false);
        }
    }
    Ok(true)
}

/// The numbers of the links' chains.
pub(crate) fn numbers_of(alloc: Global, links: &[Link]) -> Result<Items<usize>, Memory>
    ensures { IfOk result (λ numbers. numbers ≡ map (λ link. link.chain) links.now) }
{
    let mut numbers = Items::new(alloc);
    for link in links {
        numbers.push(link.chain)?;
    }
    Ok(numbers)
}

/// Whether the numbers are different ones below the count.
fn are_different(alloc: Global, count: usize, numbers: &[usize]) -> Result<bool, Memory>
    ensures { IfOk result (λ holds. IsTrue holds → AreNumbers count numbers.now) }
{
    let ranks = ranks_of(alloc, numbers, count)?;
    Ok(inverts(numbers, ranks.as_slice()))
}

/// Whether the chains of the links are a cycle: different ones, each of which precedes the next,
/// and the last the first. It looks at two entries for each link.
pub(crate) fn cycle_holds(
    alloc: Global,
    set: &ChainSet,
    world: &World,
    chains: &[ChainId],
    links: &[Link],
    numbers: &[usize],
) -> Result<bool, Memory>
    requires different { AreDifferent chains.now }
    requires numbers { numbers.now ≡ map (λ link. link.chain) links.now }
    ensures cycle { IfOk result (λ holds. IsTrue holds → IsCycle set.now world.now.list
        (map (chain_at chains.now) numbers.now)) }
    ensures numbers { IfOk result
        (λ holds. IsTrue holds → AreNumbers (length chains.now) numbers.now) }
{
    let Some((first, _)) = links.split_first() else {
        return Ok(false);
    };
    if !are_different(alloc, chains.len(), numbers)? {
        return Ok(false);
    }
    each_precedes(alloc, set, world, chains, first, links)
}
