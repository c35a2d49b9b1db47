//! Finding an order that explains a world, or a cycle.
ghost use Rattle.std.specs.Prelude.{◌≡◌, ◌<◌, length, map, All, IfOk, IfSome};
ghost use Rattle.lynx_set.specs.Home.{AreLiteralsHome};
ghost use Rattle.lynx_graph.specs.Acceptance.{IsAccepted};
ghost use Rattle.lynx_world.specs.Legal.{IsLegal};
ghost use Rattle.lynx_order.specs.Lists.{AreDifferent};
ghost use Rattle.lynx_order.specs.inner.Certificates.{IsOrderHeld};
ghost use Rattle.lynx_order.specs.inner.ChainsAt.{chain_at};
ghost use Rattle.lynx_order.specs.Explained.{CycleIsRight, GivesOrder, OrderIsRight};

use crate::begun::begun_chains;
use crate::certificate::order_holds;
use crate::cycle::cycle_from;
use crate::explained::Explained;
use crate::links::{cycle_holds, numbers_of};
use crate::listing::touches_by_cell;
use crate::picked::pick_all;
use crate::picks::first_marked;
use crate::search::{Candidate, ChainTouch, Link, search};
use crate::table::{all_touchings, table_of};
use lynx_names::{ChainId, Items, Memory, learn};
use lynx_set::ChainSet;
use lynx_world::World;
use std::alloc::Global;

/// The chains of these places.
fn chains_at(alloc: Global, chains: &[ChainId], places: &[usize]) -> Result<Items<ChainId>, Memory>
    requires { All (λ place. place < length chains.now) places.now }
    ensures { IfOk result (λ found. found ≡ map (chain_at chains.now) places.now) }
{
    let mut found = Items::new(alloc);
    for place in places {
        found.push(chains[*place])?;
    }
    Ok(found)
}

/// The order that was found, if it holds.
#[tactic(auto, using(crate::proofs::Certified::numbers_among))]
fn certified_order(
    alloc: Global,
    chains: &[ChainId],
    touches: &[ChainTouch],
    order: &[usize],
) -> Result<Option<Explained>, Memory>
    ensures { IfOk result (λ found. IfSome found (IsOrderHeld chains.now touches.now order.now)) }
{
    if !order_holds(alloc, chains.len(), touches, order)? {
        return Ok(None);
    }
    let found = chains_at(alloc, chains, order)?;
    Ok(Some(Explained::Order(found)))
}

/// The cycle that was found, if it holds.
#[tactic(auto, using(crate::proofs::Certified::numbers_among))]
fn certified_cycle(
    alloc: Global,
    set: &ChainSet,
    world: &World,
    chains: &[ChainId],
    links: &[Link],
) -> Result<Option<Explained>, Memory>
    requires { AreDifferent chains.now }
    ensures order { IfOk result (λ found. IfSome found (OrderIsRight set.now world.now.list)) }
    ensures cycle { IfOk result (λ found. IfSome found (CycleIsRight set.now world.now.list)) }
{
    let numbers = numbers_of(alloc, links)?;
    if !cycle_holds(alloc, set, world, chains, links, numbers.as_slice())? {
        return Ok(None);
    }
    let found = chains_at(alloc, chains, numbers.as_slice())?;
    Ok(Some(Explained::Cycle(found)))
}

/// What a search finds, if it holds.
#[tactic(auto, using(crate::proofs::Found::begun_once))]
fn certified(alloc: Global, set: &ChainSet, world: &World) -> Result<Option<Explained>, Memory>
    requires { IsLegal set.now world.now.list }
    ensures order { IfOk result (λ found. IfSome found (OrderIsRight set.now world.now.list)) }
    ensures cycle { IfOk result (λ found. IfSome found (CycleIsRight set.now world.now.list)) }
{
    let begun = Items::from_vec(begun_chains(alloc, world)?);
    let chains = begun.as_slice();
    let Some(touches) = touches_by_cell(alloc, set, chains, world)? else {
        return Ok(None);
    };
    let touches = touches.as_slice();
    match search(alloc, chains.len(), touches)? {
        Candidate::Order(order) => certified_order(alloc, chains, touches, order.as_slice()),
        Candidate::Cycle(links) => certified_cycle(alloc, set, world, chains, links.as_slice()),
    }
}

/// The same by a table of which chains precede which: the way out where what was found doesn't
/// hold.
fn explain_by_table(alloc: Global, set: &ChainSet, world: &World) -> Result<Explained, Memory>
    requires { IsLegal set.now world.now.list }
    ensures order { IfOk result (λ explained. OrderIsRight set.now world.now.list explained) }
    ensures cycle { IfOk result (λ explained. CycleIsRight set.now world.now.list explained) }
{
    let begun = Items::from_vec(begun_chains(alloc, world)?);
    let chains = begun.as_slice();
    let all = all_touchings(alloc, set, chains, world)?;
    let rows = table_of(alloc, all.as_slice())?;
    let table = rows.as_slice();
    let picked = pick_all(alloc, table)?;
    let left = picked.left.as_slice();
    match first_marked(left) {
        None => {
            let found = chains_at(alloc, chains, picked.order.as_slice())?;
            Ok(Explained::Order(found))
        }
        Some(start) => {
            let round = cycle_from(alloc, table, left, start)?;
            let found = chains_at(alloc, chains, round.as_slice())?;
            Ok(Explained::Cycle(found))
        }
    }
}

/// What a search finds, or the table says where that doesn't hold.
fn explain_list(alloc: Global, set: &ChainSet, world: &World) -> Result<Explained, Memory>
    requires { IsLegal set.now world.now.list }
    ensures order { IfOk result (λ explained. OrderIsRight set.now world.now.list explained) }
    ensures cycle { IfOk result (λ explained. CycleIsRight set.now world.now.list explained) }
{
    match certified(alloc, set, world)? {
        Some(explained) => Ok(explained),
        None => explain_by_table(alloc, set, world),
    }
}

/// What a search finds of the world, as `explain` gives it; none where that doesn't hold. No world
/// is known for which it doesn't, but no proof says that there is none.
pub fn explain_by_search(alloc: Global, world: &World) -> Result<Option<Explained>, Memory>
    ensures order { IfOk result
        (λ found. IfSome found (OrderIsRight world.now.set world.now.list)) }
    ensures cycle { IfOk result
        (λ found. IfSome found (CycleIsRight world.now.set world.now.list)) }
{
    certified(alloc, world.set(), world)
}

/// An order of the begun chains that explains what the world's servers did, or a cycle of chains
/// each of which precedes the next.
///
/// The order takes again and again the chain that began first in the world's list among those that
/// no remaining chain precedes. Where each is preceded by one, the cycle is found from the
/// remaining chain that began first, going again and again to the remaining chain that began first
/// among those that precede it; it begins with the chain of the cycle that began first.
///
/// For n touches of all entries it takes time for about n log n steps, and some hundred bytes for
/// each touch.
pub fn explain(alloc: Global, world: &World) -> Result<Explained, Memory>
    ensures order { IfOk result (λ explained. OrderIsRight world.now.set world.now.list explained) }
    ensures cycle { IfOk result (λ explained. CycleIsRight world.now.set world.now.list explained) }
    ensures accepted { IfOk result (λ explained.
        AreLiteralsHome world.now.set → IsAccepted world.now.set → GivesOrder explained) }
{
    let set = world.set();
    // By its type a set has few servers.
    learn(set.servers());
    explain_list(alloc, set, world)
}
