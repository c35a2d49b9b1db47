//! The touches of all chains in one list.
ghost use Rattle.std.specs.Prelude.{◌≡◌, ◌++◌, Some, IfOk, IfSome, OnOk};
ghost use Rattle.lynx_order.specs.Precedence.{touches_in};
ghost use Rattle.lynx_order.specs.inner.Certificates.{HasTouches};
ghost use Rattle.lynx_order.specs.inner.Listing.{chain_in, chain_touches};

use crate::by_origin::{place_of, places_by_origin};
use crate::listed::entry_at;
use crate::search::ChainTouch;
use crate::touching::touches_in;
use lynx_entry::Entry;
use lynx_foot::Touch;
use lynx_names::{ChainId, Memory};
use lynx_set::ChainSet;
use lynx_world::World;
use std::alloc::Global;

/// The chain of which the entry is a hop.
fn chain_in(entry: &Entry) -> Option<ChainId>
    ensures { result ≡ chain_in entry.now }
{
    match entry {
        Entry::Begun(begun) => Some(begun.chain),
        Entry::Refused(_) => None,
        Entry::Hop(ran) => Some(ran.message.chain),
    }
}

/// Adds the touches of a hop of the chain with that number, whose entry stands at that place.
fn add_touches(
    all: &mut Vec<ChainTouch>,
    touches: &[Touch],
    chain: usize,
    place: usize,
) -> Result<(), Memory>
    ensures { OnOk result (all.new.items ≡ all.old.items ++ chain_touches chain place touches.now) }
{
    for touch in touches {
        all.push(ChainTouch {
            touch: *touch,
            chain,
            place,
        })?;
    }
    Ok(())
}

/// The touches of all hops in order of the list, each with the number of its chain among those;
/// none where an entry's chain isn't among them.
fn all_touches(
    alloc: Global,
    set: &ChainSet,
    chains: &[ChainId],
    world: &World,
) -> Result<Option<Vec<ChainTouch>>, Memory>
    ensures { IfOk result (λ found. IfSome found (λ touches.
        HasTouches set.now world.now.list chains.now touches.items)) }
{
    let origins = places_by_origin(alloc, chains)?;
    let mut all = Vec::new(alloc);
    for place in 0..world.len() {
        let entry = entry_at(world, place);
        let Some(chain) = chain_in(entry) else {
            continue;
        };
        let Some(number) = place_of(chains, origins.as_slice(), &chain) else {
            return Ok(None);
        };
        let touches = touches_in(alloc, set, &chain, entry)?;
        add_touches(&mut all, touches.as_slice(), number, place)?;
    }
    Ok(Some(all))
}

/// The same in order of their cells, those of one cell in order of the list.
pub(crate) fn touches_by_cell(
    alloc: Global,
    set: &ChainSet,
    chains: &[ChainId],
    world: &World,
) -> Result<Option<Vec<ChainTouch>>, Memory>
    ensures { IfOk result (λ found. IfSome found (λ touches.
        HasTouches set.now world.now.list chains.now touches.items)) }
{
    let Some(mut touches) = all_touches(alloc, set, chains, world)? else {
        return Ok(None);
    };
    touches.sort_unstable_by_key(|touch| (touch.touch.table, touch.touch.key, touch.place));
    Ok(Some(touches))
}
