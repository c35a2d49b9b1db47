//! Where the chains that began stand among themselves, by their names.
ghost use Rattle.std.specs.Prelude.{◌≡◌, Some, IfSome, slice_get};

use lynx_names::limits::MAX_SERVERS;
use lynx_names::{ChainId, Items, Memory};
use std::alloc::Global;

/// For each origin the places of its chains, in order. A chain's index counts the chains that began
/// at its origin before, so it is the chain's place in that list.
pub(crate) fn places_by_origin(
    alloc: Global,
    chains: &[ChainId],
) -> Result<Items<Vec<usize>>, Memory> {
    let mut origins = Vec::new(alloc);
    for _ in 0..MAX_SERVERS {
        origins.push(Vec::new(alloc))?;
    }
    for (place, chain) in chains.iter().enumerate() {
        if let Some(places) = origins.get_mut(chain.origin.index()) {
            places.push(place)?;
        }
    }
    Ok(Items::from_vec(origins))
}

/// The place of that chain. The chain that is found is compared, so nothing is asked of the lists.
pub(crate) fn place_of(chains: &[ChainId], origins: &[Vec<usize>], chain: &ChainId) -> Option<usize>
    ensures { IfSome result (λ place. slice_get chains.now place ≡ Some chain.now) }
{
    let index = usize::try_from(chain.index).ok()?;
    let place = *origins.get(chain.origin.index())?.get(index)?;
    if chains.get(place)? == chain {
        Some(place)
    } else {
        None
    }
}
