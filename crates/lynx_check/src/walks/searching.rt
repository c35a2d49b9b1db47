use crate::walks::closing::levels_of;
use crate::walks::map::Map;
use crate::walks::tracing::read_walk;
use lynx_graph::visit::Walk;
use lynx_names::Memory;
use std::alloc::Global;

/// The walk with the fewest visits of all that offend; of those the one whose list of conflict
/// edges (program, hop left, next program, hop entered) is the least, beginning with the visit
/// whose leaving edge stands first in that list.
///
/// For each of at most 512 hops it goes once through at most 2,048 marks, each with a row of 512
/// bits.
pub(crate) fn least_walk(alloc: Global, map: &Map) -> Result<Option<Walk>, Memory> {
    let mut best: Option<Walk> = None;
    for (place, start) in map.nodes.as_slice().iter().enumerate() {
        let limit = match &best {
            Some(walk) => Some(walk.len().saturating_sub(2)),
            None => None,
        };
        if let Some(levels) = levels_of(alloc, map, start, place, limit)? {
            if let Some(walk) = read_walk(alloc, map, start, levels.as_slice())? {
                best = Some(walk);
            }
        }
    }
    Ok(best)
}
