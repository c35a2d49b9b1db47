//! The hops of a set with their reaches, each made once, so that each two can be asked whether they
//! may conflict.
ghost use Rattle.std.specs.Prelude.{◌≡◌, IfOk};
ghost use Rattle.std.specs.List.{list_any};
ghost use Rattle.lynx_foot.specs.Tests.{may_collide, some_may_collide};
ghost use Rattle.lynx_set.specs.Lookups.{server_at};
ghost use Rattle.lynx_graph.specs.Nodes.{meet, place_reaches_of, each_place_reaches};

use crate::meeting::{Place, same_server};
use crate::nodes::places_of;
use lynx_foot::{Reach, reaches, reaches_may_collide};
use lynx_names::{Items, Memory, ServerId};
use lynx_set::ChainSet;
use std::alloc::Global;

/// A hop, its server and its reaches.
#[derive(Drop)]
pub(crate) struct PlaceReaches {
    pub place: Place,
    pub server: Option<ServerId>,
    pub reaches: Items<Reach>,
}

/// Whether the reach may collide with one of these.
fn may_collide_with_any(left: &Reach, rights: &[Reach]) -> bool
    ensures { result ≡ list_any (λ right. may_collide left.now right) rights.now }
{
    rights
        .iter()
        .any(|right| reaches_may_collide(*left, *right))
}

fn some_may_collide(lefts: &[Reach], rights: &[Reach]) -> bool
    ensures { result ≡ some_may_collide lefts.now rights.now }
{
    lefts.iter().any(|left| may_collide_with_any(left, rights))
}

/// Whether the hops may conflict.
pub(crate) fn meet(left: &PlaceReaches, right: &PlaceReaches) -> bool
    ensures { result ≡ meet left.now right.now }
{
    same_server(left.server, right.server)
        && some_may_collide(left.reaches.as_slice(), right.reaches.as_slice())
}

fn server_at(set: &ChainSet, place: &Place) -> Option<ServerId>
    ensures { result ≡ server_at set.now place.now.program place.now.hop }
{
    let hop = set.hop(place.program, place.hop)?;
    Some(hop.server)
}

fn place_reaches_of(alloc: Global, set: &ChainSet, place: &Place) -> Result<PlaceReaches, Memory>
    ensures { IfOk result (λ one. one ≡ place_reaches_of set.now place.now) }
{
    Ok(PlaceReaches {
        place: *place,
        server: server_at(set, place),
        reaches: Items::from_vec(reaches(alloc, set, place.program, place.hop)?),
    })
}

/// All hops of the set, by program and then by number.
pub(crate) fn each_place_reaches(
    alloc: Global,
    set: &ChainSet,
) -> Result<Items<PlaceReaches>, Memory>
    ensures { IfOk result (λ reached. reached ≡ each_place_reaches set.now) }
{
    let all = places_of(alloc, set)?;
    let places = all.as_slice();
    let mut reached = Items::new(alloc);
    for place in places {
        reached.push(place_reaches_of(alloc, set, place)?)?;
    }
    Ok(reached)
}
