//! The hops of a set as a graph: for each hop, the hops by which its program may be left, and those
//! with which it may conflict.
ghost use Rattle.std.specs.Prelude.{◌≡◌, ◌<◌, ◌++◌, IfOk, OnOk, map};
ghost use Rattle.lynx_names.specs.declared.limits.TheConstants.{MAX_PROGRAMS};
ghost use Rattle.lynx_graph.specs.Nodes.{places_in, places_of, exits_among, neighbours_among, node_among, nodes_of};

use crate::meeting::Place;
use crate::place_reaches::{PlaceReaches, each_place_reaches, meet};
use lynx_names::{Items, Memory, ProgramId, ServerId};
use lynx_set::ChainSet;
use std::alloc::Global;

/// A hop by which a program may be left, and its place in the list of nodes.
#[derive(Clone, Copy, Debug, PartialEq, Eq)]
pub struct Exit {
    pub hop: usize,
    pub node: usize,
}

/// A hop with its surroundings. Nodes are named by their places in the list of nodes, in rising
/// order.
#[derive(Debug, Drop)]
pub struct Node {
    pub place: Place,
    pub origin: Option<ServerId>,
    pub exits: Items<Exit>,
    pub neighbours: Items<usize>,
}

fn exits_of(alloc: Global, reached: &[PlaceReaches], place: &Place) -> Result<Vec<Exit>, Memory>
    ensures { IfOk result (λ exits. exits.items ≡ exits_among reached.now place.now) }
{
    let exits = reached
        .iter()
        .enumerate()
        .filter(|(_, other)| other.place.program == place.program)
        .map(|(node, other)| Exit {
            hop: other.place.hop,
            node,
        })
        .collect(alloc)?;
    Ok(exits)
}

fn neighbours_of(
    alloc: Global,
    reached: &[PlaceReaches],
    one: &PlaceReaches,
) -> Result<Vec<usize>, Memory>
    ensures { IfOk result (λ neighbours. neighbours.items ≡ neighbours_among reached.now one.now) }
{
    let neighbours = reached
        .iter()
        .enumerate()
        .filter(|(_, other)| meet(one, other))
        .map(|(node, _)| node)
        .collect(alloc)?;
    Ok(neighbours)
}

fn node_of(
    alloc: Global,
    set: &ChainSet,
    reached: &[PlaceReaches],
    one: &PlaceReaches,
) -> Result<Node, Memory>
    ensures { IfOk result (λ node. node ≡ node_among set.now reached.now one.now) }
{
    Ok(Node {
        place: one.place,
        origin: set.origin(one.place.program),
        exits: Items::from_vec(exits_of(alloc, reached, &one.place)?),
        neighbours: Items::from_vec(neighbours_of(alloc, reached, one)?),
    })
}

/// Adds the hops of a program.
fn add_places(set: &ChainSet, program: ProgramId, places: &mut Items<Place>) -> Result<(), Memory>
    ensures { OnOk result (places.new ≡ places.old ++ places_in set.now program) }
{
    let Some(found) = set.program(program) else {
        return Ok(());
    };
    for hop in 0..found.hops.len() {
        places.push(Place { program, hop })?;
    }
    Ok(())
}

/// The program of that number.
pub fn program_of(number: usize) -> ProgramId
    requires { number < MAX_PROGRAMS }
    ensures { result ≡ number }
{
    ProgramId::new(number as u8).unwrap()
}

/// All hops of the set, by program and then by number.
pub fn places_of(alloc: Global, set: &ChainSet) -> Result<Items<Place>, Memory>
    ensures { IfOk result (λ places. places ≡ places_of set.now) }
{
    let mut places = Items::new(alloc);
    for number in 0..set.programs().len() {
        add_places(set, program_of(number), &mut places)?;
    }
    Ok(places)
}

/// All hops of the set with their surroundings, by program and then by number.
pub fn nodes_of(alloc: Global, set: &ChainSet) -> Result<Items<Node>, Memory>
    ensures { IfOk result (λ nodes. nodes ≡ nodes_of set.now) }
{
    let all = each_place_reaches(alloc, set)?;
    let reached = all.as_slice();
    let mut nodes = Items::new(alloc);
    for one in reached {
        nodes.push(node_of(alloc, set, reached, one)?)?;
    }
    Ok(nodes)
}
