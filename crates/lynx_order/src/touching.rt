//! What the hops of a chain touched, and where they stand in the list.
ghost use Rattle.std.specs.Prelude.{◌≡◌, ◌++◌, [], IfOk, OnOk};
ghost use Rattle.std.specs.List.{cons_option, list_any};
ghost use Rattle.lynx_foot.specs.Tests.{collide, some_collide};
ghost use Rattle.lynx_order.specs.Precedence.{touches_in};
ghost use Rattle.lynx_order.specs.Touchings.{stands_before, meet, touching, touchings_of};

use crate::listed::entry_at;
use lynx_entry::Entry;
use lynx_foot::{Touch, touches, touches_collide};
use lynx_names::{ChainId, Items, Memory};
use lynx_set::ChainSet;
use lynx_world::World;
use std::alloc::Global;

/// A hop that touched something: its place in the list, and its touches.
#[derive(Drop)]
pub(crate) struct Touching {
    pub place: usize,
    pub touches: Items<Touch>,
}

/// What the chain's hop touched in an entry: nothing where the entry isn't one of the chain's hops.
pub fn touches_in(
    alloc: Global,
    set: &ChainSet,
    chain: &ChainId,
    entry: &Entry,
) -> Result<Vec<Touch>, Memory>
    ensures { IfOk result (λ touches. touches.items ≡ touches_in set.now chain.now entry.now) }
{
    match entry {
        Entry::Begun(begun) => {
            if begun.chain != *chain {
                return Ok(Vec::new(alloc));
            }
            let request = &begun.request;
            touches(alloc, set, request.program, 0, request.args.as_slice())
        }
        Entry::Refused(_) => Ok(Vec::new(alloc)),
        Entry::Hop(ran) => {
            let message = &ran.message;
            if message.chain != *chain {
                return Ok(Vec::new(alloc));
            }
            touches(
                alloc,
                set,
                message.program,
                usize::from(message.hop),
                message.args.as_slice(),
            )
        }
    }
}

/// Adds the touches at a place, if there are some.
fn add_touching(
    touchings: &mut Items<Touching>,
    place: usize,
    touches: Items<Touch>,
) -> Result<(), Memory>
    ensures { OnOk result (touchings.new ≡ touchings.old ++ cons_option
        (touching place touches) []) }
{
    if touches.is_empty() {
        return Ok(());
    }
    touchings.push(Touching { place, touches })
}

/// The hops of the chain that touched something, in order. It goes over the whole list.
pub(crate) fn touchings_of(
    alloc: Global,
    set: &ChainSet,
    chain: &ChainId,
    world: &World,
) -> Result<Items<Touching>, Memory>
    ensures { IfOk result (λ touchings. touchings ≡ touchings_of set.now world.now.list chain.now) }
{
    let mut touchings = Items::new(alloc);
    for place in 0..world.len() {
        let entry = entry_at(world, place);
        let touches = Items::from_vec(touches_in(alloc, set, chain, entry)?);
        add_touching(&mut touchings, place, touches)?;
    }
    Ok(touchings)
}

fn collides_with_any(left: &Touch, rights: &[Touch]) -> bool
    ensures { result ≡ list_any (λ right. collide left.now right) rights.now }
{
    rights.iter().any(|right| touches_collide(*left, *right))
}

pub(crate) fn any_collide(lefts: &[Touch], rights: &[Touch]) -> bool
    ensures { result ≡ some_collide lefts.now rights.now }
{
    lefts.iter().any(|left| collides_with_any(left, rights))
}

/// Whether the one hop stands before the other, and conflicts with it.
fn stands_before(one: &Touching, other: &Touching) -> bool
    ensures { result ≡ stands_before one.now other.now }
{
    one.place < other.place && any_collide(one.touches.as_slice(), other.touches.as_slice())
}

fn is_before_any(one: &Touching, others: &[Touching]) -> bool
    ensures { result ≡ list_any (λ other. stands_before one.now other) others.now }
{
    others.iter().any(|other| stands_before(one, other))
}

/// Whether some hop of the one chain stands before some hop of the other, and conflicts with it.
pub(crate) fn meet(ones: &[Touching], others: &[Touching]) -> bool
    ensures { result ≡ meet ones.now others.now }
{
    ones.iter().any(|one| is_before_any(one, others))
}
