//! Cases of weaving: two histories, what sessions were told, and what comes of it.
use crate::order::{Stamped, is_order};
use crate::told::{ToldParts, sessions};
use lynx_entry::Entry;
use lynx_fixtures::made::{boxed, entries};
use lynx_fixtures::parts::EntryParts;
use lynx_fixtures::texts::set_of;
use lynx_names::Memory;
use lynx_weave::{WeaveFault, weave};
use lynx_world::World;
use std::alloc::Global;

/// What histories weave to.
#[derive(Clone, Copy)]
pub enum Woven {
    /// A world, whose entries are of these servers and stamps.
    World(&'static [Stamped]),
    /// No world has the entry of that server and place.
    Mismatch(u8, u64),
    /// No world has the item of that session and place.
    Told(u64, u64),
}

#[derive(Clone, Copy)]
pub struct Case {
    pub name: &'static str,
    pub set: &'static str,
    /// What server 0 did.
    pub first: &'static [EntryParts],
    /// What server 1 did.
    pub second: &'static [EntryParts],
    pub told: &'static [&'static [ToldParts]],
    pub want: Woven,
}

fn histories(alloc: Global, case: &Case) -> Result<Vec<Vec<Entry>>, Memory> {
    let mut histories = Vec::new(alloc);
    histories.push(entries(alloc, case.first)?)?;
    histories.push(entries(alloc, case.second)?)?;
    Ok(histories)
}

/// What the case's histories weave to, in a box.
fn world_of(alloc: Global, case: &Case) -> Result<Box<World>, WeaveFault> {
    let set = set_of(alloc, case.set)?;
    let told = sessions(alloc, case.told)?;
    let histories = histories(alloc, case)?;
    if histories.len() != usize::from(set.servers()) {
        return Err(WeaveFault::Memory);
    }
    match weave(alloc, &set, histories, told.as_slice()) {
        Ok(world) => Ok(boxed(alloc, Ok(world))?),
        Err(fault) => Err(fault),
    }
}

fn is_world(world: &World, want: Woven) -> bool {
    match want {
        Woven::World(order) => is_order(world, order),
        Woven::Mismatch(..) | Woven::Told(..) => false,
    }
}

fn is_fault(fault: WeaveFault, want: Woven) -> bool {
    match want {
        Woven::World(_) => false,
        Woven::Mismatch(number, at) => match fault {
            WeaveFault::Mismatch { server, place } => server.number() == number && place == at,
            _ => false,
        },
        Woven::Told(of, at) => fault
            == WeaveFault::Told {
                session: of,
                place: at,
            },
    }
}

/// Whether the histories weave to what the case says.
pub fn comes_out(alloc: Global, case: &Case) -> bool {
    match world_of(alloc, case) {
        Ok(world) => is_world(&world, case.want),
        Err(fault) => is_fault(fault, case.want),
    }
}
