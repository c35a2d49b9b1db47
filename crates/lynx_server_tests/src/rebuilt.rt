//! Servers that are made of a history, or opened over what a keeper keeps.
use lynx_entry::Answer;
use lynx_fixtures::made::{boxed, entries, request};
use lynx_fixtures::parts::{EntryParts, RequestParts};
use lynx_fixtures::payments::{AT_FIRST, PAID, PAY};
use lynx_fixtures::texts::{PAYMENT, set_of};
use lynx_keep::{Keeper, MemoryKeeper};
use lynx_names::{ServerId, Stamp};
use lynx_server::{OpenFault, Server, rebuild};
use std::alloc::Global;

/// Server 0 of the set, made of these entries, in a box.
pub fn rebuilt(
    alloc: Global,
    text: &str,
    parts: &[EntryParts],
) -> Result<Box<Server<MemoryKeeper>>, OpenFault> {
    let set = set_of(alloc, text)?;
    let entries = entries(alloc, parts)?;
    match rebuild(alloc, &set, ServerId::first(), entries) {
        Ok(server) => Ok(boxed(alloc, Ok(server))?),
        Err(fault) => Err(fault),
    }
}

/// The next payment.
const NEXT: RequestParts = RequestParts {
    number: 3,
    args: &[20],
    ..PAY
};

/// How many entries are kept after the next payment, whose stamp is 3.
fn goes_on(alloc: Global, mut server: Box<Server<MemoryKeeper>>) -> Result<usize, OpenFault> {
    let request = request(alloc, NEXT)?;
    match server.begin(alloc, request, Stamp::zero()) {
        Answer::Begun { stamp, .. } if stamp.time() == 3 => {}
        _ => return Ok(0),
    }
    let mut keeper = Box::into_inner(server).into_keeper();
    let kept = keeper.load(alloc)?;
    Ok(kept.entries.len())
}

fn rebuilds(alloc: Global) -> Result<bool, OpenFault> {
    let server = rebuilt(alloc, PAYMENT, AT_FIRST)?;
    Ok(goes_on(alloc, server)? == 3)
}

#[test]
fn a_rebuilt_server_goes_on(rt: HostRuntime) {
    let alloc = rt.alloc();
    assert!(rt; rebuilds(alloc) == Ok(true));
    let unlawful = rebuilt(alloc, PAYMENT, &[EntryParts::Begun(PAID)]).err();
    assert!(rt; unlawful == Some(OpenFault::Damaged { place: 0 }));
}

/// A keeper of no entries, and of the cells that the seed and the payment leave.
fn altered(alloc: Global) -> Result<MemoryKeeper, OpenFault> {
    let server = rebuilt(alloc, PAYMENT, AT_FIRST)?;
    Ok(MemoryKeeper::keeping(alloc, &[], server.cells())?)
}

/// Why no server is opened over such a keeper.
fn damage(alloc: Global) -> Result<Option<OpenFault>, OpenFault> {
    let set = set_of(alloc, PAYMENT)?;
    let keeper = altered(alloc)?;
    Ok(Server::open(alloc, &set, ServerId::first(), keeper).err())
}

#[test]
fn other_cells_are_found(rt: HostRuntime) {
    assert!(rt; damage(rt.alloc()) == Ok(Some(OpenFault::Damaged { place: 0 })));
}
