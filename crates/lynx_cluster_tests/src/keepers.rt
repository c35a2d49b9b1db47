//! Keepers for tests.
use crate::trouble::Trouble;
use lynx_fixtures::made::request;
use lynx_fixtures::parts::RequestParts;
use lynx_fixtures::texts::set_of;
use lynx_keep::{FaultKeeper, MemoryKeeper, Planned};
use lynx_names::{Memory, ServerId, Stamp};
use lynx_server::Server;
use std::alloc::Global;

/// Keepers in memory that kept nothing yet.
pub fn empty(alloc: Global, count: u8) -> Result<Vec<MemoryKeeper>, Memory> {
    let mut keepers = Vec::new(alloc);
    for _ in 0..count {
        keepers.push(MemoryKeeper::new(alloc))?;
    }
    Ok(keepers)
}

/// Keepers of which that of one server fails at the commit after so many.
pub fn failing(
    alloc: Global,
    count: u8,
    broken: u8,
    commits: u64,
    planned: Planned,
) -> Result<Vec<FaultKeeper>, Memory> {
    let mut keepers = Vec::new(alloc);
    for number in 0..count {
        let commits = if number == broken { commits } else { u64::MAX };
        keepers.push(FaultKeeper::new(MemoryKeeper::new(alloc), commits, planned))?;
    }
    Ok(keepers)
}

/// The keeper of a server after this began there.
pub fn began(
    alloc: Global,
    text: &str,
    server: ServerId,
    asked: RequestParts,
) -> Result<MemoryKeeper, Trouble> {
    let set = set_of(alloc, text)?;
    let Ok(mut opened) = Server::open(alloc, &set, server, MemoryKeeper::new(alloc)) else {
        return Err(Trouble::Open);
    };
    let _ = opened.begin(alloc, request(alloc, asked)?, Stamp::zero());
    Ok(opened.into_keeper())
}
