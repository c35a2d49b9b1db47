//! Cases: a server of a set, and rows of steps.
use crate::steps::{Call, comes_out};
use lynx_fixtures::made::{self, boxed};
use lynx_fixtures::texts::set_of;
use lynx_keep::{FaultKeeper, MemoryKeeper, Planned};
use lynx_names::Memory;
use lynx_server::Server;
use std::alloc::Global;

/// A step, and how many entries and how many held messages the server has then.
pub type Row = (Call, usize, usize);

/// A server of a set, and what is done to it.
#[derive(Clone, Copy)]
pub struct Case {
    pub name: &'static str,
    pub set: &'static str,
    pub server: u8,
    /// After how many commits of its keeper which fault comes.
    pub fails: (u64, Planned),
    /// The rows between two restarts.
    pub lives: &'static [&'static [Row]],
}

/// No commit fails.
pub const NEVER: (u64, Planned) = (u64::MAX, Planned::Memory);

/// A server, in a box, which is dropped by one call.
pub type Boxed = Box<Server<FaultKeeper>>;

/// The server of a case, to which nothing was done.
pub fn made(alloc: Global, case: &Case) -> Result<Boxed, Memory> {
    let (commits, planned) = case.fails;
    let server = made::server(case.server)?;
    let set = set_of(alloc, case.set)?;
    let keeper = FaultKeeper::new(MemoryKeeper::new(alloc), commits, planned);
    boxed(alloc, Server::new(alloc, &set, server, keeper))
}

/// The server, opened again over its keeper.
fn restarted(alloc: Global, server: Boxed) -> Result<Boxed, Memory> {
    match Box::into_inner(server).restart(alloc) {
        Ok(server) => boxed(alloc, Ok(server)),
        Err(_) => Err(Memory),
    }
}

/// Does the steps. Whether each comes out so.
pub fn come_out(
    alloc: Global,
    server: &mut Server<FaultKeeper>,
    rows: &[Row],
) -> Result<bool, Memory> {
    for (step, entries, held) in rows {
        let is_so = comes_out(alloc, server, step)?;
        if !is_so || server.history().len() != *entries || server.held().len() != *held {
            return Ok(false);
        }
    }
    Ok(true)
}

/// How many lives of the server come out as the case says, before one that doesn't or before its
/// end.
pub fn lives(alloc: Global, case: &Case) -> Result<usize, Memory> {
    let mut server = made(alloc, case)?;
    for (count, rows) in case.lives.iter().enumerate() {
        if !come_out(alloc, &mut server, rows)? {
            return Ok(count);
        }
        server = restarted(alloc, server)?;
    }
    Ok(case.lives.len())
}
