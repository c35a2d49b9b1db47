//! The two servers of the payment, made of what they did.
use lynx_fixtures::made::{entries, server};
use lynx_fixtures::parts::EntryParts;
use lynx_fixtures::payments::{AT_FIRST, AT_SECOND};
use lynx_keep::MemoryKeeper;
use lynx_names::{Memory, ServerId};
use lynx_server::{Server, rebuild};
use lynx_set::ChainSet;
use std::alloc::Global;

/// A server that did this.
pub fn server_after(
    alloc: Global,
    set: &ChainSet,
    server: ServerId,
    history: &[EntryParts],
) -> Result<Server<MemoryKeeper>, Memory> {
    let history = entries(alloc, history)?;
    match rebuild(alloc, set, server, history) {
        Ok(server) => Ok(server),
        Err(_) => Err(Memory),
    }
}

/// The payer's server after the payment.
pub fn payer(alloc: Global, set: &ChainSet) -> Result<Server<MemoryKeeper>, Memory> {
    server_after(alloc, set, ServerId::first(), AT_FIRST)
}

/// What it keeps.
pub fn payer_keeper(alloc: Global, set: &ChainSet) -> Result<MemoryKeeper, Memory> {
    Ok(payer(alloc, set)?.into_keeper())
}

/// What the payee's server keeps after it.
pub fn payee_keeper(alloc: Global, set: &ChainSet) -> Result<MemoryKeeper, Memory> {
    let payee = server_after(alloc, set, server(1)?, AT_SECOND)?;
    Ok(payee.into_keeper())
}
