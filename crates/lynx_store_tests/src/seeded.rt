//! The payer's store after the worked payment, on disks that stop.
use crate::disks::{Disks, blank_disks, disks_of, open};
use crate::torn::holding;
use lynx_entry::Answer;
use lynx_fixtures::made::request;
use lynx_fixtures::payments::{PAY, SEED};
use lynx_fixtures::texts::{PAYMENT, set_of};
use lynx_keep::Keeper;
use lynx_names::{Memory, ServerId, Stamp};
use lynx_server::Server;
use sqlite::Files;
use std::alloc::Global;

/// Begins the seed and the payment.
fn begin_both<K: Keeper>(alloc: Global, server: &mut Server<K>) -> Result<(), Memory> {
    for asked in [SEED, PAY] {
        match server.begin(alloc, request(alloc, asked)?, Stamp::zero()) {
            Answer::Begun { .. } => {}
            _ => return Err(Memory),
        }
    }
    Ok(())
}

/// The keeper of the payer after both began.
fn paid_over<K: Keeper + Drop>(alloc: Global, keeper: K) -> Result<K, Memory> {
    let set = set_of(alloc, PAYMENT)?;
    let Ok(mut server) = Server::open(alloc, &set, ServerId::first(), keeper) else {
        return Err(Memory);
    };
    begin_both(alloc, &mut server)?;
    Ok(server.into_keeper())
}

/// The files of the payer's store, whose log passes so many calls on, and whose database so many.
pub fn paid_disks(alloc: Global, log: u64, db: u64) -> Result<Disks, Memory> {
    let set = set_of(alloc, PAYMENT)?;
    let lasting = blank_disks(alloc, u64::MAX, u64::MAX);
    let Ok(keeper) = open(alloc, lasting, &set, ServerId::first()) else {
        return Err(Memory);
    };
    let made = disks_of(paid_over(alloc, keeper)?);
    Ok(Files {
        log: holding(alloc, made.log.inner().bytes(), log)?,
        db: holding(alloc, made.db.inner().bytes(), db)?,
    })
}
