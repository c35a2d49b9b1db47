//! Payments over stores, in files or in memory, and the opening of a store.
use crate::chains::{Start, begin, deliver, last_sent};
use crate::fault::Fault;
use crate::memory_stores::MemoryStores;
use crate::shape::set_of;
use lynx_keep::Keeper;
use lynx_names::{Memory, ServerId};
use lynx_server::Server;
use lynx_store_files::{Files, Stores};
use std::alloc::Global;

/// A program that fills an account of the first server, and one that pays from it to one of the
/// second. tests/baselines/store.c has the same.
const SET: &str =
    "lynx 1\nservers 2\ntable acct\nshard 0 999 0\nshard 1000 18446744073709551615 1\nprogram seed n\nhop 0\nadd acct 0 n\nend\nprogram pay n\nhop 0\nget x acct 0\nneed x >= n\nsub acct 0 n\nhop 1\nadd acct 1000 n\nend\n";

/// What is measured over stores.
#[derive(Clone, Copy)]
pub enum StoreWork {
    /// So many payments from server to server.
    Pay,
    /// The first server's store is opened so many times.
    Open,
}

/// A payment of 1.
const PAY: Start<'static> = Start {
    server: 0,
    program: 1,
    args: &[1],
};

/// The server over its store in the folder.
fn served<K: Keeper + Drop, S: Stores<K>>(
    alloc: Global,
    stores: &S,
    folder: &str,
    server: ServerId,
) -> Result<Server<K>, Fault> {
    let set = set_of(alloc, SET)?;
    let keeper = stores.open(folder, &set, server)?;
    match Server::open(alloc, &set, server, keeper) {
        Ok(opened) => Ok(opened),
        Err(_) => Err(Fault::Store),
    }
}

/// Begins a payment at the one server, and delivers its message to the other. Whether it came
/// there.
fn pay<K: Keeper>(
    alloc: Global,
    payer: &mut Server<K>,
    payee: &mut Server<K>,
    number: u64,
) -> Result<bool, Memory> {
    begin(alloc, payer, PAY, number)?;
    let message = last_sent(alloc, payer)?;
    Ok(deliver(alloc, payee, message))
}

/// Fills the account, and pays from it so many times. How many of the payments come to their end.
fn pay_often<K: Keeper>(
    alloc: Global,
    payer: &mut Server<K>,
    payee: &mut Server<K>,
    count: u64,
) -> Result<u64, Memory> {
    let seed = Start {
        server: 0,
        program: 0,
        args: &[count.saturating_add(1)],
    };
    begin(alloc, payer, seed, u64::MAX)?;
    let mut paid: u64 = 0;
    for number in 0..count {
        if pay(alloc, payer, payee, number)? {
            paid = paid.wrapping_add(1);
        }
    }
    Ok(paid)
}

/// How many of so many payments come to their end over stores in that folder, which are closed
/// then.
fn pay_over<K: Keeper + Drop, S: Stores<K>>(
    alloc: Global,
    stores: &S,
    folder: &str,
    count: u64,
) -> Result<u64, Fault> {
    let mut payer = served(alloc, stores, folder, ServerId::first())?;
    let mut payee = served(alloc, stores, folder, ServerId::at(1))?;
    let paid = pay_often(alloc, &mut payer, &mut payee, count);
    let payer = stores.close(payer.into_keeper());
    let payee = stores.close(payee.into_keeper());
    let paid = paid?;
    payer?;
    payee?;
    Ok(paid)
}

/// How many entries the first server has in all, where it is opened so many times over its store.
fn open_often<K: Keeper + Drop, S: Stores<K>>(
    alloc: Global,
    stores: &S,
    folder: &str,
    count: u64,
) -> Result<u64, Fault> {
    let mut entries: u64 = 0;
    for _ in 0..count {
        let opened = served(alloc, stores, folder, ServerId::first())?;
        entries = entries.wrapping_add(opened.history().len() as u64);
        drop(opened);
    }
    Ok(entries)
}

/// Does such work over stores in that folder so many times.
fn measure_over<K: Keeper + Drop, S: Stores<K>>(
    alloc: Global,
    stores: &S,
    work: StoreWork,
    folder: &str,
    count: u64,
) -> Result<u64, Fault> {
    match work {
        StoreWork::Pay => pay_over(alloc, stores, folder, count),
        StoreWork::Open => open_often(alloc, stores, folder, count),
    }
}

/// Does such work so many times over stores in that folder, or payments in memory.
pub fn measure_stores(
    rt: &HostRuntime,
    work: StoreWork,
    folder: &str,
    count: u64,
) -> Result<u64, Fault> {
    let alloc = rt.alloc();
    if folder == ":memory:" && matches!(work, StoreWork::Pay) {
        measure_over(alloc, &MemoryStores::new(alloc), work, folder, count)
    } else {
        measure_over(alloc, &Files::new(*rt), work, folder, count)
    }
}
