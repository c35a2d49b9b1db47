//! What changes a store that is there, an upgrade or another set, with a stop at each call, one
//! after another.
use crate::disks::{come_back, connect};
use crate::seeded::paid_disks;
use lynx_fixtures::cells::{Cell, are_cells};
use lynx_fixtures::texts::{PAYMENT, set_of};
use lynx_names::{Memory, ServerId};
use lynx_set::ChainSet;
use lynx_sql::Rising;
use lynx_store::{Inspected, extend_store, inspect, upgrade_store};
use sqlite::{Connection, Files};
use sqlite_disk::Disk;
use std::alloc::Global;
use std::test::Fail;

/// The payment at version 2.
const SECOND: &str =
    "lynx 2\nservers 2\ntable acct\nshard 0 999 0\nshard 1000 18446744073709551615 1\nprogram seed n\nhop 0\nadd acct 0 n\nend\nprogram pay n\nhop 0\nget x acct 0\nneed x >= n\nsub acct 0 n\nhop 1\nadd acct 1000 n\nend\n";

/// The payment, and a program that reads.
const MORE: &str =
    "lynx 1\nservers 2\ntable acct\nshard 0 999 0\nshard 1000 18446744073709551615 1\nprogram seed n\nhop 0\nadd acct 0 n\nend\nprogram pay n\nhop 0\nget x acct 0\nneed x >= n\nsub acct 0 n\nhop 1\nadd acct 1000 n\nend\nprogram read\nhop 1\nget z acct 1000\nend\n";

/// The payment at version 2, with a server and a table more.
const RISEN: &str =
    "lynx 2\nservers 3\ntable acct\nshard 0 999 0\nshard 1000 18446744073709551615 1\ntable note\nshard 0 18446744073709551615 2\nprogram seed n\nhop 0\nadd acct 0 n\nend\nprogram pay n\nhop 0\nget x acct 0\nneed x >= n\nsub acct 0 n\nhop 1\nadd acct 1000 n\nend\n";

/// What the payer's store holds after the worked payment.
const PAID: &[Cell] = &[(0, 0, 70)];

/// How a store is changed, and into that of which set.
#[derive(Clone, Copy)]
struct Change {
    name: &'static str,
    is_upgrade: bool,
    text: &'static str,
    /// As many stops are met at least, in the log and in the database.
    least: (u64, u64),
}

const CHANGES: &[Change] = &[
    Change {
        name: "upgrade",
        is_upgrade: true,
        text: SECOND,
        least: (10, 2),
    },
    Change {
        name: "more programs",
        is_upgrade: false,
        text: MORE,
        least: (4, 2),
    },
    Change {
        name: "more servers",
        is_upgrade: false,
        text: RISEN,
        least: (4, 2),
    },
];

/// Changes an open store. How many entries it tells, none where it fails.
fn changed<S: Rising>(
    alloc: Global,
    conn: &mut Connection<S>,
    change: Change,
    set: &ChainSet,
) -> Option<usize> {
    if change.is_upgrade {
        return upgrade_store(alloc, conn).ok();
    }
    let done = extend_store(alloc, conn, ServerId::first(), set).ok()?;
    Some(done.entries)
}

/// Changes the store on these disks: how many entries that told, and the disks.
fn change_on<D: Disk + Drop>(
    alloc: Global,
    disks: Files<D>,
    change: Change,
    set: &ChainSet,
) -> (Option<usize>, Files<D>) {
    match connect(alloc, disks) {
        Ok(mut conn) => {
            let told = changed(alloc, &mut conn, change, set);
            (told, conn.into_store().close())
        }
        Err(disks) => (None, disks),
    }
}

/// Whether a store holds what the payer's does, and is that of one of these sets.
fn is_of(alloc: Global, held: &Inspected, sets: &[&ChainSet]) -> Result<bool, Memory> {
    let cells = held.loaded.cells.list(alloc)?;
    Ok(
        held.loaded.entries.len() == 2
            && are_cells(cells.as_slice(), PAID)
            && sets.iter().any(|set| held.set.is_same(set)),
    )
}

/// Whether the payer's store on these disks, whole, is that of one of these sets.
fn is_whole<D: Disk + Drop>(
    alloc: Global,
    disks: Files<D>,
    sets: &[&ChainSet],
) -> Result<bool, Memory> {
    let Ok(mut conn) = connect(alloc, disks) else {
        return Ok(false);
    };
    match inspect(alloc, &mut conn) {
        Ok(held) => is_of(alloc, &held, sets),
        Err(_) => Ok(false),
    }
}

/// What comes of a stop at that call: whether the machine did stop, and whether the store is right:
/// changed where that was told, and else as it was or changed.
fn survive(alloc: Global, change: Change, log: u64, db: u64) -> Result<(bool, bool), Memory> {
    let (old, set) = (set_of(alloc, PAYMENT)?, set_of(alloc, change.text)?);
    let (told, left) = change_on(alloc, paid_disks(alloc, log, db)?, change, &set);
    let (has_stopped, left) = come_back(left);
    let stopped = told.is_none() || has_stopped;
    let is_right = match told {
        Some(entries) => entries == 2 && is_whole(alloc, left, &[&set])?,
        None => is_whole(alloc, left, &[&old, &set])?,
    };
    Ok((stopped, is_right))
}

/// How many stops a change meets at the calls of the log, or of the database. None where the store
/// doesn't survive one.
fn stops(alloc: Global, change: Change, of_log: bool) -> Result<Option<u64>, Memory> {
    for calls in 0..1000u64 {
        let (log, db) = if of_log {
            (calls, u64::MAX)
        } else {
            (u64::MAX, calls)
        };
        let (stopped, is_right) = survive(alloc, change, log, db)?;
        if !is_right {
            return Ok(None);
        }
        if !stopped {
            return Ok(Some(calls));
        }
    }
    Ok(None)
}

#[test]
fn each_stop_of_a_change_is_survived(rt: HostRuntime) -> Result<(), Fail> {
    for change in CHANGES {
        for (of_log, least) in [(true, change.least.0), (false, change.least.1)] {
            let stops = stops(rt.alloc(), *change, of_log)?.unwrap_or(0);
            assert!(rt; stops >= least, "{}, {of_log}: {stops} stops", change.name);
        }
    }
    Ok(())
}
