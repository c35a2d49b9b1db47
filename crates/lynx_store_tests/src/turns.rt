//! A turn of several steps that are settled together, with a stop at each call of its store, one
//! after another: three begins, of which one is refused and one clashes, and two messages.
use crate::disks::{Disks, blank_disks, come_back, disks_of, open};
use crate::torn::holding;
use lynx_entry::{Answer, Delivered, Message};
use lynx_fixtures::cells::{Cell, are_cells};
use lynx_fixtures::made::{request, server};
use lynx_fixtures::parts::RequestParts;
use lynx_fixtures::texts::set_of;
use lynx_keep::{BatchKeeper, Keeper, MemoryKeeper};
use lynx_names::{Memory, ServerId, Stamp};
use lynx_resting::Resting;
use lynx_server::Server;
use sqlite::Files;
use std::alloc::Global;
use std::test::Fail;

/// Payments from server 0 to server 1, and back.
const BOTH_WAYS: &str =
    "lynx 1\nservers 2\ntable acct\nshard 0 999 0\nshard 1000 18446744073709551615 1\nprogram seed n\nhop 0\nadd acct 0 n\nend\nprogram pay n\nhop 0\nget x acct 0\nneed x >= n\nsub acct 0 n\nhop 1\nadd acct 1000 n\nend\nprogram back n\nhop 1\nadd acct 1000 n\nhop 0\nadd acct 0 n\nend\n";

const SEEDED: RequestParts = RequestParts {
    client: 1,
    number: 1,
    program: 0,
    args: &[100],
};

/// What the turn asks: a payment, one that is too large, and another request under a number that
/// was used.
const PAID: RequestParts = RequestParts {
    number: 2,
    program: 1,
    args: &[30],
    ..SEEDED
};

const TOO_LARGE: RequestParts = RequestParts {
    number: 3,
    program: 1,
    args: &[1_000],
    ..SEEDED
};

const CLASHING: RequestParts = RequestParts {
    args: &[7],
    ..SEEDED
};

/// What comes back from server 1.
const BACK: [RequestParts; 2] = [
    RequestParts {
        client: 2,
        number: 1,
        program: 2,
        args: &[5],
    },
    RequestParts {
        client: 2,
        number: 2,
        program: 2,
        args: &[6],
    },
];

/// What the store holds before the turn, and after it: 100 - 30 + 5 + 6.
const BEFORE: (usize, &[Cell]) = (1, &[(0, 0, 100)]);

const AFTER: (usize, &[Cell]) = (5, &[(0, 0, 81)]);

/// The messages of two payments back.
fn messages(alloc: Global) -> Result<Vec<Message>, Memory> {
    let set = set_of(alloc, BOTH_WAYS)?;
    let Ok(mut sender) = Server::open(alloc, &set, server(1)?, MemoryKeeper::new(alloc)) else {
        return Err(Memory);
    };
    let mut messages = Vec::new(alloc);
    for (place, asked) in BACK.into_iter().enumerate() {
        let _ = sender.begin(alloc, request(alloc, asked)?, Stamp::zero());
        if let Some((_, message)) = sender.messages_due(alloc, place as u64)? {
            messages.push(message)?;
        }
    }
    Ok(messages)
}

/// The server over that keeper. None where it doesn't open.
fn opened<K: Keeper + Drop>(alloc: Global, keeper: K) -> Result<Option<Server<K>>, Memory> {
    let set = set_of(alloc, BOTH_WAYS)?;
    Ok(Server::open(alloc, &set, ServerId::first(), keeper).ok())
}

/// The files of server 0's store after the seed, whose log passes so many calls on, and whose
/// database so many.
fn seeded_disks(alloc: Global, log: u64, db: u64) -> Result<Disks, Memory> {
    let set = set_of(alloc, BOTH_WAYS)?;
    let lasting = blank_disks(alloc, u64::MAX, u64::MAX);
    let Ok(keeper) = open(alloc, lasting, &set, ServerId::first()) else {
        return Err(Memory);
    };
    let Some(mut server) = opened(alloc, keeper)? else {
        return Err(Memory);
    };
    let _ = server.begin(alloc, request(alloc, SEEDED)?, Stamp::zero());
    let made = disks_of(server.into_keeper());
    Ok(Files {
        log: holding(alloc, made.log.inner().bytes(), log)?,
        db: holding(alloc, made.db.inner().bytes(), db)?,
    })
}

/// Makes the steps of the turn. Whether each came to what it should.
fn takes_turn<K: BatchKeeper>(alloc: Global, resting: &mut Resting<K>) -> Result<bool, Memory> {
    let paid = resting.begin(alloc, request(alloc, PAID)?, Stamp::zero());
    let refused = resting.begin(alloc, request(alloc, TOO_LARGE)?, Stamp::zero());
    let clash = resting.begin(alloc, request(alloc, CLASHING)?, Stamp::zero());
    let mut are_done = true;
    for message in messages(alloc)? {
        let delivered = resting.deliver(alloc, message);
        are_done = are_done && matches!(delivered, Delivered::Done { .. });
    }
    Ok(
        are_done
            && matches!(paid, Answer::Begun { .. })
            && matches!(refused, Answer::Refused { .. })
            && matches!(clash, Answer::Clash),
    )
}

/// What is read of the server is this much, and no more.
fn shows<K: BatchKeeper>(resting: &Resting<K>, settled: usize) -> bool {
    resting.settled().len() == settled && resting.mark().settled() == settled
}

/// The turn over a keeper: whether it told that it settled, and whether nothing was to be seen of
/// it before. None where the server doesn't open.
fn turn_over<K: BatchKeeper + Drop>(
    alloc: Global,
    keeper: K,
) -> Result<Option<(bool, bool, K)>, Memory> {
    let Some(server) = opened(alloc, keeper)? else {
        return Ok(None);
    };
    let mut resting = Resting::new(alloc, server);
    let is_hidden = takes_turn(alloc, &mut resting)? && shows(&resting, BEFORE.0);
    let is_settled = resting.settle(alloc);
    let shown = if is_settled { AFTER.0 } else { BEFORE.0 };
    let is_right = is_hidden
        && shows(&resting, shown)
        && resting.mark().is_stopped() == !is_settled;
    Ok(Some((is_settled, is_right, resting.into_keeper())))
}

/// Whether a store holds just that.
fn holds(alloc: Global, disks: Disks, want: (usize, &[Cell])) -> Result<bool, Memory> {
    let set = set_of(alloc, BOTH_WAYS)?;
    let Ok(mut keeper) = open(alloc, disks, &set, ServerId::first()) else {
        return Ok(false);
    };
    let Ok(loaded) = keeper.load(alloc) else {
        return Ok(false);
    };
    let cells = loaded.cells.list(alloc)?;
    Ok(loaded.entries.len() == want.0 && are_cells(cells.as_slice(), want.1))
}

/// What comes of a stop at that call: whether the machine did stop, and whether all is right: the
/// store holds the whole turn where that was told, and else that or nothing of it.
fn survive(alloc: Global, log: u64, db: u64) -> Result<(bool, bool), Memory> {
    let set = set_of(alloc, BOTH_WAYS)?;
    let keeper = match open(
        alloc,
        seeded_disks(alloc, log, db)?,
        &set,
        ServerId::first(),
    ) {
        Ok(keeper) => keeper,
        Err(left) => {
            let (_, left) = come_back(left);
            return Ok((true, holds(alloc, left, BEFORE)?));
        }
    };
    let Some((is_settled, is_right, keeper)) = turn_over(alloc, keeper)? else {
        return Ok((true, true));
    };
    let (has_stopped, left) = come_back(disks_of(keeper));
    let survives = holds_either(alloc, left, is_settled)?;
    Ok((has_stopped || !is_settled, is_right && survives))
}

/// Whether the store holds the whole turn, or where that wasn't told, nothing of it.
fn holds_either(alloc: Global, disks: Disks, is_settled: bool) -> Result<bool, Memory> {
    let bytes = Files {
        log: holding(alloc, disks.log.inner().bytes(), u64::MAX)?,
        db: holding(alloc, disks.db.inner().bytes(), u64::MAX)?,
    };
    if holds(alloc, bytes, AFTER)? {
        return Ok(true);
    }
    Ok(!is_settled && holds(alloc, disks, BEFORE)?)
}

/// How many stops a turn meets at the calls of the log, or of the database. None where the store
/// doesn't survive one.
fn stops(alloc: Global, of_log: bool) -> Result<Option<u64>, Memory> {
    for calls in 0..1000u64 {
        let (log, db) = if of_log {
            (calls, u64::MAX)
        } else {
            (u64::MAX, calls)
        };
        let (stopped, is_right) = survive(alloc, log, db)?;
        if !is_right {
            return Ok(None);
        }
        if !stopped {
            return Ok(Some(calls));
        }
    }
    Ok(None)
}

#[test]
fn each_stop_of_a_turn_is_survived(rt: HostRuntime) -> Result<(), Fail> {
    for (of_log, least) in [(true, 4), (false, 1)] {
        let stops = stops(rt.alloc(), of_log)?.unwrap_or(0);
        assert!(rt; stops >= least, "{of_log}: {stops} stops");
    }
    Ok(())
}
