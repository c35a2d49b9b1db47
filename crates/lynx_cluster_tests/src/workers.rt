//! Workers, turn by turn in one thread.
use crate::fake::{Board, Fake, workers};
use lynx_names::Memory;
use lynx_worker::{RESEND_MILLIS, Worker};
use std::alloc::Global;
use std::sync::Wait;
use std::sync::atomic::Ordering;
use std::thread;
use std::time::{Clock, Duration, Instant};

/// What a worker's first turns do.
#[derive(Clone, Copy, Debug, PartialEq, Eq)]
struct Turns {
    sends: bool,
    delivers: bool,
    hears: bool,
    sends_more: bool,
    delivers_more: bool,
}

/// Turns of a server that owes three messages and of the one that they are for: what they answer,
/// what was done and what is owed then.
fn first_turns<R: Wait + Clock>(rt: &R, alloc: Global) -> Result<(Turns, u64, u64), Memory> {
    let (payer, payee) = (Board::owing(0b111), Board::owing(0));
    let (mut sender, mut receiver) = workers(alloc, &payer, &payee)?;
    let turns = Turns {
        sends: sender.pass(rt, alloc),
        delivers: receiver.pass(rt, alloc),
        hears: sender.pass(rt, alloc),
        sends_more: sender.pass(rt, alloc),
        delivers_more: receiver.pass(rt, alloc),
    };
    let done = payee.done.load(Ordering::SeqCst);
    Ok((turns, done, payer.owed.load(Ordering::SeqCst)))
}

#[test]
fn a_turn_sends_delivers_and_acknowledges(rt: HostRuntime) {
    let turns = Turns {
        sends: true,
        delivers: true,
        hears: true,
        sends_more: false,
        delivers_more: false,
    };
    assert!(rt; first_turns(&rt, rt.alloc()) == Ok((turns, 0b111, 0)));
}

/// A turn of each after another, ten milliseconds after the last.
fn turn_both<R: Wait + Clock>(
    rt: &R,
    alloc: Global,
    sender: &mut Worker<Fake<'_>>,
    receiver: &mut Worker<Fake<'_>>,
) {
    thread::sleep(rt, Duration::from_millis(10));
    sender.pass(rt, alloc);
    receiver.pass(rt, alloc);
}

/// Which messages of four were done first, where the receiver drops the first one, and which after
/// four turns more.
fn done_around<R: Wait + Clock>(rt: &R, alloc: Global) -> Result<(u64, u64), Memory> {
    let (payer, payee) = (Board::owing(0b1111), Board::owing(0));
    payee.dropping.store(0b1, Ordering::SeqCst);
    let (mut sender, mut receiver) = workers(alloc, &payer, &payee)?;
    turn_both(rt, alloc, &mut sender, &mut receiver);
    let first = payee.done.load(Ordering::SeqCst);
    for _ in 0..4 {
        turn_both(rt, alloc, &mut sender, &mut receiver);
    }
    Ok((first, payee.done.load(Ordering::SeqCst)))
}

#[test]
fn what_was_dropped_comes_again_soon(rt: HostRuntime) {
    assert!(rt; done_around(&rt, rt.alloc()) == Ok((0b1110, 0b1111)));
}

/// How many waits of so many milliseconds, the next twice as long and so on, begin in that time.
fn doubled(first: u64, millis: u64) -> u64 {
    let mut waited = first;
    let mut waits: u64 = 0;
    for shift in 1..32u32 {
        if waited > millis {
            break;
        }
        waits = waits.saturating_add(1);
        waited = waited.saturating_add(first << shift);
    }
    waits
}

/// How often a message comes that is never acknowledged, in 100 turns, and how often it may: first,
/// then by each of both passes after a time that doubles.
fn times_unheard<R: Wait + Clock>(rt: &R, alloc: Global) -> Result<(u64, u64), Memory> {
    let (payer, payee) = (Board::owing(0b1), Board::owing(0));
    payee.deaf.store(0b1, Ordering::SeqCst);
    let (mut sender, mut receiver) = workers(alloc, &payer, &payee)?;
    let begun = Instant::now(rt).map_err(|_| Memory)?;
    for _ in 0..100 {
        turn_both(rt, alloc, &mut sender, &mut receiver);
    }
    let elapsed = begun.elapsed(rt).map_err(|_| Memory)?;
    let millis = u64::try_from(elapsed.as_millis()).unwrap_or(u64::MAX);
    let passes = doubled(8, millis).saturating_add(doubled(RESEND_MILLIS, millis));
    Ok((payee.came.load(Ordering::SeqCst), passes.saturating_add(1)))
}

/// Whether it comes as often as it may, and more than each 100 milliseconds once.
fn is_seldom_sent<R: Wait + Clock>(rt: &R, alloc: Global) -> Result<bool, Memory> {
    let (came, most) = times_unheard(rt, alloc)?;
    Ok(5 < came && came <= most)
}

#[test]
fn what_nobody_acknowledges_comes_ever_more_seldom(rt: HostRuntime) {
    assert!(rt; is_seldom_sent(&rt, rt.alloc()) == Ok(true));
}

/// What is owed after the receiver woke the message of chain 5, and after the sender heard of it.
fn owed_around_wake<R: Wait + Clock>(rt: &R, alloc: Global) -> Result<(u64, u64), Memory> {
    let (payer, payee) = (Board::owing(0b10_0000), Board::owing(0));
    payee.held.store(0b10_0000, Ordering::SeqCst);
    let (mut sender, mut receiver) = workers(alloc, &payer, &payee)?;
    receiver.pass(rt, alloc);
    let first = payer.owed.load(Ordering::SeqCst);
    sender.pass(rt, alloc);
    Ok((first, payer.owed.load(Ordering::SeqCst)))
}

#[test]
fn what_is_woken_is_acknowledged(rt: HostRuntime) {
    assert!(rt; owed_around_wake(&rt, rt.alloc()) == Ok((0b10_0000, 0)));
}

/// How many acknowledgements come of five times 64 hops, all of which are done before one
/// acknowledgement is taken out of the ring: it has room for 256.
fn acknowledgements_behind_full_ring<R: Wait + Clock>(
    rt: &R,
    alloc: Global,
) -> Result<u64, Memory> {
    let (payer, payee) = (Board::owing(0), Board::owing(0));
    let (mut sender, mut receiver) = workers(alloc, &payer, &payee)?;
    for _ in 0..5 {
        payee.held.store(u64::MAX, Ordering::SeqCst);
        receiver.pass(rt, alloc);
    }
    for _ in 0..8 {
        sender.pass(rt, alloc);
        receiver.pass(rt, alloc);
    }
    Ok(payer.acknowledgements.load(Ordering::SeqCst))
}

#[test]
fn acknowledgements_wait_for_room(rt: HostRuntime) {
    assert!(rt; acknowledgements_behind_full_ring(&rt, rt.alloc()) == Ok(320));
}
