//! Weaving since sessions began: what each server's counts are, and fresh items by entries from
//! before.
use crate::sessions::{TOLD_PAID, TOLD_SEED};
use crate::told::{ToldParts, sessions};
use lynx_entry::Entry;
use lynx_fixtures::made::entries;
use lynx_fixtures::payments::{AT_FIRST, AT_SECOND};
use lynx_fixtures::texts::{PAYMENT, set_of};
use lynx_names::Memory;
use lynx_weave::{ServerCounts, WeaveFault, weave_since};
use std::alloc::Global;

/// What comes of a weaving.
#[derive(Clone, Copy)]
enum Since {
    /// The fresh items that tell of each server, and its entries since its start that answer a
    /// begin.
    Counts(&'static [(u64, u64)]),
    /// The item of that session and place is falsely told.
    Told(u64, u64),
}

/// The lengths that the histories had when the sessions began, what these were told, and what comes
/// of it.
type Case = (&'static [u64], &'static [&'static [ToldParts]], Since);

fn histories(alloc: Global) -> Result<Vec<Vec<Entry>>, Memory> {
    let mut histories = Vec::new(alloc);
    histories.push(entries(alloc, AT_FIRST)?)?;
    histories.push(entries(alloc, AT_SECOND)?)?;
    Ok(histories)
}

/// The counts of a seed and a payment that were told so.
fn counts_of(
    alloc: Global,
    starts: &[u64],
    told: &[&[ToldParts]],
) -> Result<Vec<ServerCounts>, WeaveFault> {
    let set = set_of(alloc, PAYMENT)?;
    let told = sessions(alloc, told)?;
    let histories = histories(alloc)?;
    let servers = usize::from(set.servers());
    if histories.len() != servers || starts.len() != servers {
        return Err(WeaveFault::Memory);
    }
    Ok(weave_since(alloc, &set, histories, starts, told.as_slice())?.counts)
}

fn are(counts: &[ServerCounts], want: &[(u64, u64)]) -> bool {
    counts.len() == want.len()
        && counts.iter().zip(want).all(|(found, (fresh, begins))| found.fresh == *fresh
            && found.begins == *begins)
}

fn is_fault(fault: WeaveFault, want: Since) -> bool {
    match want {
        Since::Counts(_) => false,
        Since::Told(of, at) => fault
            == WeaveFault::Told {
                session: of,
                place: at,
            },
    }
}

fn are_counts(counts: &[ServerCounts], want: Since) -> bool {
    match want {
        Since::Counts(want) => are(counts, want),
        Since::Told(..) => false,
    }
}

fn comes_out(alloc: Global, (starts, told, want): Case) -> bool {
    match counts_of(alloc, starts, told) {
        Ok(counts) => are_counts(counts.as_slice(), want),
        Err(fault) => is_fault(fault, want),
    }
}

const CASES: &[Case] = &[
    (
        &[0, 0],
        &[&[TOLD_SEED, TOLD_PAID]],
        Since::Counts(&[(2, 2), (0, 0)]),
    ),
    (
        &[0, 0],
        &[&[TOLD_PAID], &[TOLD_SEED]],
        Since::Counts(&[(2, 2), (0, 0)]),
    ),
    (&[0, 0], &[&[TOLD_PAID]], Since::Counts(&[(1, 2), (0, 0)])),
    (&[1, 0], &[&[TOLD_PAID]], Since::Counts(&[(1, 1), (0, 0)])),
    (&[2, 1], &[], Since::Counts(&[(0, 0), (0, 0)])),
    (&[1, 0], &[&[TOLD_PAID], &[TOLD_SEED]], Since::Told(1, 0)),
    (&[2, 0], &[&[TOLD_PAID]], Since::Told(0, 0)),
];

#[test]
fn sessions_since_they_began(rt: HostRuntime) {
    for (place, case) in CASES.iter().enumerate() {
        assert!(rt; comes_out(rt.alloc(), *case), "case {place}");
    }
}
