//! Histories, and the first entry of each that no server has there.
use lynx_fixtures::made::{entries, server};
use lynx_fixtures::parts::{BegunParts, EntryParts, RequestParts};
use lynx_fixtures::payments::{AT_FIRST, PAID, PAY, SEEDED};
use lynx_fixtures::texts::{PAYMENT, set_of};
use lynx_names::Memory;
use lynx_server::first_unlawful;
use std::alloc::Global;

const SEED_ENTRY: EntryParts = EntryParts::Begun(SEEDED);

/// As they were kept; without the first entry, and with that one once more; and with a change of
/// the payment's: another number, which is the seed's, program, list of arguments, stamp seen,
/// index, origin, list of numbers, stamp, and list of results.
const HISTORIES: &[(&[EntryParts], Option<u64>)] = &[
    (AT_FIRST, None),
    (&[EntryParts::Begun(PAID)], Some(0)),
    (&[SEED_ENTRY, EntryParts::Begun(PAID), SEED_ENTRY], Some(2)),
    (
        &[
            SEED_ENTRY,
            EntryParts::Begun(BegunParts {
                request: RequestParts { number: 1, ..PAY },
                ..PAID
            }),
        ],
        Some(1),
    ),
    (
        &[
            SEED_ENTRY,
            EntryParts::Begun(BegunParts {
                request: RequestParts { program: 0, ..PAY },
                ..PAID
            }),
        ],
        Some(1),
    ),
    (
        &[
            SEED_ENTRY,
            EntryParts::Begun(BegunParts {
                request: RequestParts {
                    args: &[30, 1],
                    ..PAY
                },
                ..PAID
            }),
        ],
        Some(1),
    ),
    (
        &[
            SEED_ENTRY,
            EntryParts::Begun(BegunParts { seen: 7, ..PAID }),
        ],
        Some(1),
    ),
    (
        &[
            SEED_ENTRY,
            EntryParts::Begun(BegunParts { index: 2, ..PAID }),
        ],
        Some(1),
    ),
    (
        &[
            SEED_ENTRY,
            EntryParts::Begun(BegunParts { origin: 1, ..PAID }),
        ],
        Some(1),
    ),
    (
        &[
            SEED_ENTRY,
            EntryParts::Begun(BegunParts {
                numbers: &[],
                ..PAID
            }),
        ],
        Some(1),
    ),
    (
        &[
            SEED_ENTRY,
            EntryParts::Begun(BegunParts { time: 3, ..PAID }),
        ],
        Some(1),
    ),
    (
        &[
            SEED_ENTRY,
            EntryParts::Begun(BegunParts {
                results: &[100, 0],
                ..PAID
            }),
        ],
        Some(1),
    ),
];

/// The first place of the history whose entry isn't lawful at server 0.
fn judged(alloc: Global, parts: &[EntryParts]) -> Result<Option<u64>, Memory> {
    let set = set_of(alloc, PAYMENT)?;
    let server = server(0)?;
    let entries = entries(alloc, parts)?;
    first_unlawful(alloc, &set, server, entries.as_slice())
}

#[test]
fn histories_are_judged(rt: HostRuntime) {
    for (place, &(parts, want)) in HISTORIES.iter().enumerate() {
        assert!(rt; judged(rt.alloc(), parts) == Ok(want), "history {place}");
    }
}
