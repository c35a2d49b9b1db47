//! Worked verdicts, and walks that offend or don't.
use crate::checker::walks::{Hops, are_visits, given, judged, walk};
use lynx_fixtures::texts::{
    CROSSING, EMPTY_SET, LATE_AND_MARK, ONE_ORIGIN_JOINS, ONE_ORIGIN_ONLY, ONE_ORIGIN_SETS,
    PAY_AND_NOTE, TRIP, set_of,
};
use lynx_graph::walk_holds;
use lynx_names::Memory;
use std::alloc::Global;

/// Three walks of two visits: from a by b's hop 2, and from a by c's hops 1 and 2.
const TIES: &str =
    "lynx 1\nservers 2\ntable t\nshard 0 9 0\nshard 10 18446744073709551615 1\nprogram a\nhop 0\nset t 0 1\nhop 1\nset t 10 1\nend\nprogram b\nhop 1\nset t 10 1\nhop 1\nadd t 12 1\nhop 0\nset t 0 1\nend\nprogram c\nhop 1\nset t 10 1\nhop 0\nset t 0 1\nhop 0\nset t 0 1\nend\n";

/// The same without b.
const HOP_TIES: &str =
    "lynx 1\nservers 2\ntable t\nshard 0 9 0\nshard 10 18446744073709551615 1\nprogram a\nhop 0\nset t 0 1\nhop 1\nset t 10 1\nend\nprogram c\nhop 1\nset t 10 1\nhop 0\nset t 0 1\nhop 0\nset t 0 1\nend\n";

/// Two programs of different origins, one of which adds where the other begins: a walk through two
/// chains of the first offends, and each block is forward.
pub const CHAINED: &str =
    "lynx 1\nservers 2\ntable t\nshard 0 9 0\nshard 10 18446744073709551615 1\nprogram a\nhop 0\nadd t 0 1\nhop 1\nadd t 10 1\nhop 0\nset t 1 1\nend\nprogram b\nhop 1\nget x t 10\nend\n";

/// A set and the closed walk that is given, which is empty where none offends. Ties go by program,
/// and then by hop.
const VERDICTS: &[(&str, &[Hops])] = &[
    (EMPTY_SET, &[]),
    (LATE_AND_MARK, &[]),
    (ONE_ORIGIN_JOINS, &[]),
    (ONE_ORIGIN_ONLY, &[]),
    (TRIP, &[]),
    (CROSSING, &[(0, 1, 0), (1, 1, 0)]),
    (PAY_AND_NOTE, &[(0, 1, 0), (0, 0, 1), (1, 0, 0)]),
    (ONE_ORIGIN_SETS, &[(0, 1, 0), (0, 0, 1), (2, 0, 0)]),
    (TIES, &[(0, 1, 0), (1, 2, 0)]),
    (HOP_TIES, &[(0, 1, 0), (1, 1, 0)]),
];

/// Whether the set is judged so: that walk, or accepted where it is empty.
pub fn gives(alloc: Global, text: &str, visits: &[Hops]) -> Result<bool, Memory> {
    let set = set_of(alloc, text)?;
    let verdict = judged(alloc, &set)?;
    Ok(are_visits(given(&verdict), visits))
}

#[test]
fn worked_sets(rt: HostRuntime) {
    for &(text, visits) in VERDICTS {
        assert!(rt; gives(rt.alloc(), text, visits) == Ok(true), "{text}");
    }
}

/// A set, a walk, and whether it offends.
const WALKS: &[(&str, &[Hops], bool)] = &[
    (CROSSING, &[(0, 1, 0), (1, 1, 0)], true),
    (CROSSING, &[(1, 1, 0), (0, 1, 0)], true),
    (PAY_AND_NOTE, &[(1, 0, 0), (0, 1, 0), (0, 0, 1)], true),
    (CROSSING, &[(0, 1, 1), (1, 1, 0)], false),
    (CROSSING, &[(0, 1, 0), (1, 1, 1)], false),
    (CROSSING, &[(0, 0, 0)], false),
    (CROSSING, &[], false),
    (PAY_AND_NOTE, &[(0, 1, 1), (1, 0, 0)], false),
    (LATE_AND_MARK, &[(0, 0, 1), (0, 1, 0)], false),
];

/// Whether the walk of these visits offends.
fn offends(alloc: Global, text: &str, visits: &[Hops]) -> Result<bool, Memory> {
    let set = set_of(alloc, text)?;
    let walk = walk(alloc, visits)?;
    Ok(walk_holds(&set, &walk))
}

#[test]
fn worked_walks(rt: HostRuntime) {
    for &(text, visits, want) in WALKS {
        assert!(rt; offends(rt.alloc(), text, visits) == Ok(want), "{text}");
    }
}
