//! Which hops conflict, and what hops touch.
use lynx_fixtures::made::program;
use lynx_fixtures::texts::{PAYMENT_AND_PUT, set_of};
use lynx_foot::{Foot, Kind, Touch, conflict, footprint, may_conflict, touches};
use lynx_names::Memory;
use lynx_set::{ChainSet, Key};
use std::alloc::Global;

const SEED: u8 = 0;

const PAY: u8 = 1;

const PUT: u8 = 2;

/// Programs of one hop each, over two tables, of which the second is at the first server alone.
const KEYS: &str =
    "lynx 1\nservers 2\ntable a\nshard 0 99 0\nshard 100 18446744073709551615 1\ntable b\nshard 0 18446744073709551615 0\nprogram one j k\nhop 0\nset a 1 j\nend\nprogram two j k\nhop 0\nset a 2 j\nend\nprogram any j k\nhop 0\nget x a k\nend\nprogram far j k\nhop 1\nget x a k\nend\nprogram other j k\nhop 0\nget x b 1\nend\nprogram last j k\nhop 0\nget x a 1\nlet y x - 1\nset a k y\nend\n";

const ONE: u8 = 0;

const TWO: u8 = 1;

const ANY: u8 = 2;

const FAR: u8 = 3;

const OTHER: u8 = 4;

const LAST: u8 = 5;

/// A program's number, and a hop of it.
type At = (u8, usize);

/// Two hops with their arguments, whether they may conflict, and whether they do.
type Case = (At, &'static [u64], At, &'static [u64], bool, bool);

const PAYMENTS: &[Case] = &[
    ((PUT, 0), &[0], (PAY, 0), &[30], true, true),
    ((PUT, 0), &[7], (PAY, 0), &[30], true, false),
    ((PUT, 0), &[0], (SEED, 0), &[30], false, false),
    ((PUT, 0), &[0], (PAY, 1), &[30], false, false),
    ((PUT, 0), &[0], (PAY, 2), &[30], false, false),
    ((PAY, 0), &[1], (PAY, 0), &[2], true, true),
    ((PUT, 0), &[7], (PUT, 0), &[7], false, false),
];

const CELLS: &[Case] = &[
    ((ONE, 0), &[7, 9], (ANY, 0), &[9, 1], true, true),
    ((ONE, 0), &[7, 9], (ANY, 0), &[1, 9], true, false),
    ((ONE, 0), &[1, 2], (ONE, 0), &[3, 4], true, true),
    ((ONE, 0), &[1, 2], (TWO, 0), &[1, 2], false, false),
    ((ONE, 0), &[7, 9], (FAR, 0), &[7, 200], false, false),
    ((ONE, 0), &[7, 9], (OTHER, 0), &[1, 1], false, false),
    ((ANY, 0), &[5, 6], (ANY, 0), &[5, 6], false, false),
    ((ANY, 0), &[5, 6], (FAR, 0), &[5, 200], false, false),
    ((ANY, 0), &[5, 6], (LAST, 0), &[7, 6], true, true),
    ((ANY, 0), &[5, 6], (LAST, 0), &[6, 5], true, false),
    ((LAST, 0), &[0, 6], (LAST, 0), &[0, 1], true, true),
    ((LAST, 0), &[0, 6], (LAST, 0), &[0, 7], true, false),
    ((OTHER, 0), &[1, 1], (LAST, 0), &[0, 6], false, false),
];

/// Whether the two hops are so.
fn is_so(set: &ChainSet, (left, here, right, there, may, does): Case) -> Result<bool, Memory> {
    let (one, other) = (program(left.0)?, program(right.0)?);
    let may_they = may_conflict(set, one, left.1, other, right.1);
    let do_they = conflict(set, one, left.1, here, other, right.1, there);
    Ok(may_they == may && do_they == does)
}

/// Whether each two hops of the set are so.
fn are_so(alloc: Global, text: &str, cases: &[Case]) -> Result<bool, Memory> {
    let set = set_of(alloc, text)?;
    for case in cases {
        if !is_so(&set, *case)? {
            return Ok(false);
        }
    }
    Ok(true)
}

#[test]
fn hops_that_conflict(rt: HostRuntime) {
    for (text, cases) in [(PAYMENT_AND_PUT, PAYMENTS), (KEYS, CELLS)] {
        assert!(rt; are_so(rt.alloc(), text, cases) == Ok(true), "{text}");
    }
}

/// Whether these are the feet, all of the first table.
fn are_feet(feet: &[Foot], want: &[(Key, Kind)]) -> bool {
    for (foot, want) in feet.iter().zip(want) {
        if foot.table.index() != 0 || (foot.key, foot.kind) != *want {
            return false;
        }
    }
    feet.len() == want.len()
}

/// Whether the hop has these feet.
fn has_feet(
    alloc: Global,
    text: &str,
    (number, hop): At,
    want: &[(Key, Kind)],
) -> Result<bool, Memory> {
    let program = program(number)?;
    let set = set_of(alloc, text)?;
    let feet = footprint(alloc, &set, program, hop)?;
    Ok(are_feet(feet.as_slice(), want))
}

/// What the hop of last does.
const LAST_FEET: &[(Key, Kind)] = &[
    (Key::Literal(1), Kind::Getting),
    (Key::Param(1), Kind::Setting),
];

/// What the first hop of pay does.
const PAY_FEET: &[(Key, Kind)] = &[
    (Key::Literal(0), Kind::Getting),
    (Key::Literal(0), Kind::Adding),
];

/// A set, a hop of it, and its feet. There is no second hop of last.
const FEET: &[(&str, At, &[(Key, Kind)])] = &[
    (KEYS, (LAST, 0), LAST_FEET),
    (PAYMENT_AND_PUT, (PAY, 0), PAY_FEET),
    (KEYS, (LAST, 1), &[]),
];

#[test]
fn feet_in_order(rt: HostRuntime) {
    for &(text, at, feet) in FEET {
        assert!(rt; has_feet(rt.alloc(), text, at, feet) == Ok(true), "{text}");
    }
}

/// Whether these are the touches, all of the first table.
fn are_touches(touches: &[Touch], want: &[(u64, Kind)]) -> bool {
    for (touch, want) in touches.iter().zip(want) {
        if touch.table.index() != 0 || (touch.key, touch.kind) != *want {
            return false;
        }
    }
    touches.len() == want.len()
}

/// Whether the hop of last has these touches with these arguments.
fn has_touches(alloc: Global, args: &[u64], want: &[(u64, Kind)]) -> Result<bool, Memory> {
    let last = program(LAST)?;
    let set = set_of(alloc, KEYS)?;
    let touches = touches(alloc, &set, last, 0, args)?;
    Ok(are_touches(touches.as_slice(), want))
}

const LAST_TOUCHES: &[(u64, Kind)] = &[(1, Kind::Getting), (6, Kind::Setting)];

#[test]
fn touches_in_order(rt: HostRuntime) {
    assert!(rt; has_touches(rt.alloc(), &[5, 6], LAST_TOUCHES) == Ok(true));
}
