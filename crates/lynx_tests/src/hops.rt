//! What hops give and change.
use lynx_cells::{Cells, Changes};
use lynx_fixtures::made::{lists, program};
use lynx_fixtures::texts::set_of;
use lynx_hops::{HopFault, run_hop};
use lynx_names::{Memory, TableId};
use std::alloc::Global;

/// A pay over one server, whose second hop reads what the first one gave.
const SET: &str = "lynx 1\nservers 1\ntable acct\nshard 0 18446744073709551615 0\n\
                   program pay n\nhop 0\nget x acct 0\nneed x >= n\nsub acct 0 n\nget y acct 0\n\
                   hop 0\nadd acct 1 x\nlet z y + 1\nset acct 2 z\nend\n";

/// Cells of which the first has that value.
fn cells_of(alloc: Global, value: u64) -> Result<Cells, Memory> {
    let mut changes = Changes::new(alloc);
    if let Some(table) = TableId::new(0) {
        changes.put(table, 0, value)?;
    }
    let mut cells = Cells::new(alloc);
    cells.stage(&changes)?;
    cells.apply(&changes);
    Ok(cells)
}

/// Whether the cells are changed to these values.
fn are_changed_to(changes: &Changes, values: &[u64]) -> bool {
    for (&(_, _, value), want) in changes.list().iter().zip(values) {
        if value != *want {
            return false;
        }
    }
    changes.list().len() == values.len()
}

/// What the first cell holds, a hop of pay and its argument, and what the hops before it gave; then
/// the results and the values that cells are changed to, or the fault.
struct Case {
    value: u64,
    hop: usize,
    amount: u64,
    earlier: &'static [&'static [u64]],
    want: Result<(&'static [u64], &'static [u64]), HopFault>,
}

/// The first hop reads 100 and then 70; it refuses by the number of its need. The second hop adds
/// what the first one gave, and the sum of the greatest number and 1 wraps to 0.
const CASES: &[Case] = &[
    Case {
        value: 100,
        hop: 0,
        amount: 30,
        earlier: &[],
        want: Ok((&[100, 70], &[70])),
    },
    Case {
        value: 100,
        hop: 0,
        amount: 101,
        earlier: &[],
        want: Err(HopFault::Refused(0)),
    },
    Case {
        value: 70,
        hop: 1,
        amount: 30,
        earlier: &[&[100, u64::MAX]],
        want: Ok((&[0], &[100, 0])),
    },
];

/// Whether the hop comes out as the case says.
fn comes_out(alloc: Global, case: &Case) -> Result<bool, Memory> {
    let program = program(0)?;
    let set = set_of(alloc, SET)?;
    let cells = cells_of(alloc, case.value)?;
    let earlier = lists(alloc, case.earlier)?;
    let amount = [case.amount];
    match run_hop(
        alloc,
        &set,
        program,
        case.hop,
        &amount,
        earlier.as_slice(),
        &cells,
    ) {
        Err(fault) => Ok(case.want == Err(fault)),
        Ok(ran) => {
            let (given, changes) = ran.spend();
            match case.want {
                Ok((results, values)) => {
                    Ok(given.as_slice() == results && are_changed_to(&changes, values))
                }
                Err(_) => Ok(false),
            }
        }
    }
}

#[test]
fn hops_of_a_payment(rt: HostRuntime) {
    for (place, case) in CASES.iter().enumerate() {
        assert!(rt; comes_out(rt.alloc(), case) == Ok(true), "case {place}");
    }
}
