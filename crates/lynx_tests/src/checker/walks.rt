//! Walks by numbers, and the walk that a verdict gives.
use lynx_check::{Verdict, check};
use lynx_graph::{Visit, Walk};
use lynx_names::{Memory, ProgramId};
use lynx_set::ChainSet;
use std::alloc::Global;

/// A visit: the number of the program, the hop entered and the hop left.
pub type Hops = (u8, usize, usize);

pub fn walk(alloc: Global, visits: &[Hops]) -> Result<Walk, Memory> {
    let mut walk = Walk::new(alloc);
    for &(program, entered, left) in visits {
        let program = ProgramId::new(program).ok_or(Memory)?;
        walk.push(Visit {
            program,
            entered,
            left,
        })?;
    }
    Ok(walk)
}

/// Whether these are the visits, in that order.
pub fn are_visits(walk: &[Visit], want: &[Hops]) -> bool {
    for (visit, want) in walk.iter().zip(want) {
        if (visit.program.number(), visit.entered, visit.left) != *want {
            return false;
        }
    }
    walk.len() == want.len()
}

/// The closed walk that is given, excused or not; empty where none offends.
pub fn given(verdict: &Verdict) -> &[Visit] {
    match verdict {
        Verdict::Offending(walk, _) => walk.as_slice(),
        Verdict::Accepted(accepted) => match accepted.excused() {
            Some(walk) => walk.as_slice(),
            None => &[],
        },
    }
}

/// The verdict on the set, in a box.
pub fn judged(alloc: Global, set: &ChainSet) -> Result<Box<Verdict>, Memory> {
    Ok(Box::new(alloc, check(alloc, set)?)?)
}
