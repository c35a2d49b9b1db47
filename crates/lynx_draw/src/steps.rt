//! The steps of a walk, from hop to hop as they are drawn.

ghost use Rattle.std.specs.Prelude.{◌≡◌, ◌++◌, IfOk, OnOk};
ghost use Rattle.lynx_draw.specs.Steps.{is_again, is_along, is_walked, joins, stay_of, stays_of, steps_around, steps_of, steps_to, same_spot, visits};

use crate::spot::{Spot, is_drawn_twice, left_spot, right_spot};
use lynx_graph::{Edge, Place, Visit};
use lynx_names::{Items, Memory, ProgramId};
use std::alloc::Global;

/// A visit as it is drawn.
#[derive(Clone, Copy)]
pub(crate) struct Stay {
    pub entered: Spot,
    pub left: Spot,
}

/// How a step goes on.
#[derive(Clone, Copy)]
pub(crate) enum Way {
    /// To a hop of another chain, by a conflict.
    Conflict,
    /// To another hop of the same chain.
    Chain,
}

/// A step of a walk.
#[derive(Clone, Copy)]
pub(crate) struct Step {
    pub from: Spot,
    pub to: Spot,
    pub way: Way,
}

/// Whether some visit is of the program.
pub(crate) fn visits(walk: &[Visit], program: ProgramId) -> bool
    ensures { result ≡ visits walk.now program }
{
    walk.iter().any(|visit| visit.program == program)
}

/// Whether the visit is drawn again: its program is drawn twice, and an earlier visit is of it.
fn is_again(edges: &[Edge], before: &[Visit], visit: &Visit) -> bool
    ensures { result ≡ is_again edges.now before.now visit.now }
{
    is_drawn_twice(edges, visit.program) && visits(before, visit.program)
}

/// The visit as it is drawn, after these.
fn stay_of(edges: &[Edge], before: &[Visit], visit: &Visit) -> Stay
    ensures { result ≡ stay_of edges.now before.now visit.now }
{
    let program = visit.program;
    let again = is_again(edges, before, visit);
    let spot = |hop| Spot {
        place: Place { program, hop },
        again,
    };
    Stay {
        entered: spot(visit.entered),
        left: spot(visit.left),
    }
}

/// The visits of a walk as they are drawn.
fn stays_of(alloc: Global, edges: &[Edge], walk: &[Visit]) -> Result<Items<Stay>, Memory>
    ensures { IfOk result (λ stays. stays ≡ stays_of edges.now walk.now) }
{
    let mut stays = Items::new(alloc);
    for (number, visit) in walk.iter().enumerate() {
        stays.push(stay_of(edges, &walk[..number], visit))?;
    }
    Ok(stays)
}

/// Adds the step to the next visit, and the one within it where it is left by another hop than it
/// is entered at.
fn add_steps(steps: &mut Items<Step>, stay: &Stay, next: &Stay) -> Result<(), Memory>
    ensures { OnOk result (steps.new ≡ steps.old ++ steps_to stay.now next.now) }
{
    steps.push(Step {
        from: stay.left,
        to: next.entered,
        way: Way::Conflict,
    })?;
    if next.entered.place.hop != next.left.place.hop {
        steps.push(Step {
            from: next.entered,
            to: next.left,
            way: Way::Chain,
        })?;
    }
    Ok(())
}

/// Adds the steps from the first visit to those after it, and back to the first.
fn add_round(steps: &mut Items<Step>, first: &Stay, rest: &[Stay]) -> Result<(), Memory>
    ensures { OnOk result (steps.new ≡ steps.old ++ steps_around first.now first.now rest.now) }
{
    let mut stay = first;
    for next in rest {
        add_steps(steps, stay, next)?;
        stay = next;
    }
    add_steps(steps, stay, first)
}

/// The steps of a walk, from where its first visit is left, round to there.
pub(crate) fn steps_of(alloc: Global, edges: &[Edge], walk: &[Visit]) -> Result<Items<Step>, Memory>
    ensures { IfOk result (λ steps. steps ≡ steps_of edges.now walk.now) }
{
    let stays = stays_of(alloc, edges, walk)?;
    let mut steps = Items::new(alloc);
    if let [first, rest @ ..] = stays.as_slice() {
        add_round(&mut steps, first, rest)?;
    }
    Ok(steps)
}

fn same_spot(left: &Spot, right: &Spot) -> bool
    ensures { result ≡ same_spot left.now right.now }
{
    left.place.program == right.place.program
        && left.place.hop == right.place.hop
        && left.again == right.again
}

/// Whether the step is from the one to the other.
fn joins(step: &Step, from: &Spot, to: &Spot) -> bool
    ensures { result ≡ joins step.now from.now to.now }
{
    same_spot(&step.from, from) && same_spot(&step.to, to)
}

/// Whether the step is by the edge, in one direction or the other.
fn is_along(edge: &Edge, step: &Step) -> bool
    ensures { result ≡ is_along edge.now step.now }
{
    let left = left_spot(edge);
    let right = right_spot(edge);
    match step.way {
        Way::Conflict => joins(step, &left, &right) || joins(step, &right, &left),
        Way::Chain => false,
    }
}

/// Whether some step is by the edge.
pub(crate) fn is_walked(edge: &Edge, steps: &[Step]) -> bool
    ensures { result ≡ is_walked edge.now steps.now }
{
    steps.iter().any(|step| is_along(edge, step))
}
