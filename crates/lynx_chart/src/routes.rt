//! The ways of arrows from box to box.
ghost use Rattle.std.specs.Prelude.{◌≡◌, ◌++◌, OnOk};
ghost use Rattle.std.specs.List.{flat_map};
ghost use Rattle.lynx_chart.specs.Spots.{end_of, enters_side, leaves_side, point_text, route_text, start_of, turns_of};

use crate::spot::{Point, Spot, enters_at, lane_of, leaves_at, left_of, put_point, right_of};
use lynx_names::Memory;
use std::alloc::Global;

/// The side of a box at which an arrow to another leaves it: the one that is towards the other.
pub(crate) fn leaves_side(from: &Spot, to: &Spot) -> u64
    ensures { result ≡ leaves_side from.now to.now }
{
    let (here, there) = (from.column.number(), to.column.number());
    if there < here {
        left_of(here)
    } else {
        right_of(here)
    }
}

/// The side at which it comes into the other.
fn enters_side(from: &Spot, to: &Spot) -> u64
    ensures { result ≡ enters_side from.now to.now }
{
    let (here, there) = (from.column.number(), to.column.number());
    if here < there {
        left_of(there)
    } else {
        right_of(there)
    }
}

/// Where an arrow begins.
fn start_of(from: &Spot, to: &Spot, shift: u8) -> Point
    ensures { result ≡ start_of from.now to.now shift }
{
    Point {
        x: leaves_side(from, to),
        y: leaves_at(from, shift),
    }
}

/// Where it ends.
fn end_of(from: &Spot, to: &Spot, shift: u8) -> Point
    ensures { result ≡ end_of from.now to.now shift }
{
    Point {
        x: enters_side(from, to),
        y: enters_at(to, shift),
    }
}

/// Writes two points.
fn put_two(alloc: Global, out: &mut Vec<u8>, first: &Point, second: &Point) -> Result<(), Memory>
    ensures { OnOk result (out.new.items ≡ out.old.items ++ (point_text first.now
        ++ point_text second.now)) }
{
    put_point(alloc, out, first)?;
    put_point(alloc, out, second)
}

/// Writes the points at which an arrow turns, so that it crosses no box: none where the columns are
/// neighbours.
fn put_turns(
    alloc: Global,
    out: &mut Vec<u8>,
    from: &Spot,
    to: &Spot,
    shift: u8,
) -> Result<(), Memory>
    ensures { OnOk result (out.new.items ≡ out.old.items
        ++ flat_map point_text (turns_of from.now to.now shift)) }
{
    let (here, there) = (from.column.number(), to.column.number());
    if here == there {
        let x = right_of(here) + 20;
        let (leaves, enters) = (leaves_at(from, shift), enters_at(to, shift));
        return put_two(alloc, out, &Point { x, y: leaves }, &Point { x, y: enters });
    }
    let y = lane_of(from, shift);
    if here + 1 < there {
        let (first, last) = (left_of(here + 1), right_of(there - 1));
        return put_two(alloc, out, &Point { x: first, y }, &Point { x: last, y });
    }
    if there + 1 < here {
        let (first, last) = (right_of(here - 1), left_of(there + 1));
        return put_two(alloc, out, &Point { x: first, y }, &Point { x: last, y });
    }
    Ok(())
}

/// Writes the way of an arrow, shifted where it is drawn once more.
pub(crate) fn put_route(
    alloc: Global,
    out: &mut Vec<u8>,
    from: &Spot,
    to: &Spot,
    shift: u8,
) -> Result<(), Memory>
    ensures { OnOk result (out.new.items ≡ out.old.items ++ route_text from.now to.now shift) }
{
    put_point(alloc, out, &start_of(from, to, shift))?;
    put_turns(alloc, out, from, to, shift)?;
    put_point(alloc, out, &end_of(from, to, shift))
}
