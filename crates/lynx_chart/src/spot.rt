//! Where the shapes of a chart stand, in pixels.
ghost use Rattle.std.specs.Prelude.{◌≡◌, ◌++◌, ◌+◌, ◌*◌, ◌<◌, ◌≤◌, ◌^◌, OnOk};
ghost use Rattle.lynx_chart.specs.Spots.{enters_at, lane_of, leaves_at, left_of, point_text, right_of, top_of};

use lynx_names::{Memory, ServerId};
use std::alloc::Global;

/// Where the box of an entry stands: in the column of its server, at the row of its stamp.
#[derive(Clone, Copy)]
pub(crate) struct Spot {
    pub column: ServerId,
    pub row: u32,
}

/// From the left and from above, in pixels.
#[derive(Clone, Copy)]
pub(crate) struct Point {
    pub x: u64,
    pub y: u64,
}

/// The left side of a column's boxes.
pub(crate) fn left_of(column: u8) -> u64
    ensures { result ≡ left_of column }
{
    264 * u64::from(column) + 24
}

/// Their right side.
pub(crate) fn right_of(column: u8) -> u64
    ensures { result ≡ right_of column }
{
    264 * u64::from(column) + 224
}

/// The upper side of a row's boxes. Before each forty rows there is room for the heads.
pub(crate) fn top_of(row: u32) -> u64
    ensures value { result ≡ top_of row }
    ensures fits { result < 2 ^ 40 }
{
    104 * u64::from(row) + 28 * u64::from(row / 40) + 118
}

/// At which height an arrow leaves a box. One that is drawn once more is shifted.
pub(crate) fn leaves_at(spot: &Spot, shift: u8) -> u64
    ensures { result ≡ leaves_at spot.now shift }
{
    top_of(spot.row) + 46 + 5 * u64::from(shift)
}

/// At which height it comes into one.
pub(crate) fn enters_at(spot: &Spot, shift: u8) -> u64
    ensures { result ≡ enters_at spot.now shift }
{
    top_of(spot.row) + 16 + 5 * u64::from(shift)
}

/// Below its row each column has a height of its own at which its arrows go past others' columns.
pub(crate) fn lane_of(spot: &Spot, shift: u8) -> u64
    ensures { result ≡ lane_of spot.now shift }
{
    top_of(spot.row) + 68 + 2 * u64::from(spot.column.number()) + u64::from(shift)
}

/// Writes a point, behind a space.
pub(crate) fn put_point(alloc: Global, out: &mut Vec<u8>, point: &Point) -> Result<(), Memory>
    ensures { OnOk result (out.new.items ≡ out.old.items ++ point_text point.now) }
{
    let (x, y) = (point.x, point.y);
    let text = format!(in alloc; " {x},{y}")?;
    out.extend_from_slice(text.as_bytes())?;
    Ok(())
}
