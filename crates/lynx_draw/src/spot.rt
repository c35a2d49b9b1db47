//! Hops as they are drawn. A program of which two chains may conflict with one another is drawn
//! twice.

ghost use Rattle.std.specs.Prelude.{◌≡◌, ◌++◌, OnOk};
ghost use Rattle.lynx_draw.specs.Spots.{is_drawn_twice, left_spot, right_spot, spot_text, spot_word};

use lynx_graph::{Edge, Place};
use lynx_names::{Memory, ProgramId};
use lynx_set::ChainSet;
use lynx_text::printing::{put_number, put_word};
use std::alloc::Global;

/// A hop of the first chain of its program that is drawn, or of another one, drawn again.
#[derive(Clone, Copy)]
pub(crate) struct Spot {
    pub place: Place,
    pub again: bool,
}

/// Whether some two hops of the program may conflict, or a hop with itself.
pub(crate) fn is_drawn_twice(edges: &[Edge], program: ProgramId) -> bool
    ensures { result ≡ is_drawn_twice edges.now program }
{
    edges.iter().any(|edge| edge.left.program == program && edge.right.program == program)
}

/// Where the edge's left end is drawn.
pub(crate) fn left_spot(edge: &Edge) -> Spot
    ensures { result ≡ left_spot edge.now }
{
    Spot {
        place: edge.left,
        again: false,
    }
}

/// Where its right end is drawn: again, where both ends are of one program.
pub(crate) fn right_spot(edge: &Edge) -> Spot
    ensures { result ≡ right_spot edge.now }
{
    Spot {
        place: edge.right,
        again: edge.left.program == edge.right.program,
    }
}

/// Writes the node of a hop of the program of that name.
pub(crate) fn put_node_name(
    alloc: Global,
    out: &mut Vec<u8>,
    name: &[u8],
    hop: usize,
    again: bool,
) -> Result<(), Memory>
    ensures { OnOk result (out.new.items ≡ out.old.items ++ spot_word name.now hop again) }
{
    out.push(b'"')?;
    out.extend_from_slice(name)?;
    out.push(b' ')?;
    put_number(alloc, out, hop as u64)?;
    if again {
        put_word(out, b"again")?;
    }
    out.push(b'"')?;
    Ok(())
}

/// Writes the node of a spot.
pub(crate) fn put_spot(
    alloc: Global,
    out: &mut Vec<u8>,
    set: &ChainSet,
    spot: &Spot,
) -> Result<(), Memory>
    ensures { OnOk result (out.new.items ≡ out.old.items ++ spot_text set.now spot.now) }
{
    let name = set.program_name(spot.place.program);
    put_node_name(alloc, out, name, spot.place.hop, spot.again)
}
