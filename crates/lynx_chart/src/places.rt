//! The places of chains in the order or the cycle that a run ends with.
ghost use Rattle.std.specs.Prelude.{◌≡◌, ◌<◌, ◌++◌, IfSome, OnOk};
ghost use Rattle.lynx_chart.specs.Places.{chains_of, place_colour, place_line, place_of, place_text, word_of};

use lynx_draw::colour_at;
use lynx_names::{ChainId, Memory};
use lynx_order::Explained;
use std::alloc::Global;

/// The chains of an order or a cycle.
pub(crate) fn chains_of(explained: &Explained) -> &[ChainId]
    ensures { result.now ≡ chains_of explained.now }
{
    match explained {
        Explained::Order(chains) | Explained::Cycle(chains) => chains.as_slice(),
    }
}

/// Which of the two it is.
pub(crate) fn word_of(explained: &Explained) -> &'static str
    ensures { result.now ≡ word_of explained.now }
{
    match explained {
        Explained::Order(_) => "order",
        Explained::Cycle(_) => "cycle",
    }
}

/// The place of a chain, counted from 0, if it is one of the chains.
pub(crate) fn place_of(explained: &Explained, chain: &ChainId) -> Option<usize>
    ensures place { result ≡ place_of explained.now chain.now }
    ensures fits { IfSome result (λ place. place < usize.MAX) }
{
    for (place, other) in chains_of(explained).iter().enumerate() {
        if other == chain {
            return Some(place);
        }
    }
    None
}

/// Writes a line with a place, counted from 1.
fn put_place(alloc: Global, out: &mut Vec<u8>, word: &str, place: usize) -> Result<(), Memory>
    requires { place < usize.MAX }
    ensures { OnOk result (out.new.items ≡ out.old.items ++ place_text word.now place) }
{
    let counted = place + 1;
    let text = format!(in alloc; "{counted} in the {word}")?;
    out.extend_from_slice(text.as_bytes())?;
    Ok(())
}

/// Writes the line, if there is a place.
pub(crate) fn put_place_line(
    alloc: Global,
    out: &mut Vec<u8>,
    word: &str,
    place: Option<usize>,
) -> Result<(), Memory>
    requires { IfSome place (λ place. place < usize.MAX) }
    ensures { OnOk result (out.new.items ≡ out.old.items ++ place_line word.now place) }
{
    match place {
        Some(place) => put_place(alloc, out, word, place),
        None => Ok(()),
    }
}

/// The colour of a place. What has none is white.
pub(crate) fn place_colour(place: Option<usize>) -> &'static [u8]
    ensures { result.now ≡ place_colour place }
{
    match place {
        Some(place) => colour_at(place),
        None => b"#ffffff",
    }
}
