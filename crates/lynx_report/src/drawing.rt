//! The picture of a set, as it is written: docs/FORMATS.md has its lines.
ghost use Rattle.std.specs.Prelude.{◌≡◌, ℕ, List, OnErr, IfOk, IfErr};
ghost use Rattle.std.specs.Io.KnownBytes.{Appends, Keeps};
ghost use Rattle.lynx_report.specs.Drawings.{BeginsPicture, finding_of, Draws, IsDrawing, NoPictureFor};

use crate::options::DrawOptions;
use crate::run::{RunFault, read_set};
use crate::verdict::Finding;
use crate::writing::write_bytes;
use lynx_check::{Verdict, check};
use lynx_draw::draw;
use lynx_names::Memory;
use lynx_set::ChainSet;
use std::alloc::Global;
use std::io::Write;

/// Judges a set text, and writes the picture of the set and of its verdict, with the programs that
/// the options ask for. `RunFault::Script` is never its fault. The whole picture is made before any
/// of it is written: in memory it takes the square of the count of hops.
pub fn draw_text<W: Write>(
    alloc: Global,
    set: &[u8],
    options: DrawOptions,
    writer: &mut W,
) -> Result<Finding, RunFault>
    ensures ok { IfOk result (λ finding. (picture : List ℕ)
        × Draws options.shown set.now finding picture
        × Appends (W.contents writer.old) (W.contents writer.new) picture) }
    ensures part { OnErr result (BeginsPicture options.shown set.now (W.contents writer.old)
        (W.contents writer.new)) }
    ensures err { IfErr result (λ fault. NoPictureFor set.now (Keeps (W.contents writer.old)
        (W.contents writer.new)) fault) }
{
    let set = read_set(alloc, set)?;
    let (finding, picture) = drawing_of(alloc, &set, options)?;
    write_bytes(writer, picture.as_slice())?;
    Ok(finding)
}

/// What is found of a set, and its picture.
fn drawing_of(
    alloc: Global,
    set: &ChainSet,
    options: DrawOptions,
) -> Result<(Finding, Vec<u8>), Memory>
    ensures { IfOk result (λ drawn. IsDrawing options.shown set.now drawn.0 drawn.1.items) }
{
    let verdict = check(alloc, set)?;
    let picture = draw(alloc, set, &verdict, options.shown)?;
    Ok((finding_of(&verdict), picture))
}

fn finding_of(verdict: &Verdict) -> Finding
    ensures { result ≡ finding_of verdict.now }
{
    match verdict {
        Verdict::Accepted(accepted) => Finding::Accepted(accepted.reason()),
        Verdict::Offending(_, _) => Finding::Offending,
    }
}
