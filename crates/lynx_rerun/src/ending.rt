//! How a run over stores ends: what the stores hold, and what explains it.
ghost use Rattle.std.specs.Prelude.{◌≡◌, ℕ, List, IfOk, length};
ghost use Rattle.std.specs.Io.KnownBytes.{Appends};
ghost use Rattle.lynx_rerun.specs.Reruns.{EndsAs};

use crate::fault::RerunFault;
use lynx_keep::Keeper;
use lynx_report::{Ending, RunOptions, write_last_lines};
use lynx_set::ChainSet;
use lynx_weave::gather;
use std::alloc::Global;
use std::io::Write;

/// Writes the last lines of a run: those of the world that the keepers keep together, in this run
/// and in those before it.
pub(crate) fn write_end<K: Keeper, W: Write>(
    alloc: Global,
    set: &ChainSet,
    keepers: &mut [K],
    options: RunOptions,
    writer: &mut W,
) -> Result<Ending, RerunFault>
    requires { length keepers.old ≡ set.now.servers }
    ensures many { length keepers.new ≡ length keepers.old }
    ensures ends { IfOk result (λ ending. (printed : List ℕ)
        × EndsAs K.terms set.now options.owed keepers.old keepers.new ending printed
        × Appends (W.contents writer.old) (W.contents writer.new) printed) }
{
    let world = gather(alloc, set, keepers, &[])?;
    Ok(write_last_lines(alloc, &world, options, writer)?)
}
