//! What is written behind the last line of a run, and behind a verdict.
ghost use Rattle.std.specs.Prelude.{◌≡◌, ℕ, List, IfErr, OnErr, OnOk};
ghost use Rattle.std.specs.Io.KnownBytes.{Appends};
ghost use Rattle.lynx_report.specs.Options.{RestPrints, WritesRest};
ghost use Rattle.lynx_report.specs.Runs.{IsLate};

use crate::owed::write_owed;
use crate::run::RunFault;
use lynx_draw::Extent;
use lynx_world::World;
use std::alloc::Global;
use std::io::Write;

/// What a run writes behind its last line, which is nothing by default.
#[derive(Clone, Copy, Debug, Default, PartialEq, Eq)]
pub struct RunOptions {
    /// A line for each hop that a chain still owes.
    pub owed: bool,
}

/// What a check tells behind its verdict of why it is what it is.
#[derive(Clone, Copy, Debug, PartialEq, Eq)]
pub enum Why {
    /// Nothing.
    Untold,
    /// A summary for people, of ten lines at most.
    Summary,
    /// The summary, and behind it a line for each two hops that may conflict, for each group of
    /// programs of an accepted set, for each program that returns to the server where it begins or
    /// that can never begin, and for all that stands in the way of a set that offends.
    All,
}

/// What a check writes behind its verdict.
#[derive(Clone, Copy, Debug, PartialEq, Eq)]
pub struct CheckOptions {
    pub why: Why,
}

/// Which programs of a set are drawn, all of them by default.
#[derive(Clone, Copy, Debug, Default, PartialEq, Eq)]
pub struct DrawOptions {
    pub shown: Extent,
}

/// Writes what is asked for behind the last line of a run.
pub(crate) fn write_rest<W: Write>(
    alloc: Global,
    world: &World,
    options: RunOptions,
    writer: &mut W,
) -> Result<(), RunFault>
    ensures ok { OnOk result ((printed : List ℕ)
        × RestPrints options.owed world.now.set world.now.list printed
        × Appends (W.contents writer.old) (W.contents writer.new) printed) }
    ensures part { OnErr result (WritesRest options.owed world.now.set world.now.list
        (W.contents writer.old) (W.contents writer.new)) }
    ensures late { IfErr result IsLate }
{
    if options.owed {
        write_owed(alloc, world, writer)
    } else {
        Ok(())
    }
}
