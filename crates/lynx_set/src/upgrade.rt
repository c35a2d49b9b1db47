//! Sets of version 1 as sets of version 2.
ghost use Rattle.std.specs.Prelude.{◌≡◌, IfOk};
ghost use Rattle.lynx_set.specs.declared.version.Version.{Version};
ghost use Rattle.lynx_set.specs.Rules.{IsSet};

use crate::set::ChainSet;
use crate::version::Version;
use lynx_names::{Memory, TryCopy};
use std::alloc::Global;

/// The same set at version 2. A set that has a text has one at version 2 too, as long as its own.
pub fn upgrade_set(alloc: Global, set: &ChainSet) -> Result<ChainSet, Memory>
    ensures same { IfOk result (λ upgraded. upgraded ≡ record set.now { version = Version.Two }) }
    ensures legal { IsSet set.now → IfOk result IsSet }
{
    let copied = set.copy(alloc)?;
    Ok(copied.at_version(Version::Two))
}
