//! The world that histories weave to.
ghost use Rattle.std.specs.Prelude.{◌≡◌, [], IfErr, IfOk, length};
ghost use Rattle.lynx_service.specs.Faults.{apart_fault};
ghost use Rattle.lynx_weave.specs.Rebuilt.{histories_in};
ghost use Rattle.lynx_weave.specs.Weaving.{IsWoven};
ghost use Rattle.lynx_weave.specs.declared.fault.WeaveFault.{WeaveFault};

use lynx_entry::Entry;
use lynx_service::ServeFault;
use lynx_set::ChainSet;
use lynx_weave::weave;
use lynx_world::World;
use std::alloc::Global;

/// The one world of these histories, where nobody was told anything.
pub(crate) fn woven(
    alloc: Global,
    set: &ChainSet,
    histories: Vec<Vec<Entry>>,
) -> Result<World, ServeFault>
    requires { length histories.items ≡ set.now.servers }
    ensures ok { IfOk result
        (λ world. IsWoven set.now (histories_in histories.items) [] world) }
    ensures err { IfErr result (λ fault. (why : WeaveFault) × (fault ≡ apart_fault why)) }
{
    Ok(weave(alloc, set, histories, &[])?)
}
