//! Gathering what keepers keep to a world.
ghost use Rattle.std.specs.Prelude.{◌≡◌, ◌∷◌, ◌++◌, [], OnOk, length};
ghost use Rattle.lynx_weave.specs.Rebuilt.{told_in};
ghost use Rattle.lynx_weave.specs.Gathering.{Each, Gathers};
ghost use Rattle.lynx_weave.specs.inner.Loading.{Loads, LoadsAll, fault_of};
ghost use Rattle.lynx_server.specs.Opening.{IsRead};

use crate::fault::WeaveFault;
use crate::gather_fault::GatherFault;
use crate::told::ToldItem;
use crate::weaving::weave;
use lynx_entry::Entry;
use lynx_keep::{KeepFault, Keeper};
use lynx_names::{Memory, ServerId};
use lynx_set::ChainSet;
use lynx_world::World;
use std::alloc::Global;

/// The entries that the keeper keeps.
fn load<K: Keeper>(alloc: Global, keeper: &mut K) -> Result<Vec<Entry>, KeepFault>
    ensures { Loads K.terms keeper.old keeper.new result }
{
    let loaded = keeper.load(alloc)?;
    Ok(loaded.entries)
}

/// The fault of a gathering, where the keeper of that server failed so.
fn load_fault(server: ServerId, fault: KeepFault) -> GatherFault
    ensures { result ≡ fault_of server fault }
{
    match fault {
        KeepFault::Failed => GatherFault::Load { server },
        KeepFault::Memory => GatherFault::Memory,
    }
}

/// One history more.
fn add(histories: &mut Vec<Vec<Entry>>, entries: Vec<Entry>) -> Result<(), Memory>
    ensures { OnOk result (histories.new.items ≡ histories.old.items ++ entries ∷ []) }
{
    histories.push(entries)?;
    Ok(())
}

/// The entries of each keeper, one for each server of the set.
fn load_all<K: Keeper>(
    alloc: Global,
    set: &ChainSet,
    keepers: &mut [K],
) -> Result<Vec<Vec<Entry>>, GatherFault>
    requires { length keepers.old ≡ set.now.servers }
    ensures many { length keepers.new ≡ length keepers.old }
    ensures read { Each (IsRead K.terms) keepers.old keepers.new }
    ensures all { LoadsAll K.terms keepers.old keepers.new result }
{
    let mut histories = Vec::new(alloc);
    for number in 0..set.servers() {
        match load(alloc, &mut keepers[usize::from(number)]) {
            Ok(entries) => add(&mut histories, entries)?,
            Err(fault) => return Err(load_fault(ServerId::at(number), fault)),
        }
    }
    Ok(histories)
}

/// The world of what these keepers keep, one keeper for each server of the set, in which all that
/// sessions were told stands: what [`crate::weave`] makes of it. Each keeper is read once, and
/// nothing is written. After a fault the keepers may be asked again.
pub fn gather<K: Keeper>(
    alloc: Global,
    set: &ChainSet,
    keepers: &mut [K],
    told: &[Vec<ToldItem>],
) -> Result<World, GatherFault>
    requires { length keepers.old ≡ set.now.servers }
    ensures many { length keepers.new ≡ length keepers.old }
    // A stop at any moment leaves what each keeper kept.
    ensures read { Each (IsRead K.terms) keepers.old keepers.new }
    ensures gathers { Gathers K.terms set.now keepers.old keepers.new (told_in told.now) result }
{
    let histories = load_all(alloc, set, keepers)?;
    match weave(alloc, set, histories, told) {
        Ok(world) => Ok(world),
        Err(WeaveFault::Memory) => Err(GatherFault::Memory),
        Err(fault) => Err(GatherFault::Weave(fault)),
    }
}
