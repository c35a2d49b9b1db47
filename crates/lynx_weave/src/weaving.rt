//! Weaving histories to a world.
ghost use Rattle.std.specs.Prelude.{◌≡◌, IfOk, length, replicate};
ghost use Rattle.lynx_weave.specs.Rebuilt.{histories_in, told_in};
ghost use Rattle.lynx_weave.specs.Since.{WeavesSince};
ghost use Rattle.lynx_weave.specs.Weaving.{Weaves};

use crate::counts::{ServerCounts, counts_of};
use crate::fault::WeaveFault;
use crate::judging::judge_all;
use crate::order::order_of;
use crate::rebuilding::rebuild_all;
use crate::senders::check_senders;
use crate::told::ToldItem;
use lynx_entry::Entry;
use lynx_names::{Memory, TryCopy};
use lynx_set::ChainSet;
use lynx_world::World;
use std::alloc::Global;

/// A world, and for each server in order how many of its answers sessions were told as fresh, and
/// how many it gave.
#[derive(Drop)]
pub struct Woven {
    pub world: World,
    pub counts: Vec<ServerCounts>,
}

/// A start of 0 for each server.
fn no_starts(alloc: Global, set: &ChainSet) -> Result<Vec<u64>, Memory>
    ensures { IfOk result (λ starts. starts.items ≡ replicate set.now.servers 0) }
{
    Ok(vec![in alloc; 0; usize::from(set.servers())]?)
}

/// The world of these histories, one for each server of the set, in which all that sessions were
/// told stands. Its list is in order of stamp, then server, and nothing is held. Mismatch names an
/// entry that no world has, Told an item; histories are judged first. An entry takes the work of
/// its hop, a few look-ups and a walk over the servers, and an item a few look-ups.
pub fn weave(
    alloc: Global,
    set: &ChainSet,
    histories: Vec<Vec<Entry>>,
    told: &[Vec<ToldItem>],
) -> Result<World, WeaveFault>
    requires { length histories.items ≡ set.now.servers }
    ensures { Weaves set.now (histories_in histories.items) (told_in told.now) result }
{
    let starts = no_starts(alloc, set)?;
    let woven = weave_since(alloc, set, histories, starts.as_slice(), told)?;
    Ok(woven.world)
}

/// The world of these histories, as [`weave`] makes it, where sessions began when each server's
/// history was as long as its start: Told names also an item that is fresh by an entry below a
/// start. With it come the counts of each server, in order, for which the items, and the entries
/// from each start on, are gone over once more. Memory can come at any point.
pub fn weave_since(
    alloc: Global,
    set: &ChainSet,
    histories: Vec<Vec<Entry>>,
    starts: &[u64],
    told: &[Vec<ToldItem>],
) -> Result<Woven, WeaveFault>
    requires histories { length histories.items ≡ set.now.servers }
    requires starts { length starts.now ≡ set.now.servers }
    ensures { WeavesSince set.now (histories_in histories.items) starts.now (told_in told.now)
        result }
{
    let servers = rebuild_all(alloc, set, histories)?;
    let lent = servers.as_slice();
    check_senders(alloc, set, lent)?;
    let order = order_of(alloc, set, lent)?;
    if let Err(fault) = judge_all(alloc, lent, starts, told) {
        return Err(fault);
    }
    let counts = counts_of(alloc, lent, starts, told)?;
    let set = set.copy(alloc)?;
    let world = World::over(set, servers, order);
    Ok(Woven { world, counts })
}
