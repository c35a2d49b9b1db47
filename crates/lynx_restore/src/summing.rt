//! What is restored of servers, by how much of each is taken.
ghost use Rattle.std.specs.Prelude.{◌≡◌, ◌≤◌, ◌∷◌, ◌++◌, [], drop, length, IfOk, OnOk};
ghost use Rattle.lynx_weave.specs.Servers.{histories_of};
ghost use Rattle.lynx_restore.specs.Restored.{AreWithin, restored_at, restored_of, undone_of};
ghost use Rattle.lynx_restore.specs.Undone.{undone_in};

use crate::restored::{Restored, RestoredServer};
use crate::undone::add_undone;
use lynx_keep::Keeper;
use lynx_names::Memory;
use lynx_server::Server;
use std::alloc::Global;

/// Adds a server of which so many entries are taken.
fn add_server<K: Keeper>(
    restored: &mut Restored,
    server: &Server<K>,
    count: usize,
) -> Result<(), Memory>
    requires { count ≤ length server.now.history }
    ensures servers { OnOk result (restored.new.servers.items
        ≡ restored.old.servers.items ++ restored_at server.now count ∷ []) }
    ensures undone { OnOk result (restored.new.undone.items ≡ restored.old.undone.items
        ++ undone_in server.now.server (drop count server.now.history)) }
{
    let history = server.history();
    add_undone(&mut restored.undone, server.server(), &history[count..])?;
    restored.servers.push(RestoredServer {
        server: server.server(),
        taken: count as u64,
        of: history.len() as u64,
    })?;
    Ok(())
}

/// What is restored of these servers.
pub(crate) fn sum_up<K: Keeper>(
    alloc: Global,
    servers: &[Server<K>],
    counts: &[usize],
) -> Result<Restored, Memory>
    requires many { length counts.now ≡ length servers.now }
    requires within { AreWithin counts.now (histories_of servers.now) }
    ensures servers { IfOk result (λ restored.
        restored.servers.items ≡ restored_of counts.now servers.now) }
    ensures undone { IfOk result (λ restored.
        restored.undone.items ≡ undone_of counts.now servers.now) }
{
    let mut restored = Restored {
        servers: Vec::new(alloc),
        undone: Vec::new(alloc),
    };
    for (number, server) in servers.iter().enumerate() {
        add_server(&mut restored, server, counts[number])?;
    }
    Ok(restored)
}
