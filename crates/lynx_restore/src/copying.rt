//! Copies of the histories of servers, and how much of them fits together.
ghost use Rattle.std.specs.Prelude.{◌≡◌, ◌++◌, ◌∷◌, [], IfOk, OnOk, length};
ghost use Rattle.lynx_weave.specs.Cuts.{IsCut, fronts};
ghost use Rattle.lynx_weave.specs.Rebuilt.{histories_in};
ghost use Rattle.lynx_weave.specs.Servers.{histories_of};
ghost use Rattle.lynx_restore.specs.Restored.{AreWithin};

use crate::fault::RestoreFault;
use lynx_entry::Entry;
use lynx_keep::Keeper;
use lynx_names::{Memory, TryCopy};
use lynx_server::Server;
use lynx_set::ChainSet;
use lynx_weave::cut;
use std::alloc::Global;

/// Adds a copy of the entry.
fn add_entry(alloc: Global, copied: &mut Vec<Entry>, entry: &Entry) -> Result<(), Memory>
    ensures { OnOk result (copied.new.items ≡ copied.old.items ++ entry.now ∷ []) }
{
    copied.push(entry.copy(alloc)?)?;
    Ok(())
}

/// A copy of the history.
pub(crate) fn copy_history(alloc: Global, history: &[Entry]) -> Result<Vec<Entry>, Memory>
    ensures { IfOk result (λ copied. copied.items ≡ history.now) }
{
    let mut copied = Vec::new(alloc);
    for entry in history {
        add_entry(alloc, &mut copied, entry)?;
    }
    Ok(copied)
}

/// Adds a copy of the history.
fn add_history(alloc: Global, copied: &mut Vec<Vec<Entry>>, history: &[Entry]) -> Result<(), Memory>
    ensures { OnOk result (histories_in copied.new.items
        ≡ histories_in copied.old.items ++ history.now ∷ []) }
{
    copied.push(copy_history(alloc, history)?)?;
    Ok(())
}

/// Copies of the histories of these servers.
fn copy_histories<K: Keeper>(
    alloc: Global,
    servers: &[Server<K>],
) -> Result<Vec<Vec<Entry>>, Memory>
    ensures { IfOk result (λ copied. histories_in copied.items ≡ histories_of servers.now) }
{
    let mut copied = Vec::new(alloc);
    for server in servers {
        add_history(alloc, &mut copied, server.history())?;
    }
    Ok(copied)
}

/// Copies of so many of the first entries of each of these servers.
pub(crate) fn copy_fronts<K: Keeper>(
    alloc: Global,
    servers: &[Server<K>],
    counts: &[usize],
) -> Result<Vec<Vec<Entry>>, Memory>
    requires many { length counts.now ≡ length servers.now }
    requires within { AreWithin counts.now (histories_of servers.now) }
    ensures { IfOk result (λ copied. histories_in copied.items
        ≡ fronts counts.now (histories_of servers.now)) }
{
    let mut copied = Vec::new(alloc);
    for (number, server) in servers.iter().enumerate() {
        add_history(alloc, &mut copied, &server.history()[..counts[number]])?;
    }
    Ok(copied)
}

/// How many of the first entries of each of these servers fit together.
pub(crate) fn cut_counts<K: Keeper>(
    alloc: Global,
    set: &ChainSet,
    servers: &[Server<K>],
) -> Result<Vec<usize>, RestoreFault>
    requires { length servers.now ≡ set.now.servers }
    ensures { IfOk result (λ counts. IsCut set.now (histories_of servers.now) counts.items) }
{
    let histories = copy_histories(alloc, servers)?;
    Ok(cut(alloc, set, histories)?)
}
