//! What goes with entries that are cut off.
ghost use Rattle.std.specs.Prelude.{◌≡◌, ◌++◌, OnOk};
ghost use Rattle.lynx_restore.specs.Undone.{undone_by, undone_in};

use lynx_entry::Entry;
use lynx_names::{ChainId, ClientId, Memory, ServerId};

/// What an entry says that is cut off of the server's history.
#[derive(Clone, Copy, Debug, PartialEq, Eq)]
pub enum Undone {
    /// The request began this chain, which goes with all that it did. What the client was answered
    /// is void.
    Began {
        server: ServerId,
        client: ClientId,
        number: u64,
        chain: ChainId,
    },
    /// The request was refused. What the client was answered is void.
    Refused {
        server: ServerId,
        client: ClientId,
        number: u64,
    },
    /// A later hop of the chain ran. Where the chain's begin stays, that hop is owed again.
    Ran {
        server: ServerId,
        chain: ChainId,
        hop: u8,
    },
}

/// What goes with the entry of that server.
fn undone_by(server: ServerId, entry: &Entry) -> Undone
    ensures { result ≡ undone_by server entry.now }
{
    match entry {
        Entry::Begun(begun) => Undone::Began {
            server,
            client: begun.request.client,
            number: begun.request.number,
            chain: begun.chain,
        },
        Entry::Refused(refused) => Undone::Refused {
            server,
            client: refused.request.client,
            number: refused.request.number,
        },
        Entry::Hop(ran) => Undone::Ran {
            server,
            chain: ran.message.chain,
            hop: ran.message.hop,
        },
    }
}

/// Adds what goes with these entries of that server.
pub(crate) fn add_undone(
    undone: &mut Vec<Undone>,
    server: ServerId,
    entries: &[Entry],
) -> Result<(), Memory>
    ensures { OnOk result (undone.new.items ≡ undone.old.items ++ undone_in server entries.now) }
{
    for entry in entries {
        undone.push(undone_by(server, entry))?;
    }
    Ok(())
}
