ghost use Rattle.std.specs.Prelude.{◌≡◌};
ghost use Rattle.lynx_names.specs.ServerList.{marked_servers};

use crate::limits::MAX_SERVERS;
use crate::server::ServerId;
use std::marker::Model;

const SERVERS: usize = MAX_SERVERS as usize;

/// Some of the servers, rising. It takes no memory.
#[derive(Debug, Drop)]
pub struct ServerList {
    /// The servers, and others behind them.
    servers: [ServerId; SERVERS],
    len: usize,
}

impl Model for ServerList {
    ghost use Rattle.std.specs.Prelude.{◌≤◌, List, ℕ, take};
    ghost use Rattle.lynx_names.specs.declared.limits.TheConstants.{MAX_SERVERS};

    ghost Value = { List ℕ };

    ghost view = { λ list. take list.len list.servers };

    ghost invariant = { λ list. list.len ≤ MAX_SERVERS };
}

impl ServerList {
    /// The servers with a mark.
    pub fn marked(marks: &[bool; SERVERS]) -> ServerList
        ensures { result ≡ marked_servers marks.now }
    {
        let mut servers = [ServerId::first(); SERVERS];
        let mut len = 0;
        for number in 0..MAX_SERVERS {
            if marks[usize::from(number)] {
                servers[len] = ServerId::at(number);
                len += 1;
            }
        }
        ServerList { servers, len }
    }

    pub fn as_slice(&self) -> &[ServerId]
        ensures { result.now ≡ self.now }
    {
        &self.servers[..self.len]
    }
}
