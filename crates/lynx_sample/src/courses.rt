//! How far the chains of a draft have come.
use lynx_entry::Delivered;
use lynx_names::{ChainId, ProgramId, ServerId};
use lynx_set::ChainSet;

/// A chain that began, and how far it has come.
#[derive(Clone, Copy)]
pub(crate) struct Course {
    pub(crate) chain: ChainId,
    pub(crate) program: ProgramId,
    /// Its first hop that isn't done, or the count of its hops.
    pub(crate) next: u8,
    /// Whether a server holds the message of that hop.
    pub(crate) is_held: bool,
}

impl Course {
    /// The server of the hop that the chain owes next, None where it owes none.
    pub(crate) fn next_server(&self, set: &ChainSet) -> Option<ServerId> {
        let hop = set.hop(self.program, usize::from(self.next))?;
        Some(hop.server)
    }

    /// Whether the chain still owes a hop at the server.
    pub(crate) fn owes_at(&self, set: &ChainSet, server: ServerId) -> bool {
        set.hops(self.program)
            .iter()
            .skip(usize::from(self.next))
            .any(|hop| hop.server == server)
    }

    /// Whether the chain began at the server and has still to return there, so that the server is
    /// busy.
    pub(crate) fn keeps_busy(&self, set: &ChainSet, server: ServerId) -> bool {
        self.chain.origin == server && self.owes_at(set, server)
    }

    /// Whether it is the turn of the hop that the chain owes next: no chain that began before it at
    /// its origin owes a hop at that hop's server.
    pub(crate) fn is_due(&self, set: &ChainSet, courses: &[Course]) -> bool {
        let Some(server) = self.next_server(set) else {
            return false;
        };
        !courses.iter().any(|other| {
            other.chain.origin == self.chain.origin
                && other.chain.index < self.chain.index
                && other.owes_at(set, server)
        })
    }

    /// What came of a delivery of that hop of a chain.
    pub(crate) fn note(&mut self, chain: &ChainId, hop: u8, delivered: &Delivered) {
        if self.chain != *chain || self.next != hop {
            return;
        }
        match delivered {
            Delivered::Done { .. } => {
                self.next = hop.saturating_add(1);
                self.is_held = false;
            }
            Delivered::Held => self.is_held = true,
            _ => {}
        }
    }
}
