//! Sessions, and what they were told.
ghost use Rattle.std.specs.Prelude.{◌≡◌, []};

use lynx_names::Stamp;
use lynx_weave::ToldItem;
use std::alloc::Global;
use std::marker::Model;

/// One client of a cluster, which keeps all that it was told. It must be spent: by
/// [`Cluster::close`](crate::Cluster::close), to which it is handed in again, or by
/// [`Session::abandon`]. What another cluster told it would not stand at the close. An answer takes
/// a copy of its request and room for 16 results, a look a copy of what was found.
pub struct Session {
    number: u64,
    pub(crate) greatest: Stamp,
    pub(crate) told: Vec<ToldItem>,
}

impl Model for Session {
    ghost use Rattle.std.specs.Prelude.{◌≡◌};
    ghost use Rattle.lynx_weave.specs.Told.{greatest_told};
    ghost use Rattle.lynx_cluster.specs.Sessions.{SessionState};

    ghost Value = { SessionState };

    ghost view = { λ session. record { number = session.number; told = session.told.items } };

    ghost invariant = { λ session. session.greatest ≡ greatest_told session.told.items };
}

impl Session {
    ghost use Rattle.lynx_cluster.specs.Sessions.{new_session};
    ghost use Rattle.lynx_weave.specs.Told.{greatest_told};

    /// The session of that number, which was told nothing. Takes no memory.
    pub(crate) fn new(alloc: Global, number: u64) -> Session
        ensures { result ≡ new_session number }
    {
        Session {
            number,
            greatest: Stamp::zero(),
            told: Vec::new(alloc),
        }
    }

    /// Its number: the count of the sessions that its cluster made before.
    pub fn number(&self) -> u64
        ensures { result ≡ self.now.number }
    {
        self.number
    }

    /// The greatest stamp that it was told, with which it asks; 0 where it was told none.
    pub(crate) fn greatest_stamp(&self) -> Stamp
        ensures seen { result ≡ greatest_told self.now.told }
    {
        self.greatest
    }

    /// All that it was told, in order.
    pub fn told(&self) -> &[ToldItem]
        ensures { result.now ≡ self.now.told }
    {
        self.told.as_slice()
    }

    /// All that it was told, out of it. Takes no memory.
    pub(crate) fn into_told(self) -> Vec<ToldItem>
        ensures { result.items ≡ self.told }
    {
        let Session {
            number: _,
            greatest: _,
            told,
        } = self;
        told
    }

    /// Lets the session go, with all that it was told. Its number is absent at the close of its
    /// cluster then, which answers [`CloseFault::Absent`](crate::CloseFault::Absent) with the least
    /// number that is.
    pub fn abandon(self) {
        let _ = self.into_told();
    }
}
