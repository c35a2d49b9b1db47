//! A look of a session at the state of a server.
ghost use Rattle.std.specs.Prelude.{◌≡◌, ◌++◌, IfOk, OnErr};
ghost use Rattle.lynx_codec.specs.Ranges.{IsLookedInRange};
ghost use Rattle.lynx_resting.specs.Resting.{settled_front};
ghost use Rattle.lynx_server.specs.Acts.{act_of};
ghost use Rattle.lynx_cluster.specs.Looks.{looked_at, seen_by};

use crate::beginning::later;
use crate::session::Session;
use lynx_codec::Looked;
use lynx_keep::BatchKeeper;
use lynx_names::{ChainId, Memory, Values, learn};
use lynx_resting::Resting;
use lynx_weave::ToldItem;
use std::alloc::Global;

impl Session {
    /// One look at what is settled of a server, noted by the session where it finds the hop.
    fn find_at<K: BatchKeeper>(
        &mut self,
        alloc: Global,
        state: &Resting<K>,
        chain: &ChainId,
        hop: u8,
    ) -> Result<Looked, Memory>
        ensures looked { IfOk result (λ looked. looked
            ≡ looked_at (act_of chain.now hop (settled_front state.now))) }
        ensures told { IfOk result (λ looked. self.new ≡ record self.old
            { told = self.old.told ++ seen_by state.now.here.server chain.now hop looked }) }
        ensures same { OnErr result (self.new ≡ self.old) }
    {
        let Some((stamp, results)) = state.results(*chain, hop) else {
            return Ok(Looked::Absent);
        };
        self.told.reserve(1)?;
        let noted = Values::from_vec(Vec::from_slice(alloc, results)?);
        let given = Values::from_vec(Vec::from_slice(alloc, results)?);
        self.greatest = later(self.greatest, stamp);
        self.told.push_reserved(ToldItem::Seen {
            server: state.server(),
            chain: *chain,
            hop,
            stamp,
            results: noted,
        });
        Ok(Looked::Found {
            stamp,
            results: given,
        })
    }

    /// One look at what is settled of a server, noted by the session where it finds the hop. What
    /// is found has an encoding.
    pub(crate) fn look_at<K: BatchKeeper>(
        &mut self,
        alloc: Global,
        state: &Resting<K>,
        chain: &ChainId,
        hop: u8,
    ) -> Result<Looked, Memory>
        ensures looked { IfOk result (λ looked. looked
            ≡ looked_at (act_of chain.now hop (settled_front state.now))) }
        ensures told { IfOk result (λ looked. self.new ≡ record self.old
            { told = self.old.told ++ seen_by state.now.here.server chain.now hop looked }) }
        ensures same { OnErr result (self.new ≡ self.old) }
        ensures range { IfOk result IsLookedInRange }
    {
        // By its type the history is lawful, so what is found in it is in range.
        learn(state.settled());
        self.find_at(alloc, state, chain, hop)
    }
}
