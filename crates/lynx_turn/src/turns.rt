ghost use Rattle.std.specs.Prelude.{◌≡◌, ◌+◌, ◌<◌, ◌==◌, ℕ, IsOk, if◌then◌else◌, slice_index};
ghost use Rattle.lynx_names.specs.declared.limits.TheConstants.{MAX_ENTRIES, MAX_SERVERS};
ghost use Rattle.lynx_turn.specs.Turns.{no_turns, stand};

use lynx_names::limits::MAX_SERVERS;
use lynx_names::{Memory, ServerId};
use std::marker::Model;

const SERVERS: usize = MAX_SERVERS as usize;

/// How a chain's number stands to the turn of its origin.
#[derive(Clone, Copy, Debug, PartialEq, Eq)]
pub enum Stand {
    /// It is this chain's turn.
    Now,
    /// Chains of its origin come before it.
    Early,
    /// The chain is through here.
    Past,
}

/// Whose turn it is at a server: for each origin, how many of its chains are through. Contracts see
/// the counts.
#[derive(Debug, Drop)]
pub struct Turns {
    counts: [u64; SERVERS],
}

impl Model for Turns {
    ghost use Rattle.std.specs.Prelude.{◌≡◌, ℕ, List, length};
    ghost use Rattle.lynx_names.specs.declared.limits.TheConstants.{MAX_SERVERS};

    ghost Value = { List ℕ };

    ghost view = { λ turns. turns.counts };

    ghost invariant = { λ turns. length turns.counts ≡ MAX_SERVERS };
}

impl Turns {
    /// No chain is through. Takes no memory.
    pub fn new() -> Turns
        ensures { result ≡ no_turns }
    {
        Turns {
            counts: [0; SERVERS],
        }
    }

    /// The number whose turn it is among the chains of the origin.
    pub fn turn(&self, origin: ServerId) -> u64
        ensures value { result ≡ slice_index self.now origin }
        ensures in_range { origin < MAX_SERVERS }
    {
        self.counts[origin.index()]
    }

    /// How a number of a chain of the origin stands. Takes no memory.
    pub fn stand(&self, origin: ServerId, number: u64) -> Stand
        ensures value { result ≡ stand number (slice_index self.now origin) }
        ensures in_range { origin < MAX_SERVERS }
    {
        let turn = self.turn(origin);
        if number < turn {
            Stand::Past
        } else if turn < number {
            Stand::Early
        } else {
            Stand::Now
        }
    }

    /// Makes room for one `done` of the origin. The counts stand in an array, so there always is.
    pub fn ready(&mut self, _origin: ServerId) -> Result<(), Memory>
        ensures same { self.new ≡ self.old }
        ensures ok { IsOk result }
    {
        Ok(())
    }

    /// A chain of the origin is through. Takes no memory.
    pub fn done(&mut self, origin: ServerId)
        requires { slice_index self.old origin < MAX_ENTRIES }
        ensures { (other : ℕ) → slice_index self.new other ≡ (if origin == other
            then slice_index self.old other + 1 else slice_index self.old other) }
    {
        self.counts[origin.index()] += 1;
    }
}
