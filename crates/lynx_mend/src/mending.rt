//! What makes a set accepted.
use crate::change::Change;
use lynx_check::AcceptedSet;
use lynx_set::ChainSet;
use std::marker::Model;

/// One change of a set, or two of two programs, and the set that they make, which is accepted and
/// has a text.
#[derive(Debug, Drop)]
pub struct Mending {
    first: Change,
    second: Option<Change>,
    accepted: AcceptedSet,
}

impl Model for Mending {
    ghost use Rattle.lynx_mend.specs.Mended.{Mended};

    ghost Value = { Mended };

    ghost view = { λ mending. record {
      first = mending.first;
      second = mending.second;
      set = mending.accepted.set;
    } };

    ghost use Rattle.lynx_set.specs.Rules.{IsSet};

    ghost invariant = { λ mending. IsSet mending.accepted.set };
}

impl Mending {
    ghost use Rattle.std.specs.Prelude.{◌≡◌};
    ghost use Rattle.lynx_set.specs.Rules.{IsSet};
    ghost use Rattle.lynx_graph.specs.Acceptance.{IsAccepted};
    ghost use Rattle.lynx_mend.specs.Mended.{mending_cost};

    pub(crate) fn new(first: Change, second: Option<Change>, accepted: AcceptedSet) -> Mending
        requires { IsSet accepted.set }
        ensures { result ≡ record { first = first; second = second; set = accepted.set } }
    {
        Mending {
            first,
            second,
            accepted,
        }
    }

    /// The change, or the first of two.
    pub fn first(&self) -> Change
        ensures { result ≡ self.now.first }
    {
        self.first
    }

    /// The second change, None where one is enough.
    pub fn second(&self) -> Option<Change>
        ensures { result ≡ self.now.second }
    {
        self.second
    }

    /// What the changes cost together.
    pub fn cost(&self) -> u32
        ensures { result ≡ mending_cost self.now }
    {
        match self.second {
            Some(second) => self.first.cost() + second.cost(),
            None => self.first.cost(),
        }
    }

    /// The set that the changes make. It takes no memory.
    pub fn set(&self) -> &ChainSet
        ensures value { result.now ≡ self.now.set }
        ensures accepted { IsAccepted self.now.set }
        ensures legal { IsSet self.now.set }
    {
        self.accepted.set()
    }
}
