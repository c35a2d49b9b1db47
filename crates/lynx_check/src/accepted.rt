use lynx_graph::visit::Walk;
use lynx_set::ChainSet;
use std::marker::Model;

/// Why a set is accepted.
#[derive(Clone, Copy, Debug, PartialEq, Eq)]
pub enum Reason {
    /// No closed walk offends.
    Walks,
    /// A closed walk offends, but no walk of blocks does.
    Blocks,
}

/// A set that is accepted: no closed walk of it offends, or no walk of blocks does.
/// [`check`](crate::check()) alone makes one.
#[derive(Debug, Drop)]
pub struct AcceptedSet {
    set: ChainSet,
    /// The closed walk that offends, and is excused since no walk of blocks does.
    excused: Option<Walk>,
}

impl Model for AcceptedSet {
    ghost use Rattle.lynx_check.specs.Reasons.{Accepted, IsExcuse};

    ghost Value = { Accepted };

    ghost view = { λ accepted. record { set = accepted.set; excused = accepted.excused } };

    ghost invariant = { λ accepted. IsExcuse accepted.set accepted.excused };
}

impl AcceptedSet {
    ghost use Rattle.std.specs.Prelude.{◌≡◌, option_copied};
    ghost use Rattle.lynx_graph.specs.Acceptance.{IsAccepted};
    ghost use Rattle.lynx_check.specs.Reasons.{IsExcuse, IsReason, reason_of};

    pub(crate) fn new(set: ChainSet, excused: Option<Walk>) -> AcceptedSet
        requires { IsExcuse set excused }
        ensures { result ≡ record { set = set; excused = excused } }
    {
        AcceptedSet { set, excused }
    }

    /// The set. It takes no memory.
    pub fn set(&self) -> &ChainSet
        ensures value { result.now ≡ self.now.set }
        ensures accepted { IsAccepted self.now.set }
    {
        &self.set
    }

    /// Why it is accepted. It takes no memory.
    pub fn reason(&self) -> Reason
        ensures value { result ≡ reason_of self.now.excused }
        ensures right { IsReason self.now.set result }
    {
        match &self.excused {
            Some(_) => Reason::Blocks,
            None => Reason::Walks,
        }
    }

    /// The closed walk that offends and is excused, the least of the shortest. None where no closed
    /// walk offends.
    pub fn excused(&self) -> Option<&Walk>
        ensures value { option_copied result ≡ self.now.excused }
        ensures right { IsExcuse self.now.set self.now.excused }
    {
        match &self.excused {
            Some(walk) => Some(walk),
            None => None,
        }
    }
}
