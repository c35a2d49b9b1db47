//! Laws of sets, each the contract of a function that does nothing.
ghost use Rattle.lynx_set.specs.Home.{AreLiteralsHome};
ghost use Rattle.lynx_set.specs.Rules.{IsSet};
ghost use Rattle.lynx_set.specs.Set.{Set};

/// In a set that has a text each literal key lies at its hop's server.
pub fn literals_lie_at_their_servers()
    ensures { (set : Set) → IsSet set → AreLiteralsHome set }
{}
