//! Laws of legal lists, each the contract of a function that does nothing.
ghost use Rattle.std.specs.Prelude.{◌≤◌, ◌⊎◌, List};
ghost use Rattle.lynx_names.specs.declared.chain.ChainId.{ChainId};
ghost use Rattle.lynx_names.specs.declared.limits.TheConstants.{MAX_SERVERS};
ghost use Rattle.lynx_set.specs.Home.{AreLiteralsHome};
ghost use Rattle.lynx_set.specs.Set.{Set};
ghost use Rattle.lynx_graph.specs.Acceptance.{IsAccepted};
ghost use Rattle.lynx_world.specs.Placed.{Placed};
ghost use Rattle.lynx_world.specs.Legal.{IsLegal};
ghost use Rattle.lynx_order.specs.Precedence.{KeepsPrecedence, IsCycle};
ghost use Rattle.lynx_order.specs.Explained.{IsOrder};
ghost use Rattle.lynx_order.specs.Explanations.{AreTheBegun, IsExplanation};

/// Each order of the begun chains in which a chain stands before those that it precedes explains
/// the list.
pub fn an_order_that_respects_precedence_explains()
    ensures { (set : Set) (list : List Placed) (chains : List ChainId) → AreLiteralsHome set
        → IsLegal set list
        → AreTheBegun list chains → KeepsPrecedence set list chains
        → IsExplanation set list chains }
{}

/// Of each legal list there is an order of its begun chains in which each stands before those that
/// it precedes, or a cycle.
pub fn an_order_or_a_cycle_is_there()
    ensures { (set : Set) (list : List Placed) → IsLegal set list
        → ((chains : List ChainId) × IsOrder set list chains)
        ⊎ ((chains : List ChainId) × IsCycle set list chains) }
{}

/// In an accepted set, by either reason, no chains precede one another around a cycle. Each
/// `ChainSet` has at most 16 servers.
pub fn no_cycle_where_accepted()
    ensures { (set : Set) (list : List Placed) (chains : List ChainId) → AreLiteralsHome set
        → set.servers ≤ MAX_SERVERS → IsLegal set list
        → IsAccepted set → ¬ IsCycle set list chains }
{}
