//! Laws of reasons, each the contract of a function that does nothing.
ghost use Rattle.std.specs.Prelude.{◌≡◌, ◌≢◌, ◌<◌, ◌^◌, Bool, ℕ, List, All, Some, false, true};
ghost use Rattle.lynx_check.specs.Reasons.{Accepted, reason_of};
ghost use Rattle.lynx_check.specs.Verdicts.{Judges};
ghost use Rattle.lynx_check.specs.declared.verdict.Verdict.TheVariants.{Accepted as AcceptedSo};
ghost use Rattle.lynx_graph.specs.Edges.{edges_of};
ghost use Rattle.lynx_graph.specs.Groups.{begin_at_one_server, group_of, leaders_of};
ghost use Rattle.lynx_graph.specs.Together.{AreLed};
ghost use Rattle.lynx_graph.specs.Walks.{NoWalkOffends};
ghost use Rattle.lynx_graph.specs.declared.members.Member.{Member};
ghost use Rattle.lynx_names.specs.declared.chain.ChainId.{ChainId};
ghost use Rattle.lynx_set.specs.Rules.{IsSet};
ghost use Rattle.lynx_set.specs.Set.{Set};
ghost use Rattle.lynx_entry.specs.declared.answer.Answer.TheVariants.{Begun};
ghost use Rattle.lynx_entry.specs.declared.entry.BegunEntry.{BegunEntry};
ghost use Rattle.lynx_entry.specs.declared.entry.Entry.TheVariants.{Begun as BegunAs};
ghost use Rattle.lynx_entry.specs.declared.request.Request.{Request};
ghost use Rattle.lynx_entry.specs.Entry.{History};
ghost use Rattle.lynx_rules.specs.Answers.{answer};
ghost use Rattle.lynx_rules.specs.Lawful.{IsLawful};
ghost use Rattle.lynx_reasons.specs.declared.never.first.NeverAt.{NeverAt};
ghost use Rattle.lynx_reasons.specs.Begins.{first_never};
ghost use Rattle.lynx_reasons.specs.Groups.{group_reason, meet_at_one_hop};
ghost use Rattle.lynx_reasons.specs.Mixed.{is_mixed};
ghost use Rattle.lynx_reasons.specs.Never.{EachIsLawful};
ghost use Rattle.lynx_reasons.specs.Reasons.{IsSoOf, NoWalkOffendsIn};

/// Where all programs of a group begin at the server where its leader does, no closed walk that
/// lies in the group offends.
pub fn one_origin()
    ensures { (set : Set) (leader : ℕ) (group : List ℕ)
        → begin_at_one_server set leader group ≡ true → NoWalkOffendsIn set group }
{}

/// Where no program of a group meets others at two of its hops, no closed walk that lies in the
/// group offends.
pub fn one_hop()
    ensures { (set : Set) (group : List ℕ)
        → meet_at_one_hop set (edges_of set) group ≡ true → NoWalkOffendsIn set group }
{}

/// Of the verdict on a set that is accepted, the reason that is told of a group holds.
pub fn told_reasons_hold()
    ensures { (set : Set) (own : Accepted) (leader : ℕ) (group : List ℕ)
        → Judges set (AcceptedSo own)
        → IsSoOf set group (group_reason set (edges_of set) (reason_of own.excused) leader group) }
{}

/// Where no group of programs is mixed, no closed walk of the set offends.
pub fn none_is_mixed()
    ensures { (set : Set) (members : List Member) → AreLed set members
        → All (λ leader. is_mixed set (edges_of set) leader (group_of members leader) ≡ false)
        (leaders_of members) → NoWalkOffends set }
{}

/// A program that has a `never` line never begins. Whatever a server of the set has done, and
/// whatever its cells hold, it begins no new chain of the program for any request, whose arguments
/// are numbers below 2^64 as all are (`anew`), and keeps no entry of one (`added`). In a history of
/// lawful entries, as each server's is, no chain of the program has begun before either (`lawful`),
/// so it never answers Begun (`told`).
pub fn what_can_never_begin_never_does()
    ensures anew { (set : Set) (server : ℕ) (history : History) (request : Request) (seen : ℕ)
        (at : NeverAt) → IsSet set → All (λ arg. arg < 2 ^ 64) request.args
        → first_never set request.program ≡ Some at
        → (chain : ChainId) (stamp : ℕ) (results : List ℕ)
        → (answer set server history request seen).answer ≢ Begun chain stamp results false }
    ensures added { (set : Set) (server : ℕ) (history : History) (request : Request) (seen : ℕ)
        (at : NeverAt) → IsSet set → All (λ arg. arg < 2 ^ 64) request.args
        → first_never set request.program ≡ Some at → (begun : BegunEntry)
        → (answer set server history request seen).added ≢ Some (BegunAs begun) }
    ensures lawful { (set : Set) (server : ℕ) (history : History) (begun : BegunEntry)
        (at : NeverAt) → IsSet set → All (λ arg. arg < 2 ^ 64) begun.request.args
        → first_never set begun.request.program ≡ Some at
        → IsLawful set server history (BegunAs begun) → ⊥ }
    ensures told { (set : Set) (server : ℕ) (history : History) (request : Request) (seen : ℕ)
        (at : NeverAt) → IsSet set → All (λ arg. arg < 2 ^ 64) request.args
        → first_never set request.program ≡ Some at → EachIsLawful set server history
        → (chain : ChainId) (stamp : ℕ) (results : List ℕ) (again : Bool)
        → (answer set server history request seen).answer ≢ Begun chain stamp results again }
{}
