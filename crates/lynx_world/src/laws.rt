//! Laws of legal worlds, each the contract of a function that does nothing.
ghost use Rattle.std.specs.Prelude.{◌≢◌, ◌<◌, ◌≤◌, ℕ, List, [], ◌∷◌, ◌++◌, All, IfSome};
ghost use Rattle.lynx_names.specs.declared.limits.TheConstants.{MAX_SERVERS};
ghost use Rattle.lynx_set.specs.Rules.{IsSet};
ghost use Rattle.lynx_set.specs.Set.{Set};
ghost use Rattle.lynx_entry.specs.declared.answer.Delivered.TheVariants.{Malformed};
ghost use Rattle.lynx_entry.specs.declared.event.Event.{Event};
ghost use Rattle.lynx_entry.specs.declared.message.Message.{Message};
ghost use Rattle.lynx_entry.specs.declared.request.Request.{Request};
ghost use Rattle.lynx_rules.specs.Answers.{answer};
ghost use Rattle.lynx_rules.specs.Deliveries.{delivery};
ghost use Rattle.lynx_world.specs.Placed.{Placed};
ghost use Rattle.lynx_world.specs.Legal.{IsLegal, IsSent, MayFollow};
ghost use Rattle.lynx_world.specs.Order.{IsOnceAndInOrder, IsInOriginOrder};
ghost use Rattle.lynx_world.specs.Steps.{destination_of, world_after};
ghost use Rattle.lynx_world.specs.Worlds.{history_of, new_world};

/// What a begin adds at a server of the set may stand behind what the servers did, whatever stamp
/// the client was told.
pub fn a_begin_adds_what_may_follow()
    ensures { (set : Set) (list : List Placed) (server : ℕ) (request : Request) (seen : ℕ)
        → IsLegal set list → server < set.servers
        → IfSome (answer set server (history_of server list) request seen).added
        (λ entry. MayFollow set list (record { server = server; entry = entry })) }
{}

/// .. and so may what a delivery of a sent message adds, whatever the server holds.
pub fn a_delivery_adds_what_may_follow()
    ensures { (set : Set) (list : List Placed) (server room : ℕ) (held : List Message)
        (message : Message) → server < set.servers → IsSent set list message
        → IfSome (delivery set server room (history_of server list) held message).added
        (λ entry. MayFollow set list (record { server = server; entry = entry })) }
{}

/// A list with one more entry, which may stand there, is legal.
pub fn what_may_follow_keeps_it_legal()
    ensures { (set : Set) (list : List Placed) (placed : Placed) → IsLegal set list
        → MayFollow set list placed → IsLegal set (list ++ placed ∷ []) }
{}

/// Whatever events come to a new world, the list of all that its servers did then is legal.
pub fn events_leave_a_legal_list()
    ensures { (set : Set) (events : List Event)
        → IsLegal set (world_after (new_world set) events).list }
{}

/// Each hop acts at most once, and in chain order: in every legal list the hops of each chain stand
/// as 0, 1, .., n - 1.
pub fn once_and_in_order()
    ensures { (set : Set) (list : List Placed) → IsLegal set list → IsOnceAndInOrder list }
{}

/// Two chains of one origin keep their order everywhere: at each server every hop of the one that
/// began first stands before every hop of the other. Each `ChainSet` has at most 16 servers.
pub fn origin_order()
    ensures { (set : Set) (list : List Placed) → set.servers ≤ MAX_SERVERS → IsLegal set list
        → IsInOriginOrder list }
{}

/// A message that some entry of a legal list sends is never answered Malformed, whatever else its
/// server holds, if that was sent too, and however much room it has to hold messages.
pub fn sent_is_never_malformed()
    ensures { (set : Set) (list : List Placed) (room : ℕ) (held : List Message)
        (message : Message) →
        IsSet set → IsLegal set list → IsSent set list message → All (IsSent set list) held →
        (delivery set (destination_of set message) room
        (history_of (destination_of set message) list) held message).delivered ≢ Malformed }
{}
