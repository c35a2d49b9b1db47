//! The promises of the store.
ghost use Rattle.std.specs.Prelude.{◌≡◌, ℕ, List, Result, Some};
ghost use Rattle.lynx_set.specs.Rules.{IsSet};
ghost use Rattle.lynx_set.specs.Set.{Set};
ghost use Rattle.lynx_extend.specs.Extends.{Extends};
ghost use Rattle.lynx_graph.specs.Acceptance.{IsAccepted};
ghost use Rattle.lynx_entry.specs.declared.answer.Answer.{Answer};
ghost use Rattle.lynx_entry.specs.declared.entry.Entry.{Entry};
ghost use Rattle.lynx_entry.specs.declared.event.Event.{Event};
ghost use Rattle.lynx_entry.specs.declared.request.Request.{Request};
ghost use Rattle.lynx_entry.specs.Entry.{History};
ghost use Rattle.lynx_rules.specs.Lawful.{IsLawful};
ghost use Rattle.lynx_rules.specs.Messages.{next_message};
ghost use Rattle.lynx_rules.specs.Turns.{turn_of};
ghost use Rattle.lynx_server.specs.History.{IsLawfulHistory};
ghost use Rattle.lynx_server.specs.Keeping.{kept_of};
ghost use Rattle.lynx_world.specs.Legal.{IsLegal};
ghost use Rattle.lynx_world.specs.Placed.{Placed};
ghost use Rattle.lynx_world.specs.Steps.{world_after};
ghost use Rattle.lynx_world.specs.Worlds.{WorldState, new_world};
ghost use Rattle.lynx_weave.specs.declared.told.ToldItem.{ToldItem};
ghost use Rattle.lynx_weave.specs.declared.gather_fault.GatherFault.{GatherFault};
ghost use Rattle.lynx_weave.specs.Gathering.{Gathers};
ghost use Rattle.lynx_weave.specs.Weaving.{IsWoven};
ghost use Rattle.lynx_promises.specs.Growths.{AreGrowths, Growth, after_growths, grown, world_later};
ghost use Rattle.lynx_promises.specs.Promises.{AreSound, GathersWell, KeepParts, KeepsPromises, StandsOverStops};
ghost use Rattle.lynx_promises.specs.Requests.{AnswersAlike, answer_again, asks};
ghost use Rattle.lynx_promises.specs.Stops.{Happening, after_all, past_of};

use lynx_entry::Outcome;
use lynx_keep::Keeper;
use lynx_set::Version;

/// The headline. Of every set that has a text, and of every list of begins, deliveries, losses,
/// wakings and restarts that come to its servers: each hop acts at most once and in chain order,
/// chains of one origin keep their order everywhere, a request begins one chain at most, and where
/// the set is accepted, for either reason, some order of the whole chains gives every result and
/// every table. An order or a cycle that is right of such a run is then an order, so `explain`
/// gives one.
pub fn headline()
    ensures { (set : Set) (events : List Event) → IsSet set
        → KeepsPromises set (world_after (new_world set) events).list }
{}

/// The same over any number of stops, of what sessions are told too. The servers are opened over
/// any legal list: over nothing, over what another run left, or over what was restored. They stop
/// within a call or between two, and are opened again over what they kept; sessions ask and look,
/// and answers are lost. What the servers keep then has the promises, and weaves to one world in
/// which all that was told stands: `weave` and `gather` never answer that an entry or an item
/// disagrees. And one server's answers to one request are alike.
pub fn over_stops()
    ensures { (set : Set) (list : List Placed) (sessions : ℕ) (happenings : List Happening)
        → IsSet set → IsLegal set list
        → StandsOverStops set (after_all (past_of set list sessions) happenings) }
{}

/// .. and of what keepers keep: where each keeps its part of what the servers did, and its store
/// gives back what it was given, `gather` never answers that they disagree, and the world that it
/// gives has the promises.
pub fn what_is_kept_gathers<K: Keeper>()
    ensures { (set : Set) (list : List Placed) (sessions : ℕ) (happenings : List Happening)
        (old new : List K) (gathered : Result WorldState GatherFault)
        → IsSet set → IsLegal set list
        → KeepParts K.terms set (after_all (past_of set list sessions) happenings).world.list old
        → AreSound K.terms set new
        → Gathers K.terms set old new (after_all (past_of set list sessions) happenings).told
        gathered → GathersWell set gathered }
{}

/// What was answered once is answered alike for ever. Where a server begins a request, refuses it,
/// or answers so from its record, then it answers this request by the same chain, stamp and
/// results, or by the same need and stamp, and says `again`: whatever happens in between, over any
/// number of stops and growths, whoever asks, and of whatever world. That a server has stopped, and
/// want of memory, are no answers of a world: they say nothing of the request.
pub fn what_was_answered_is_answered_alike()
    ensures { (world : WorldState) (told : List (List ToldItem)) (happenings : List Happening)
        (growths : List Growth) (server : ℕ) (request : Request) (seen later : ℕ)
        (given again : Answer) → AreGrowths world.set growths
        → (asks world server request seen).outcome ≡ Outcome.Answered given
        → answer_again given ≡ Some again
        → (asks (world_later (asks world server request seen).world told happenings growths)
        server request later).outcome ≡ Outcome.Answered again }
{}

/// The promises hold of every legal list, whatever made it.
pub fn legal_lists_keep_the_promises()
    ensures { (set : Set) (list : List Placed) → IsSet set → IsLegal set list
        → KeepsPromises set list }
{}

/// .. and so of each world that was woven of what servers kept; and of all that sessions were told
/// in it, one server's answers to one request are alike.
pub fn woven_worlds_keep_the_promises()
    ensures promises { (set : Set) (histories : List History) (told : List (List ToldItem))
        (world : WorldState) → IsSet set → IsWoven set histories told world
        → KeepsPromises set world.list }
    ensures requests { (set : Set) (histories : List History) (told : List (List ToldItem))
        (world : WorldState) → IsWoven set histories told world → AnswersAlike told }
{}

/// What is lawful for a set is lawful for the same set at version 2, and what servers did is legal
/// for it: so an upgraded store opens with the same entries, which have the same tables.
pub fn an_upgrade_keeps_what_is_lawful()
    ensures lawful { (set : Set) (server : ℕ) (history : History)
        → IsLawfulHistory set server history
        → IsLawfulHistory (record set { version = Version.Two }) server history
        × (kept_of (record set { version = Version.Two }) history ≡ kept_of set history) }
    ensures legal { (set : Set) (list : List Placed) → IsLegal set list
        → IsLegal (record set { version = Version.Two }) list }
{}

/// What is lawful for a set is lawful for each set that extends it, and leaves the same tables and
/// turns; what servers did is legal for it, and sends the same messages. So stores of the one open
/// as stores of the other, and what was owed is owed.
pub fn an_extension_keeps_what_is_lawful()
    ensures lawful { (old new : Set) (server : ℕ) (history : History)
        → IsSet old → Extends old new → IsLawfulHistory old server history
        → IsLawfulHistory new server history × (kept_of new history ≡ kept_of old history) }
    ensures legal { (old new : Set) (list : List Placed)
        → IsSet old → Extends old new → IsLegal old list → IsLegal new list }
    ensures turns { (old new : Set) (server : ℕ) (history : History) (origin : ℕ)
        → Extends old new → IsLawfulHistory old server history
        → turn_of new server history origin ≡ turn_of old server history origin }
    ensures messages { (old new : Set) (server : ℕ) (history : History) (entry : Entry)
        → Extends old new → IsLawful old server history entry
        → next_message new entry ≡ next_message old entry }
{}

/// Where a set is accepted so is each set that it extends.
pub fn what_an_accepted_set_extends_is_accepted()
    ensures { (old new : Set) → Extends old new → IsAccepted new → IsAccepted old }
{}

/// A set may grow as often as one likes. Over any number of stops, servers being opened by a set
/// that extends theirs in between, all that they did is a run of the last set: it has the promises,
/// and where the last set is accepted, what ran before takes its place in the one order.
pub fn over_growths()
    ensures { (set : Set) (list : List Placed) (sessions : ℕ) (happenings : List Happening)
        (growths : List Growth) → IsSet set → IsLegal set list → AreGrowths set growths
        → StandsOverStops (grown set growths)
        (after_growths (after_all (past_of set list sessions) happenings) growths) }
{}

/// .. and so of what keepers keep of it.
pub fn what_grew_gathers<K: Keeper>()
    ensures { (set : Set) (list : List Placed) (sessions : ℕ) (happenings : List Happening)
        (growths : List Growth) (old new : List K) (gathered : Result WorldState GatherFault)
        → IsSet set → IsLegal set list → AreGrowths set growths
        → KeepParts K.terms (grown set growths)
        (after_growths (after_all (past_of set list sessions) happenings) growths).world.list old
        → AreSound K.terms (grown set growths) new
        → Gathers K.terms (grown set growths) old new
        (after_growths (after_all (past_of set list sessions) happenings) growths).told gathered
        → GathersWell (grown set growths) gathered }
{}
