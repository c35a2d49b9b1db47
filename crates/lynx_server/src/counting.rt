//! What an entry counts.
ghost use Rattle.std.specs.Prelude.{◌≡◌, ◌+◌, ◌<◌, ℕ, if◌then◌else◌, slice_index};
ghost use Rattle.lynx_names.specs.declared.limits.TheConstants.{MAX_ENTRIES, MAX_SERVERS};
ghost use Rattle.lynx_rules.specs.Turns.{ends_visit};

use lynx_entry::Entry;
use lynx_names::{ServerId, learn};
use lynx_rules::visits::is_last_at;
use lynx_set::ChainSet;
use lynx_turn::Turns;

/// A chain that ran its last hop at the server is through there. Takes no memory.
pub(crate) fn count_turn(set: &ChainSet, server: ServerId, turns: &mut Turns, entry: &Entry)
    requires { (origin : ℕ) → origin < MAX_SERVERS → slice_index turns.old origin < MAX_ENTRIES }
    ensures { (origin : ℕ) → slice_index turns.new origin
        ≡ (if ends_visit set.now server origin entry.now then slice_index turns.old origin + 1
        else slice_index turns.old origin) }
{
    match entry {
        Entry::Begun(begun) => {
            let origin = begun.chain.origin;
            if is_last_at(set, server, begun.request.program, 0) {
                learn(origin.index());
                turns.done(origin);
            }
        }
        Entry::Refused(_) => {}
        Entry::Hop(ran) => {
            let origin = ran.message.chain.origin;
            if is_last_at(
                set,
                server,
                ran.message.program,
                usize::from(ran.message.hop),
            ) {
                learn(origin.index());
                turns.done(origin);
            }
        }
    }
}
