//! What is to become of a message.
ghost use Rattle.std.specs.Prelude.{◌≡◌, ◌&&◌, IfOk, None, false, filter, option_copied, not, true};
ghost use Rattle.std.specs.List.{list_any};
ghost use Rattle.lynx_rules.specs.Checks.{is_well_formed};
ghost use Rattle.lynx_rules.specs.Deliveries.{same_hop, same_message};
ghost use Rattle.lynx_rules.specs.Lawful.{hop_entry_of};
ghost use Rattle.lynx_server.specs.inner.Sorting.{IsEarly, IsSorted, IsSortedByTurn, stands_here};
ghost use Rattle.lynx_turn.specs.Held.{least_of};

use crate::register::Register;
use lynx_entry::{Delivered, Message};
use lynx_names::limits::MAX_HELD;
use lynx_names::{Memory, Stamp};
use lynx_rules::checks::fits_program;
use lynx_rules::deliveries::repeated;
use lynx_turn::Stand;
use lynx_turn::held::lesser;
use std::alloc::Global;

/// What is to become of a message.
#[derive(Drop)]
pub(crate) enum Sorted {
    /// It is answered so, and nothing changes.
    Answered(Delivered),
    /// It waits for its turn.
    Waits,
    /// Its hop runs, and the entry has this stamp.
    Runs(Stamp),
}

/// Both are for one hop of one chain.
fn same_hop(left: &Message, right: &Message) -> bool
    ensures { result ≡ same_hop left.now right.now }
{
    left.chain == right.chain && left.hop == right.hop
}

/// Another message for the hop is held.
fn holds_another(held: &[Message], message: &Message) -> bool
    ensures { result ≡ list_any (λ other. same_hop other message.now && not
        (same_message other message.now)) held.now }
{
    held.iter()
        .any(|other| same_hop(other, message) && other != message)
}

/// The message is held.
fn holds(held: &[Message], message: &Message) -> bool
    ensures { result ≡ list_any (same_message message.now) held.now }
{
    held.iter().any(|other| message == other)
}

/// What is to become of a message that comes before its turn.
fn sort_early(held: &[Message], message: &Message) -> Sorted
    ensures { IsEarly held.now message.now result }
{
    if holds_another(held, message) {
        Sorted::Answered(Delivered::Malformed)
    } else if holds(held, message) {
        Sorted::Answered(Delivered::Held)
    } else if held.len() < MAX_HELD {
        Sorted::Waits
    } else {
        Sorted::Answered(Delivered::Dropped)
    }
}

impl Register {
    /// What is to become of a well formed message whose hop hasn't run.
    fn sort_by_turn(&self, held: &[Message], message: &Message) -> Sorted
        requires formed { is_well_formed self.now.set self.now.server self.now.history
            message.now ≡ true }
        requires new { hop_entry_of message.now.chain message.now.hop self.now.history ≡ None }
        ensures { IsSortedByTurn self.now held.now message.now result }
    {
        match self.books.stand(message) {
            Stand::Past => Sorted::Answered(Delivered::Malformed),
            Stand::Early => sort_early(held, message),
            Stand::Now => match self.books.next_stamp(message.stamp) {
                Some(stamp) => Sorted::Runs(stamp),
                None => Sorted::Answered(Delivered::Full),
            },
        }
    }

    /// What is to become of a message, where these are held. In this order: a message that nobody
    /// can have sent; a hop that ran; a hop whose turn it is not; no room; else the hop runs.
    pub(crate) fn sort(
        &self,
        alloc: Global,
        held: &[Message],
        message: &Message,
    ) -> Result<Sorted, Memory>
        ensures { IfOk result (IsSorted self.now held.now message.now) }
    {
        if !(fits_program(self.books.set(), self.books.server(), message)
            && self.books.has_begun(message))
        {
            return Ok(Sorted::Answered(Delivered::Malformed));
        }
        if let Some(entry) = self.hop_entry_of(message.chain, message.hop) {
            let delivered = repeated(alloc, self.books.set(), message, entry)?;
            return Ok(Sorted::Answered(delivered));
        }
        Ok(self.sort_by_turn(held, message))
    }

    /// The least, by origin, index and hop, of these messages whose turn it is now.
    pub(crate) fn least_now<'a>(&self, held: &'a [Message]) -> Option<&'a Message>
        ensures { option_copied result ≡ least_of (filter (stands_here self.now) held.now) }
    {
        let mut least = None;
        for message in held {
            if self.stands_now(message) {
                least = lesser(least, message);
            }
        }
        least
    }

    /// It is the message's turn.
    fn stands_now(&self, message: &Message) -> bool
        ensures { result ≡ stands_here self.now message.now }
    {
        self.books.stand(message) == Stand::Now
    }
}
