ghost use Rattle.std.specs.Prelude.{◌≡◌, ◌<◌, ◌≤◌, [], filter, insert, length, not, IfOk, option_copied};
ghost use Rattle.lynx_names.specs.declared.limits.TheConstants.{MAX_HELD};
ghost use Rattle.lynx_turn.specs.Held.{is_before, is_for, lesser, place_for};

use lynx_entry::Message;
use lynx_names::limits::MAX_HELD;
use lynx_names::{ChainId, Memory};
use std::alloc::Global;
use std::marker::Model;

/// Messages that are held, each put behind those that are before it by origin, index and hop. There
/// is room for [`MAX_HELD`] of them from the making on.
#[derive(Debug, Drop)]
pub struct HeldBuffer {
    messages: Vec<Message>,
}

impl Model for HeldBuffer {
    ghost use Rattle.std.specs.Prelude.{List, vec_capacity};
    ghost use Rattle.lynx_entry.specs.declared.message.Message.{Message};
    ghost use Rattle.lynx_turn.specs.Held.{IsHeld};

    ghost Value = { List Message };

    ghost view = { λ buffer. buffer.messages.items };

    ghost invariant = { λ buffer. IsHeld buffer.messages.items (vec_capacity buffer.messages) };
}

impl HeldBuffer {
    /// Holds nothing. The room is made here.
    pub fn new(alloc: Global) -> Result<HeldBuffer, Memory>
        ensures { IfOk result (λ buffer. buffer ≡ []) }
    {
        let messages = Vec::with_capacity(alloc, MAX_HELD)?;
        Ok(HeldBuffer { messages })
    }

    pub fn as_slice(&self) -> &[Message]
        ensures messages { result.now ≡ self.now }
        ensures few { length self.now ≤ MAX_HELD }
    {
        self.messages.as_slice()
    }

    /// Holds a message, behind those that are before it. Takes no memory.
    pub fn hold(&mut self, message: Message)
        requires { length self.old < MAX_HELD }
        ensures { self.new ≡ insert self.old (place_for message self.old) message }
    {
        let place = place_for(self.messages.as_slice(), &message);
        let _ = self.messages.insert(place, message);
    }

    /// Lets go what is held for that hop of the chain.
    pub fn release(&mut self, chain: ChainId, hop: u8)
        ensures { self.new ≡ filter (λ other. not (is_for chain hop other)) self.old }
    {
        self.messages.retain(|other| !is_for(chain, hop, other));
    }

    /// Lets go of all. The room stays.
    pub fn clear(&mut self)
        ensures { self.new ≡ [] }
    {
        self.messages.clear();
    }
}

/// The message is for that hop of the chain.
fn is_for(chain: ChainId, hop: u8, message: &Message) -> bool
    ensures { result ≡ is_for chain hop message.now }
{
    message.chain == chain && message.hop == hop
}

/// By origin, index and hop.
fn is_before(left: &Message, right: &Message) -> bool
    ensures { result ≡ is_before left.now right.now }
{
    if left.chain.origin != right.chain.origin {
        left.chain.origin.number() < right.chain.origin.number()
    } else if left.chain.index != right.chain.index {
        left.chain.index < right.chain.index
    } else {
        left.hop < right.hop
    }
}

/// The lesser of a message and the least so far.
pub fn lesser<'a>(least: Option<&'a Message>, message: &'a Message) -> Option<&'a Message>
    ensures { option_copied result ≡ lesser (option_copied least.entry) message.entry.now }
{
    match least {
        Some(so_far) if !is_before(message, so_far) => Some(so_far),
        _ => Some(message),
    }
}

/// How many of the first are before the message.
fn place_for(held: &[Message], message: &Message) -> usize
    ensures place { result ≡ place_for message.now held.now }
    ensures within { result ≤ length held.now }
{
    held.iter()
        .take_while(|other| is_before(other, message))
        .count()
}
