//! A message on its way: it is written as its encoding, and read from it.
ghost use Rattle.std.specs.Prelude.{◌≡◌, ◌⊎◌, Ok, Err, Some, IfOk};
ghost use Rattle.lynx_entry.specs.declared.message.Message.{Message};
ghost use Rattle.lynx_codec.specs.declared.fault.DecodeFault.TheVariants.{Memory as WantOfMemory};
ghost use Rattle.lynx_codec.specs.declared.item.Item.{Item};
ghost use Rattle.lynx_codec.specs.Encoding.{encoding};
ghost use Rattle.lynx_codec.specs.Ranges.{IsItem, IsMessageInRange};

use lynx_codec::{DecodeFault, Feed, Item, encode};
use lynx_entry::Message;
use lynx_names::Memory;
use std::alloc::Global;

/// The message that an item is.
fn message_of(item: Item) -> Message
    requires { (message : Message) × (item ≡ Item.Message message) }
    ensures { item ≡ Item.Message result }
{
    match item {
        Item::Message(message) => message,
        _ => unreachable!(),
    }
}

/// What a feed of these bytes gives first.
fn read_first(alloc: Global, bytes: &[u8]) -> Result<Option<Item>, DecodeFault>
    ensures { (item : Item) → IsItem item → bytes.now ≡ encoding item →
        (result ≡ Ok (Some item)) ⊎ (result ≡ Err WantOfMemory) }
{
    let mut feed = Feed::new(alloc);
    feed.push(bytes)?;
    feed.next(alloc)
}

/// The message as it is read from its encoding.
pub(crate) fn carried(alloc: Global, message: Message) -> Result<Message, Memory>
    requires { IsMessageInRange message }
    ensures { IfOk result (λ read. read ≡ message) }
{
    let encoding = encode(alloc, &Item::Message(message))?;
    match read_first(alloc, encoding.as_slice()) {
        Ok(Some(item)) => Ok(message_of(item)),
        // The whole encoding stands there.
        Ok(None) => unreachable!(),
        Err(fault) => Err(fault.want_of_memory()),
    }
}
