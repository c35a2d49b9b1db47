//! Whether bytes are the encoding of an item.
ghost use Rattle.std.specs.Prelude.{IfNone, IfOk};
ghost use Rattle.lynx_codec.specs.Feeding.{Waits};

use crate::codec::items::{ItemParts, item};
use lynx_codec::{DecodeFault, Feed, Item, encode};
use std::alloc::Global;

/// An item that a feed gave, in a box, which is dropped by one call, and its encoding as it is
/// written.
#[derive(Drop)]
pub struct Given {
    pub item: Box<Item>,
    pub encoding: Vec<u8>,
}

/// What the feed gives next.
pub fn next(alloc: Global, feed: &mut Feed) -> Result<Option<Given>, DecodeFault>
    ensures { IfOk result (λ given. IfNone given (Waits feed.old feed.new)) }
{
    match feed.next(alloc)? {
        None => Ok(None),
        Some(item) => {
            let item = Box::new(alloc, item)?;
            let encoding = encode(alloc, &item)?;
            Ok(Some(Given { item, encoding }))
        }
    }
}

/// Whether this item was given, and is written as these bytes.
fn is_item(given: Option<Given>, item: &Item, first: &[u8], second: &[u8]) -> bool {
    match given {
        None => false,
        Some(given) => {
            *given.item == *item
                && given.encoding.as_slice().starts_with(first)
                && given.encoding.as_slice().ends_with(second)
                && given.encoding.len() == first.len() + second.len()
        }
    }
}

/// Whether the first piece gives nothing, and the second this item and no more.
fn is_given(alloc: Global, first: &[u8], second: &[u8], item: &Item) -> Result<bool, DecodeFault> {
    let mut feed = Feed::new(alloc);
    feed.push(first)?;
    if next(alloc, &mut feed)?.is_some() {
        return Ok(false);
    }
    feed.push(second)?;
    let given = next(alloc, &mut feed)?;
    Ok(is_item(given, item, first, second) && next(alloc, &mut feed)?.is_none())
}

/// Whether these bytes are the encoding of the item, in two pieces that are cut at any place.
pub fn is_encoding(alloc: Global, encoding: &[u8], parts: ItemParts) -> Result<bool, DecodeFault> {
    let item = item(alloc, parts)?;
    for cut in 0..encoding.len() {
        let (first, second) = encoding.split_at(cut);
        if !is_given(alloc, first, second, &item)? {
            return Ok(false);
        }
    }
    Ok(true)
}
