//! The bodies of entries.
ghost use Rattle.std.specs.Prelude.{◌≡◌, ◌≢◌, ◌++◌, ℕ, List, IfNone, IfOk, IfSome, OnOk};
ghost use Rattle.lynx_entry.specs.declared.entry.Entry.{Entry};
ghost use Rattle.lynx_codec.specs.Entries.{IsEntryInRange};
ghost use Rattle.lynx_keep.specs.Stored.{encoding_of, HasEncoding};

use lynx_codec::limits::MAX_ENCODING_BYTES;
use lynx_codec::{DecodeFault, Feed, Item, append_entry};
use lynx_entry::Entry;
use lynx_names::Memory;
use std::alloc::Global;

/// The encoding of an entry.
pub fn body_of(alloc: Global, entry: &Entry) -> Result<Vec<u8>, Memory>
    requires { IsEntryInRange entry.now }
    ensures encoding { IfOk result (λ body. body.items ≡ encoding_of entry.now) }
    ensures formed { OnOk result (HasEncoding entry.now) }
{
    let mut body = Vec::with_capacity(alloc, MAX_ENCODING_BYTES)?;
    append_entry(entry, &mut body);
    Ok(body)
}

/// The entry whose encoding these bytes begin with, None where they begin with no encoding of one.
fn first_entry(alloc: Global, bytes: &[u8]) -> Result<Option<Entry>, Memory>
    ensures range { IfOk result (λ found. IfSome found IsEntryInRange) }
    ensures only { IfOk result (λ found. (entry : Entry) (more : List ℕ) → HasEncoding entry
        → bytes.now ≡ encoding_of entry ++ more → found ≡ Some entry) }
{
    let mut feed = Feed::new(alloc);
    feed.push(bytes)?;
    match feed.next(alloc) {
        Ok(Some(Item::Entry(entry))) => Ok(Some(entry)),
        Err(DecodeFault::Memory) => Err(Memory),
        _ => Ok(None),
    }
}

/// The entry whose encoding this body is, and nothing behind it. None where it is the encoding of
/// none.
pub fn entry_of(alloc: Global, body: &[u8]) -> Result<Option<Entry>, Memory>
    ensures some { IfOk result
        (λ found. IfSome found (λ entry. (body.now ≡ encoding_of entry) × HasEncoding entry)) }
    ensures none { IfOk result (λ found. IfNone found ((entry : Entry) → HasEncoding entry
        → body.now ≢ encoding_of entry)) }
{
    let Some(entry) = first_entry(alloc, body)? else {
        return Ok(None);
    };
    if body_of(alloc, &entry)?.as_slice() == body {
        Ok(Some(entry))
    } else {
        Ok(None)
    }
}
