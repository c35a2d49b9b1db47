//! Entries that are read back from their encodings.
ghost use Rattle.std.specs.Prelude.{◌≡◌, ◌∷◌, [], IfNone, IfOk, IfSome, OnOk};
ghost use Rattle.lynx_keep.specs.Stored.{AreStored, HasEntries, IsEntry, entries_in};

use lynx_codec::{Feed, Item};
use lynx_entry::Entry;
use lynx_names::Memory;
use std::alloc::Global;

/// The entry that an item is.
fn entry_of(item: Item) -> Entry
    requires { IsEntry item }
    ensures { item ≡ Item.Entry result }
{
    match item {
        Item::Entry(entry) => entry,
        _ => unreachable!(),
    }
}

/// The next entry of a feed that has nothing but entries before it. None where none is left.
fn next_entry(alloc: Global, feed: &mut Feed) -> Result<Option<Entry>, Memory>
    requires { HasEntries feed.old }
    ensures entry { IfOk result (λ found. IfSome found (λ entry.
        entries_in feed.old.rest ≡ entry ∷ entries_in feed.new.rest)) }
    ensures end { IfOk result (λ found. IfNone found (entries_in feed.old.rest ≡ [])) }
    ensures others { OnOk result (HasEntries feed.new) }
{
    match feed.next(alloc) {
        Ok(Some(item)) => Ok(Some(entry_of(item))),
        Ok(None) => Ok(None),
        Err(fault) => Err(fault.want_of_memory()),
    }
}

/// The entries whose encodings these bytes are. Takes the time and the memory of all of them.
pub(crate) fn read_entries(alloc: Global, encodings: &[u8]) -> Result<Vec<Entry>, Memory>
    requires { AreStored encodings.now }
    ensures { IfOk result (λ entries. entries.items ≡ entries_in encodings.now) }
{
    let mut feed = Feed::new(alloc);
    feed.push(encodings)?;
    let mut entries = Vec::new(alloc);
    while let Some(entry) = next_entry(alloc, &mut feed)? {
        entries.push(entry)?;
    }
    Ok(entries)
}
