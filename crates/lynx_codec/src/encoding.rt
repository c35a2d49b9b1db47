ghost use Rattle.std.specs.Prelude.{◌≡◌, ◌≤◌, ◌++◌, IfOk, OnOk, vec_capacity};
ghost use Rattle.lynx_codec.specs.declared.limits.TheConstants.{MAX_ENCODING_BYTES};
ghost use Rattle.lynx_codec.specs.Adding.{HasRoom};
ghost use Rattle.lynx_codec.specs.Encoding.{encoding};
ghost use Rattle.lynx_codec.specs.Ranges.{IsInRange, IsItem};

use crate::bodies::{put_body, put_entry};
use crate::item::Item;
use crate::limits::MAX_ENCODING_BYTES;
use crate::tag::Tag;
use crate::writing::put_byte;
use lynx_entry::Entry;
use lynx_names::Memory;
use std::alloc::Global;

/// Adds the encoding of an item at the end, without taking memory: there is room for the longest
/// encoding.
#[tactic(auto, unfolding(crate::specs::Encoding::encoding, crate::specs::Encoding::length_bytes))]
pub fn append(item: &Item, out: &mut Vec<u8>)
    requires range { IsInRange item.now }
    requires room { HasRoom out.old MAX_ENCODING_BYTES }
    ensures encoding { out.new.items ≡ out.old.items ++ encoding item.now }
    ensures capacity { vec_capacity out.old ≤ vec_capacity out.new }
    ensures item { IsItem item.now }
{
    put_byte(out, Tag::of(item).byte());
    let start = out.len();
    out.extend_from_slice(&[0, 0, 0, 0]).unwrap();
    put_body(out, item);
    let length = (out.len() - start - 4) as u32;
    out[start..start + 4].copy_from_slice(&length.to_be_bytes());
}

/// Adds the encoding of an entry, as `append` adds that of the item that has it: no copy of the
/// entry is made.
#[tactic(auto, unfolding(crate::specs::Encoding::encoding, crate::specs::Encoding::length_bytes))]
pub fn append_entry(entry: &Entry, out: &mut Vec<u8>)
    requires range { IsInRange (Item.Entry entry.now) }
    requires room { HasRoom out.old MAX_ENCODING_BYTES }
    ensures encoding { out.new.items ≡ out.old.items ++ encoding (Item.Entry entry.now) }
    ensures capacity { vec_capacity out.old ≤ vec_capacity out.new }
    ensures item { IsItem (Item.Entry entry.now) }
{
    put_byte(out, Tag::of_entry(entry).byte());
    let start = out.len();
    out.extend_from_slice(&[0, 0, 0, 0]).unwrap();
    put_entry(out, entry);
    let length = (out.len() - start - 4) as u32;
    out[start..start + 4].copy_from_slice(&length.to_be_bytes());
}

/// The encoding of an item. It takes [`MAX_ENCODING_BYTES`] of memory, however short the encoding.
pub fn encode(alloc: Global, item: &Item) -> Result<Vec<u8>, Memory>
    requires { IsInRange item.now }
    ensures encoding { IfOk result (λ bytes. bytes.items ≡ encoding item.now) }
    ensures item { OnOk result (IsItem item.now) }
{
    let mut out = Vec::with_capacity(alloc, MAX_ENCODING_BYTES)?;
    append(item, &mut out);
    Ok(out)
}
