ghost use Rattle.std.specs.Prelude.{◌≡◌, ◌≢◌, ◌≤◌, length, None, Ok, Err, IfOk, IfSome};
ghost use Rattle.lynx_codec.specs.declared.fault.DecodeFault.TheVariants.{Memory};
ghost use Rattle.lynx_codec.specs.Front.{front};
ghost use Rattle.lynx_codec.specs.Feeding.{Finds, IsFront};

use crate::fault::DecodeFault;
use crate::item::Item;
use crate::limits::MAX_BODY_BYTES;
use crate::reading::read_body;
use crate::tag::Tag;
use std::alloc::Global;

#[tactic(auto, unfolding(crate::specs::Front::front))]
fn read_front(alloc: Global, bytes: &[u8]) -> Result<Option<(Item, usize)>, DecodeFault>
    ensures exact { Finds bytes.now result }
    ensures memory { result ≡ Err Memory → front bytes.now ≢ Ok None }
    ensures size { IfOk result (λ found. IfSome found (λ f. f.1 ≤ length bytes.now)) }
{
    let [byte, rest @ ..] = bytes else {
        return Ok(None);
    };
    let tag = Tag::from_byte(*byte).ok_or(DecodeFault::BadTag)?;
    if rest.len() < 4 {
        return Ok(None);
    }
    let (size, rest) = rest.split_at(4);
    let size = u32::from_be_bytes([size[0], size[1], size[2], size[3]]) as usize;
    if MAX_BODY_BYTES < size {
        return Err(DecodeFault::BadLength);
    }
    if rest.len() < size {
        return Ok(None);
    }
    let item = read_body(alloc, tag, &rest[..size])?;
    Ok(Some((item, size + 5)))
}

/// The item at the front of a stream, and how many bytes its encoding has. None where nothing whole
/// stands there, and no fault yet. Memory is taken for the lists of a whole body alone.
pub fn find_front(alloc: Global, bytes: &[u8]) -> Result<Option<(Item, usize)>, DecodeFault>
    ensures exact { Finds bytes.now result }
    ensures memory { result ≡ Err Memory → front bytes.now ≢ Ok None }
    ensures item { IfOk result (λ found. IfSome found (λ f. IsFront bytes.now f.0 f.1)) }
{
    read_front(alloc, bytes)
}
