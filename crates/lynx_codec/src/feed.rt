ghost use Rattle.std.specs.Prelude.{◌≡◌, ◌≤◌, ◌++◌, ◌⊎◌, ℕ, List, [], length, drop, Some, None, Ok, Err, IfOk, IfErr, IfSome, IfNone, OnOk, OnErr};
ghost use Rattle.lynx_codec.specs.declared.fault.DecodeFault.TheVariants.{Memory as WantOfMemory};
ghost use Rattle.lynx_codec.specs.declared.item.Item.{Item};
ghost use Rattle.lynx_codec.specs.Encoding.{encoding};
ghost use Rattle.lynx_codec.specs.Ranges.{IsItem};
ghost use Rattle.lynx_codec.specs.Front.{front};
ghost use Rattle.lynx_codec.specs.Feeding.{Gives, Waits, Faults, end_of};

use crate::fault::DecodeFault;
use crate::front::find_front;
use crate::item::Item;
use lynx_names::Memory;
use std::alloc::Global;
use std::marker::Model;

/// Gives back the items of a stream of bytes that comes in pieces of any size.
///
/// Contracts see a feed as the bytes that were pushed and not given back, and the fault that ended
/// it. All calls together take time in proportion to the bytes that are pushed: an item is read
/// when its last byte has come, and before that a call of [`Feed::next`] looks at five bytes at
/// most.
#[derive(Debug, Drop)]
pub struct Feed {
    bytes: Vec<u8>,
    /// How many of the bytes were given back, as items.
    given: usize,
    failed: Option<DecodeFault>,
}

impl Model for Feed {
    ghost use Rattle.std.specs.Prelude.{◌≤◌, length};
    ghost use Rattle.lynx_codec.specs.Feeding.{Stream, stream_of, IsFailing};

    ghost Value = { Stream };

    ghost view = { λ feed. stream_of feed.bytes.items feed.given feed.failed };

    ghost invariant = { λ feed. (feed.given ≤ length feed.bytes.items)
        × IsFailing (stream_of feed.bytes.items feed.given feed.failed) };
}

impl Feed {
    /// A feed that was pushed nothing. It takes no memory.
    pub fn new(alloc: Global) -> Feed
        ensures { result ≡ record { rest = []; failed = None } }
    {
        Feed {
            bytes: Vec::new(alloc),
            given: 0,
            failed: None,
        }
    }

    /// Adds a piece at the end of the stream. A feed that has failed takes it too, though it gives
    /// nothing any more.
    pub fn push(&mut self, piece: &[u8]) -> Result<(), Memory>
        ensures ok { OnOk result
            (self.new ≡ record self.old { rest = self.old.rest ++ piece.now }) }
        ensures err { OnErr result (self.new ≡ self.old) }
    {
        self.forget_given();
        self.bytes.extend_from_slice(piece)?;
        Ok(())
    }

    /// Takes the given bytes away where they are half of all or more: so all that is ever moved is
    /// no more than what was given.
    fn forget_given(&mut self)
        ensures { self.new ≡ self.old }
    {
        if self.bytes.len() - self.given <= self.given {
            forget(&mut self.bytes, self.given);
            self.given = 0;
        }
    }

    /// The next item of the stream. None where more bytes have to come.
    ///
    /// BadTag comes as soon as the first byte of an item is known, BadLength as soon as its length
    /// is; the faults of its fields come once its body is whole. Each of them ends the feed; want
    /// of memory doesn't.
    pub fn next(&mut self, alloc: Global) -> Result<Option<Item>, DecodeFault>
        ensures given { IfOk result (λ given. IfSome given (λ item. Gives self.old item self.new)) }
        ensures waits { IfOk result (λ given. IfNone given (Waits self.old self.new)) }
        ensures fault { IfErr result (Faults self.old self.new) }

        // A feed that has failed gives the same fault again.
        ensures again { IfSome self.old.failed (λ fault. result ≡ Err fault) }

        // What is whole is given, unless memory runs out.
        ensures whole { (item : Item) (more : List ℕ) → IsItem item →
            self.old.rest ≡ encoding item ++ more
            → (result ≡ Ok (Some item)) ⊎ (result ≡ Err WantOfMemory) }
    {
        match self.failed {
            Some(fault) => Err(fault),
            None => self.read_next(alloc),
        }
    }

    fn read_next(&mut self, alloc: Global) -> Result<Option<Item>, DecodeFault>
        requires { self.old.failed ≡ None }
        ensures given { IfOk result (λ given. IfSome given (λ item. Gives self.old item self.new)) }
        ensures waits { IfOk result (λ given. IfNone given (Waits self.old self.new)) }
        ensures fault { IfErr result (Faults self.old self.new) }
    {
        match find_front(alloc, self.waiting()) {
            Ok(None) => Ok(None),
            Ok(Some((item, size))) => {
                self.given += size;
                Ok(Some(item))
            }
            Err(fault) => {
                if fault != DecodeFault::Memory {
                    self.failed = Some(fault);
                }
                Err(fault)
            }
        }
    }

    /// The bytes that were not given back yet.
    fn waiting(&self) -> &[u8]
        ensures { result.now ≡ self.now.rest }
    {
        &self.bytes[self.given..]
    }

    /// Ends the stream, once all its items and its fault, if it has one, have been given: the fault
    /// that ended the feed, or Short where an item has begun and isn't whole.
    pub fn finish(self) -> Result<(), DecodeFault>
        requires { IfNone self.failed (front self.rest ≡ Ok None) }
        ensures { result ≡ end_of self.failed self.rest }
    {
        match self.failed {
            Some(fault) => Err(fault),
            None if self.waiting().is_empty() => Ok(()),
            None => Err(DecodeFault::Short),
        }
    }
}

/// Takes away the first bytes.
fn forget(bytes: &mut Vec<u8>, count: usize)
    requires { count ≤ length bytes.old.items }
    ensures { bytes.new.items ≡ drop count bytes.old.items }
{
    bytes.drain(..count);
}
