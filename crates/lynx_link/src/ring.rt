//! One ring.
ghost use Rattle.std.specs.Prelude.{IfOk};
ghost use Rattle.lynx_link.specs.Rings.{IsNewRing};

use crate::receiver::Receiver;
use crate::sender::Sender;
use lynx_names::Memory;
use rtrb::RingBuffer;
use std::alloc::Global;

/// Parcels that a ring has room for.
pub const RING_PARCELS: usize = 256;

/// Both ends of a new ring. All the memory that it ever takes is taken here.
pub fn new_ring(alloc: Global) -> Result<(Sender, Receiver), Memory>
    ensures { IfOk result (λ ends. IsNewRing ends.0 ends.1) }
{
    let (producer, consumer) = RingBuffer::new(alloc, RING_PARCELS)?;
    Ok((Sender { producer }, Receiver { consumer }))
}
