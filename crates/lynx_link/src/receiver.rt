ghost use Rattle.std.specs.Prelude.{◌≡◌, ◌++◌, ◌<◌, length, IfNone, IfSome, IsSome};
ghost use Rattle.lynx_link.specs.Rings.{Receives, SeesRoom, SeesParcels};

use crate::parcel::Parcel;
use crate::sender::Sender;
use rtrb::Consumer;
use std::marker::Model;

/// The end of a ring that parcels come out at. Contracts see which ring it is, all that was
/// received so far, and the next parcels, as far as the receiver knows them.
#[derive(Drop)]
pub struct Receiver {
    pub(crate) consumer: Consumer<Parcel>,
}

impl Model for Receiver {
    ghost use Rattle.std.specs.Prelude.{◌≡◌};
    ghost use Rattle.rtrb.specs.Ring.{consumer_capacity, known_items, received};
    ghost use Rattle.lynx_link.specs.Rings.{Receiving, ring_of};

    ghost Value = { Receiving };

    ghost view = { λ receiver. record {
      ring = ring_of receiver.consumer.end;
      received = received receiver.consumer;
      next = known_items receiver.consumer;
    } };
}

impl Receiver {
    /// The next parcel, None where none is there now. Takes no memory.
    pub fn take(&mut self) -> Option<Parcel>
        ensures ring { self.new.ring ≡ self.old.ring }
        ensures some { IfSome result (Receives self.old self.new) }
        ensures none { IfNone result (self.new ≡ self.old) }
        ensures succeeds { 0 < length self.old.next → IsSome result }
    {
        self.consumer.pop().ok()
    }

    /// How many parcels are on their way, as seen by a thread that has both ends: what was
    /// received, and then what is on its way, is what was sent.
    pub fn waiting(&mut self, sender: &mut Sender) -> usize
        requires { sender.old.ring ≡ self.old.ring }
        ensures receiver { SeesParcels self.old self.new }
        ensures sender { SeesRoom sender.old sender.new }
        ensures waiting { result ≡ length self.new.next }
        ensures in_order { self.new.received ++ self.new.next ≡ sender.new.sent }
    {
        self.consumer.slots_beside(&mut sender.producer)
    }
}
