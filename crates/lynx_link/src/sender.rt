ghost use Rattle.std.specs.Prelude.{◌≡◌, ◌+◌, ◌<◌, ◌↔◌, length, IfErr, IsOk, IsTrue, OnOk};
ghost use Rattle.lynx_link.specs.Rings.{Sends, SeesRoom, SeesParcels};
ghost use Rattle.lynx_link.specs.declared.ring.TheConstants.{RING_PARCELS};

use crate::parcel::Parcel;
use crate::receiver::Receiver;
use rtrb::{Producer, PushError};
use std::marker::Model;

/// The end of a ring that parcels go in at. Contracts see which ring it is, all that was sent so
/// far, and for how many parcels the sender knows that there is room.
#[derive(Drop)]
pub struct Sender {
    pub(crate) producer: Producer<Parcel>,
}

impl Model for Sender {
    ghost use Rattle.std.specs.Prelude.{◌≡◌};
    ghost use Rattle.rtrb.specs.Ring.{known_free, producer_capacity, sent};
    ghost use Rattle.lynx_link.specs.Rings.{Sending, ring_of};
    ghost use Rattle.lynx_link.specs.declared.ring.TheConstants.{RING_PARCELS};

    ghost Value = { Sending };

    ghost view = { λ sender. record {
      ring = ring_of sender.producer.end;
      sent = sent sender.producer;
      room = known_free sender.producer;
    } };

    ghost invariant = { λ sender. producer_capacity sender.producer ≡ RING_PARCELS };
}

impl Sender {
    /// Puts a parcel in behind those before it, or gives it back where the ring is full. Takes no
    /// memory.
    pub fn offer(&mut self, parcel: Parcel) -> Result<(), Parcel>
        ensures ring { self.new.ring ≡ self.old.ring }
        ensures ok { OnOk result (Sends self.old self.new parcel) }
        ensures full { IfErr result (λ back. (back ≡ parcel) × (self.new ≡ self.old)) }
        ensures succeeds { 0 < self.old.room → IsOk result }
    {
        match self.producer.push(parcel) {
            Ok(()) => Ok(()),
            Err(PushError::Full(back)) => Err(back),
        }
    }

    /// Whether there is no room now. The receiver may make room at any time.
    pub fn is_full(&mut self) -> bool
        ensures looked { SeesRoom self.old self.new }
        ensures value { IsTrue result ↔ (self.new.room ≡ 0) }
    {
        self.producer.is_full()
    }

    /// For how many parcels there is room, as seen by a thread that has both ends.
    pub fn room(&mut self, receiver: &mut Receiver) -> usize
        requires { receiver.old.ring ≡ self.old.ring }
        ensures sender { SeesRoom self.old self.new }
        ensures receiver { SeesParcels receiver.old receiver.new }
        ensures room { result ≡ self.new.room }
        ensures all { length self.new.sent + result ≡ length receiver.new.received + RING_PARCELS }
    {
        self.producer.slots_beside(&mut receiver.consumer)
    }
}
