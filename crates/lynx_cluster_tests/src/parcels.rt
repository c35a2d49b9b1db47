//! Parcels that are told apart by a number.
use lynx_entry::{Message, Numbers, ResultLists};
use lynx_link::{Parcel, Receiver, Sender};
use lynx_names::{ChainId, Memory, ProgramId, ServerId, Stamp, Values};
use std::alloc::Global;

fn chain(number: u64) -> ChainId {
    ChainId {
        origin: ServerId::first(),
        index: number,
    }
}

/// That hop 1 of this chain was done.
pub fn done(number: u64) -> Parcel {
    Parcel::Done {
        chain: chain(number),
        hop: 1,
    }
}

/// The message of hop 1 of this chain.
pub fn message(alloc: Global, number: u64) -> Result<Parcel, Memory> {
    let mut args = Values::new(alloc);
    args.push(number)?;
    Ok(Parcel::Message(Message {
        chain: chain(number),
        program: ProgramId::new(0).ok_or(Memory)?,
        hop: 1,
        stamp: Stamp::new(1).ok_or(Memory)?,
        args,
        numbers: Numbers::new(alloc),
        results: ResultLists::new(alloc),
    }))
}

/// Whether the ring takes the parcels of so many numbers.
pub fn takes(sender: &mut Sender, first: u64, count: u32) -> bool {
    for more in 0..count {
        let Some(number) = first.checked_add(u64::from(more)) else {
            return false;
        };
        if sender.offer(done(number)).is_err() {
            return false;
        }
    }
    true
}

/// Whether the ring gives the parcels of so many numbers.
pub fn gives(receiver: &mut Receiver, first: u64, count: u32) -> bool {
    for more in 0..count {
        let Some(number) = first.checked_add(u64::from(more)) else {
            return false;
        };
        if receiver.take() != Some(done(number)) {
            return false;
        }
    }
    true
}
