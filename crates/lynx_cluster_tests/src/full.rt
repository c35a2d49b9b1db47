//! A full ring.
use crate::parcels::{done, gives, takes};
use lynx_link::{RING_PARCELS, new_ring};
use std::test::Fail;

#[test]
fn a_full_ring_gives_the_parcel_back(rt: HostRuntime) -> Result<(), Fail> {
    assert_eq!(rt; RING_PARCELS, 256);
    let (mut sender, mut receiver) = new_ring(rt.alloc())?;
    assert!(rt; takes(&mut sender, 0, 256));
    assert!(rt; sender.offer(done(256)) == Err(done(256)));
    assert!(rt; gives(&mut receiver, 0, 256));
    assert!(rt; receiver.take().is_none());
    Ok(())
}

#[test]
fn one_taken_makes_room_for_one(rt: HostRuntime) -> Result<(), Fail> {
    let (mut sender, mut receiver) = new_ring(rt.alloc())?;
    assert!(rt; takes(&mut sender, 0, 256));
    assert!(rt; receiver.take() == Some(done(0)));
    assert!(rt; sender.offer(done(256)) == Ok(()));
    assert!(rt; sender.offer(done(257)) == Err(done(257)));
    assert!(rt; gives(&mut receiver, 1, 256));
    assert!(rt; receiver.take().is_none());
    Ok(())
}
