//! The order of parcels.
use crate::parcels::{done, gives, message, takes};
use lynx_link::{links, new_ring};
use lynx_names::ServerId;
use std::test::Fail;

#[test]
fn parcels_come_in_order(rt: HostRuntime) -> Result<(), Fail> {
    let (mut sender, mut receiver) = new_ring(rt.alloc())?;
    for round in 0..10u64 {
        assert!(rt; takes(&mut sender, round * 100, 100), "round {round}");
        assert!(rt; gives(&mut receiver, round * 100, 100), "round {round}");
        assert!(rt; receiver.take().is_none(), "round {round}");
    }
    Ok(())
}

#[test]
fn messages_come_as_they_were(rt: HostRuntime) -> Result<(), Fail> {
    let (mut sender, mut receiver) = new_ring(rt.alloc())?;
    assert!(rt; sender.offer(message(rt.alloc(), 7)?) == Ok(()));
    assert!(rt; sender.offer(done(8)) == Ok(()));
    assert!(rt; receiver.take() == Some(message(rt.alloc(), 7)?));
    assert!(rt; receiver.take() == Some(done(8)));
    Ok(())
}

#[test]
fn a_server_sends_itself(rt: HostRuntime) -> Result<(), Fail> {
    let mut ends = links(rt.alloc(), 1)?;
    let own = ends.get_mut(0).expect(&rt, "one server");
    let sender = own.sender(ServerId::first()).expect(&rt, "an end");
    assert!(rt; takes(sender, 0, 256));
    assert!(rt; sender.offer(done(256)) == Err(done(256)));
    let receiver = own.receiver(ServerId::first()).expect(&rt, "an end");
    assert!(rt; gives(receiver, 0, 256));
    assert!(rt; receiver.take().is_none());
    Ok(())
}

#[test]
fn both_ends_count_alike(rt: HostRuntime) -> Result<(), Fail> {
    let (mut sender, mut receiver) = new_ring(rt.alloc())?;
    assert!(rt; sender.offer(done(0)) == Ok(()));
    assert!(rt; sender.offer(done(1)) == Ok(()));
    assert!(rt; receiver.take() == Some(done(0)));
    assert_eq!(rt; receiver.waiting(&mut sender), 1);
    assert_eq!(rt; sender.room(&mut receiver), 255);
    Ok(())
}
