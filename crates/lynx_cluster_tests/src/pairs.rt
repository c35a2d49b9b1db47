//! The rings of all pairs of servers.
use crate::parcels::done;
use lynx_link::{Ends, Parcel, links};
use lynx_names::ServerId;
use std::test::Fail;

/// Whether the ring from one server to the other takes the parcel of this number.
fn is_sent(ends: &mut [Ends], sender: ServerId, receiver: ServerId, number: u64) -> bool {
    let Some(own) = ends.get_mut(sender.index()) else {
        return false;
    };
    match own.sender(receiver) {
        None => false,
        Some(end) => end.offer(done(number)).is_ok(),
    }
}

/// What comes next from one server at the other.
fn received(ends: &mut [Ends], sender: ServerId, receiver: ServerId) -> Option<Parcel> {
    let own = ends.get_mut(receiver.index())?;
    own.receiver(sender)?.take()
}

/// A number of its own for each pair.
fn number_of(sender: u8, receiver: u8) -> u64 {
    u64::from(sender) * 100 + u64::from(receiver)
}

/// Whether each ring takes the number of its pair.
fn send_all(ends: &mut [Ends], servers: u8) -> bool {
    for from in 0..servers {
        for to in 0..servers {
            let (Some(sender), Some(receiver)) = (ServerId::new(from), ServerId::new(to)) else {
                return false;
            };
            if !is_sent(ends, sender, receiver, number_of(from, to)) {
                return false;
            }
        }
    }
    true
}

/// Whether each ring gives the number of its pair, and no more.
fn receive_all(ends: &mut [Ends], servers: u8) -> bool {
    for from in 0..servers {
        for to in 0..servers {
            let (Some(sender), Some(receiver)) = (ServerId::new(from), ServerId::new(to)) else {
                return false;
            };
            if received(ends, sender, receiver) != Some(done(number_of(from, to))) {
                return false;
            }
            if received(ends, sender, receiver).is_some() {
                return false;
            }
        }
    }
    true
}

/// What may move to another thread: each server's ends go to its own.
fn movable<T: Send>(value: T) -> T {
    value
}

#[test]
fn rings_of_different_pairs_do_not_mix(rt: HostRuntime) -> Result<(), Fail> {
    for servers in [1, 2, 16] {
        let mut ends = movable(links(rt.alloc(), servers)?);
        assert_eq!(rt; ends.len(), usize::from(servers));
        assert!(rt; send_all(ends.as_mut_slice(), servers), "{servers} servers");
        assert!(rt;
            receive_all(ends.as_mut_slice(), servers),
            "{servers} servers"
        );
    }
    Ok(())
}

#[test]
fn there_is_no_end_beyond_the_servers(rt: HostRuntime) -> Result<(), Fail> {
    let mut ends = links(rt.alloc(), 2)?;
    let third = ServerId::new(2).expect(&rt, "in range");
    for own in ends.as_mut_slice() {
        assert!(rt; own.sender(third).is_none());
        assert!(rt; own.receiver(third).is_none());
    }
    assert!(rt; links(rt.alloc(), 0)?.is_empty());
    Ok(())
}
