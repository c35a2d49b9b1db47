//! The rings of all pairs of servers.
ghost use Rattle.std.specs.Prelude.{◌≡◌, ◌<◌, IfOk, OnOk, length, replicate};
ghost use Rattle.lynx_link.specs.Links.{AreLinks};
ghost use Rattle.lynx_link.specs.EndLists.{no_ends};
ghost use Rattle.lynx_link.specs.inner.Linking.{Connects};

use crate::ends::Ends;
use crate::ring::new_ring;
use lynx_names::Memory;
use std::alloc::Global;

/// The ends of so many servers, by server: a new ring for each ordered pair of them, a server with
/// itself too. All the memory that the rings ever take is taken here.
pub fn links(alloc: Global, servers: u8) -> Result<Vec<Ends>, Memory>
    ensures { IfOk result (λ ends. AreLinks servers ends.items) }
{
    let mut ends = without_rings(alloc, servers)?;
    for sender in 0..usize::from(servers) {
        for receiver in 0..usize::from(servers) {
            connect(alloc, ends.as_mut_slice(), sender, receiver)?;
        }
    }
    Ok(ends)
}

/// Servers with no ring yet.
fn without_rings(alloc: Global, servers: u8) -> Result<Vec<Ends>, Memory>
    ensures { IfOk result (λ ends. ends.items ≡ replicate servers no_ends) }
{
    let mut ends = Vec::new(alloc);
    for _ in 0..servers {
        ends.push(Ends::new(alloc))?;
    }
    Ok(ends)
}

/// A new ring from one server to another, each end behind those that they have.
fn connect(alloc: Global, ends: &mut [Ends], sender: usize, receiver: usize) -> Result<(), Memory>
    requires sender { sender < length ends.old }
    requires receiver { receiver < length ends.old }
    ensures { OnOk result (Connects ends.old ends.new sender receiver) }
{
    let (to, from) = new_ring(alloc)?;
    ends[sender].add_sender(to)?;
    ends[receiver].add_receiver(from)?;
    Ok(())
}
