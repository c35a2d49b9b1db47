ghost use Rattle.std.specs.Prelude.{◌≡◌, ◌<◌, ◌↔◌, ◌++◌, ◌∷◌, [], IfSome, IsSome, OnOk, Some, length, slice_get};

use crate::receiver::Receiver;
use crate::sender::Sender;
use lynx_names::{Memory, ServerId};
use std::alloc::Global;
use std::marker::Model;

/// One server's ends of the rings: of those that lead to each server, and of those that lead from
/// each. Contracts see both as lists, by server.
#[derive(Drop)]
pub struct Ends {
    to: Vec<Sender>,
    from: Vec<Receiver>,
}

impl Model for Ends {
    ghost use Rattle.lynx_link.specs.EndLists.{EndLists};

    ghost Value = { EndLists };

    ghost view = { λ ends. record { to = ends.to.items; from = ends.from.items } };
}

impl Ends {
    ghost use Rattle.std.specs.Borrow.{sem};
    ghost use Rattle.lynx_link.specs.EndLists.{no_ends, with_sender, with_receiver};
    ghost use Rattle.lynx_link.specs.Lending.{LendsSender, LendsReceiver};

    /// No end of any ring.
    pub(crate) fn new(alloc: Global) -> Ends
        ensures { result ≡ no_ends }
    {
        Ends {
            to: Vec::new(alloc),
            from: Vec::new(alloc),
        }
    }

    /// Adds the end of the ring that leads to the next server.
    pub(crate) fn add_sender(&mut self, sender: Sender) -> Result<(), Memory>
        ensures { OnOk result (self.new ≡ with_sender sender self.old) }
    {
        self.to.push(sender)?;
        Ok(())
    }

    /// Adds the end of the ring that leads from the next server.
    pub(crate) fn add_receiver(&mut self, receiver: Receiver) -> Result<(), Memory>
        ensures { OnOk result (self.new ≡ with_receiver receiver self.old) }
    {
        self.from.push(receiver)?;
        Ok(())
    }

    /// The end of the ring that leads to that server, None where there is no such server.
    pub fn sender(&mut self, server: ServerId) -> Option<&mut Sender>
        ensures* writes_back { sem 𝓛 (LendsSender self.entry server result) }
        ensures present { IsSome result ↔ (server < length self.old.to) }
        ensures value { IfSome result (λ end. slice_get self.old.to server ≡ Some end.now) }
    {
        self.to.get_mut(server.index())
    }

    /// The end of the ring that leads from that server, None where there is no such server.
    pub fn receiver(&mut self, server: ServerId) -> Option<&mut Receiver>
        ensures* writes_back { sem 𝓛 (LendsReceiver self.entry server result) }
        ensures present { IsSome result ↔ (server < length self.old.from) }
        ensures value { IfSome result (λ end. slice_get self.old.from server ≡ Some end.now) }
    {
        self.from.get_mut(server.index())
    }
}
