//! What a frame is answered.
ghost use Rattle.std.specs.Prelude.{IfOk, IfErr};
ghost use Rattle.lynx_codec.specs.Ranges.{IsInRange};
ghost use Rattle.lynx_port.specs.Desks.{Replies};
ghost use Rattle.lynx_port.specs.inner.Steps.{Refuses, IsReply};

use crate::desk::Desk;
use crate::fault::PortFault;
use lynx_codec::limits::MAX_ENCODING_BYTES;
use lynx_codec::{Item, append};
use std::alloc::Global;

fn reply_to<D: Desk>(frame: Item, desk: &mut D) -> Result<Item, PortFault>
    ensures reply { IfOk result (λ reply.
        Replies D.begins D.looks desk.old frame reply desk.new) }
    ensures range { IfOk result IsInRange }
    ensures fault { IfErr result (Refuses D.looks desk.old desk.new frame) }
{
    match frame {
        Item::Request(request) => Ok(Item::Answer(desk.begin(request))),
        Item::Look(look) => Ok(Item::Looked(desk.look(look.chain, look.hop)?)),
        Item::Quit => Ok(Item::Bye),
        Item::Shut => {
            desk.shut();
            Ok(Item::Bye)
        }
        Item::Answer(_) | Item::Looked(_) | Item::Bye | Item::Message(_) | Item::Entry(_) => {
            Err(PortFault::NotAsked)
        }
    }
}

/// The encoding of what the frame is answered. The room for it is made before the desk is asked.
pub fn encoding_for<D: Desk>(alloc: Global, frame: Item, desk: &mut D) -> Result<Vec<u8>, PortFault>
    ensures encoding { IfOk result (λ bytes.
        IsReply (Replies D.begins D.looks) desk.old desk.new frame bytes.items) }
    ensures fault { IfErr result (Refuses D.looks desk.old desk.new frame) }
{
    let mut bytes = Vec::with_capacity(alloc, MAX_ENCODING_BYTES)?;
    let reply = reply_to(frame, desk)?;
    append(&reply, &mut bytes);
    Ok(bytes)
}
