//! Serving one client.
ghost use Rattle.std.specs.Prelude.{◌≡◌, ◌≢◌, [], false, None, Ok, IfOk, IfErr};
ghost use Rattle.lynx_codec.specs.declared.fault.DecodeFault.TheVariants.{Short};
ghost use Rattle.lynx_codec.specs.Front.{front};
ghost use Rattle.lynx_port.specs.Exits.{HasServed, HasFailed};

use crate::answering::answer_all;
use crate::desk::Desk;
use crate::fault::PortFault;
use crate::limits::{MAX_READ_BYTES, MAX_TURNS};
use lynx_codec::Feed;
use std::alloc::Global;
use std::io::{ErrorKind, Read, Write};

/// How a connection ended.
#[derive(Clone, Copy, Debug, PartialEq, Eq)]
pub struct Served {
    /// Answers that were written, the last one that ends the connection included.
    pub answers: u64,
    /// Whether the client asked for the store to be closed.
    pub shut: bool,
}

/// How a connection ends whose input has ended.
fn end_of_input(feed: Feed, answers: u64) -> Result<Served, PortFault>
    requires open { feed.failed ≡ None }
    requires waiting { front feed.rest ≡ Ok None }
    ensures ended { IfOk result (λ served. (feed.rest ≡ []) × (served.answers ≡ answers)
        × (served.shut ≡ false)) }
    ensures fault { IfErr result (λ fault. (feed.rest ≢ []) × (fault ≡ PortFault.Bad Short)) }
{
    feed.finish()?;
    Ok(Served {
        answers,
        shut: false,
    })
}

/// Serves one client, until it ends the talk or its input ends. Of each read, of 4,096 bytes at
/// most, the whole items are answered in order before more is read. Quit and Shut are answered by
/// Bye; what stands behind them is not read as items, though some of it may have been taken from
/// the reader.
///
/// Requests that stand behind one another, up to 64, are asked together, and their answers are
/// written together. So where a write fails, up to 63 may have been asked behind the one whose
/// answer was not written whole.
///
/// A fault comes where the bytes have it: all items before it were answered. After 1,000,000 turns
/// it is Turns, so the call ends if those of the reader, the writer and the desk do. Nothing is
/// flushed: the writer is to pass on what it takes. Memory is taken for what was read and isn't
/// answered yet, at most an item that isn't whole and a read, for up to 64 requests that are asked
/// together, and for the answers to them, before the desk is asked. A request that is alone takes
/// memory for one answer.
pub fn serve<R: Read, W: Write, D: Desk>(
    alloc: Global,
    reader: &mut R,
    writer: &mut W,
    desk: &mut D,
) -> Result<Served, PortFault>
    ensures served { IfOk result (HasServed D.begins D.looks desk.old desk.new
        (R.remaining reader.old) (R.remaining reader.new)
        (W.contents writer.old) (W.contents writer.new)) }
    ensures failed { IfErr result (HasFailed D.begins D.looks desk.old desk.new
        (R.remaining reader.old) (R.remaining reader.new)
        (W.contents writer.old) (W.contents writer.new)) }
{
    let mut feed = Feed::new(alloc);
    let mut buffer = [0u8; MAX_READ_BYTES];
    let mut turns = MAX_TURNS;
    let mut answers = 0;
    while turns > 0 {
        turns -= 1;
        let count = match reader.read(&mut buffer) {
            Ok(count) => count,
            Err(error) if error.kind() == ErrorKind::Interrupted => continue,
            Err(_) => return Err(PortFault::Read),
        };
        if count == 0 {
            return end_of_input(feed, answers);
        }
        feed.push(buffer.split_at(count).0)?;
        if let Some(shut) = answer_all(alloc, &mut feed, writer, desk, &mut turns, &mut answers)? {
            return Ok(Served { answers, shut });
        }
    }
    Err(PortFault::Turns)
}
