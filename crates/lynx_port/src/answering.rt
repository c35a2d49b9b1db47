//! Answers the frames of a feed in order.
ghost use Rattle.std.specs.Prelude.{◌≡◌, ◌≤◌, ◌<◌, ◌+◌, ◌^◌, ◌++◌, ℕ, List, length, Some, None, Ok, IfOk, IfErr, OnOk, IfSome, IfNone};
ghost use Rattle.lynx_codec.specs.Encoding.{encoding};
ghost use Rattle.lynx_codec.specs.Front.{front};
ghost use Rattle.lynx_codec.specs.Ranges.{IsItem};
ghost use Rattle.lynx_codec.specs.Feeding.{Gives, Waits};
ghost use Rattle.lynx_port.specs.Desks.{Replies};
ghost use Rattle.lynx_port.specs.Talks.{Answered, ended_by};
ghost use Rattle.lynx_port.specs.Exits.{Stopped};
ghost use Rattle.lynx_port.specs.inner.Steps.{NoFrame, WritesReply, GoesOn};

use crate::desk::Desk;
use crate::fault::PortFault;
use crate::replying::encoding_for;
use crate::together::{answer_together, take_requests};
use crate::writing::write_encoding;
use lynx_codec::{Feed, Item};
use lynx_entry::Request;
use std::alloc::Global;
use std::io::Write;

/// Whether the frame ends the talk, and whether all is to shut then.
fn ended_by(frame: &Item) -> Option<bool>
    ensures { result ≡ ended_by frame.now }
{
    match frame {
        Item::Quit => Some(false),
        Item::Shut => Some(true),
        _ => None,
    }
}

/// The next frame, if a whole one has come.
fn next_frame(alloc: Global, feed: &mut Feed) -> Result<Option<Item>, PortFault>
    ensures given { IfOk result (λ given. IfSome given (λ frame. Gives feed.old frame feed.new)) }
    ensures waits { IfOk result (λ given. IfNone given (Waits feed.old feed.new)) }
    ensures fault { IfErr result (NoFrame feed.old.rest) }
{
    Ok(feed.next(alloc)?)
}

/// Asks the desk of one frame, and writes the answer.
pub(crate) fn answer_frame<W: Write, D: Desk>(
    alloc: Global,
    frame: Item,
    writer: &mut W,
    desk: &mut D,
    turns: &mut u32,
) -> Result<(), PortFault>
    requires { IsItem frame }
    ensures turns { turns.new ≤ turns.old }
    ensures answered { OnOk result (WritesReply (Replies D.begins D.looks) desk.old desk.new
        (W.contents writer.old) (W.contents writer.new) frame) }
    ensures fault { IfErr result (λ fault. (more : List ℕ) →
        Stopped D.begins D.looks desk.old desk.new (W.contents writer.old) (W.contents writer.new)
        (encoding frame ++ more) ⊥ fault) }
{
    let encoding = encoding_for(alloc, frame, desk)?;
    write_encoding(writer, encoding.as_slice(), turns)
}

/// Answers a request that was taken from the feed, and those that stand behind it. The frame
/// behind them is given if it was taken, too.
fn answer_leading<W: Write, D: Desk>(
    alloc: Global,
    first: Request,
    feed: &mut Feed,
    writer: &mut W,
    desk: &mut D,
    turns: &mut u32,
    answers: &mut u64,
) -> Result<Option<Item>, PortFault>
    requires item { IsItem (Item.Request first) }
    requires few { answers.old + length feed.old.rest + 1 < 2 ^ 63 }
    ensures turns { turns.new ≤ turns.old }
    ensures answered { IfOk result (λ other. GoesOn (Replies D.begins D.looks) desk.old desk.new
        (W.contents writer.old) (W.contents writer.new)
        (encoding (Item.Request first) ++ feed.old.rest) other feed.new.rest answers.old
        answers.new) }
    ensures taken { OnOk result (length feed.new.rest ≤ length feed.old.rest) }
    ensures fault { IfErr result (Stopped D.begins D.looks desk.old desk.new
        (W.contents writer.old) (W.contents writer.new)
        (encoding (Item.Request first) ++ feed.old.rest) ⊥) }
{
    let mut others = Vec::new(alloc);
    let other = take_requests(alloc, feed, &mut others)?;
    let count = 1 + others.len() as u64;
    answer_together(alloc, first, others, writer, desk, turns)?;
    *answers += count;
    Ok(other)
}

/// Answers the requests that stand next. The frame behind them, if a whole one has come.
fn next_other<W: Write, D: Desk>(
    alloc: Global,
    feed: &mut Feed,
    writer: &mut W,
    desk: &mut D,
    turns: &mut u32,
    answers: &mut u64,
) -> Result<Option<Item>, PortFault>
    requires few { answers.old + length feed.old.rest < 2 ^ 63 }
    ensures turns { turns.new ≤ turns.old }
    ensures answered { IfOk result (λ other. GoesOn (Replies D.begins D.looks) desk.old desk.new
        (W.contents writer.old) (W.contents writer.new) feed.old.rest other feed.new.rest
        answers.old answers.new) }
    ensures waits { IfOk result (λ other. IfNone other ((feed.new.failed ≡ None)
        × (front feed.new.rest ≡ Ok None))) }
    ensures fault { IfErr result (Stopped D.begins D.looks desk.old desk.new
        (W.contents writer.old) (W.contents writer.new) feed.old.rest ⊥) }
{
    while let Some(frame) = next_frame(alloc, feed)? {
        let Item::Request(first) = frame else {
            return Ok(Some(frame));
        };
        let other = answer_leading(alloc, first, feed, writer, desk, turns, answers)?;
        if other.is_some() {
            return Ok(other);
        }
    }
    Ok(None)
}

/// Answers the whole frames of the feed in order, up to one that ends the talk: whether all is to
/// shut then.
pub fn answer_all<W: Write, D: Desk>(
    alloc: Global,
    feed: &mut Feed,
    writer: &mut W,
    desk: &mut D,
    turns: &mut u32,
    answers: &mut u64,
) -> Result<Option<bool>, PortFault>
    requires open { feed.old.failed ≡ None }
    requires few { answers.old + length feed.old.rest < 2 ^ 63 }
    ensures turns { turns.new ≤ turns.old }
    ensures room { OnOk result
        (answers.new + length feed.new.rest ≤ answers.old + length feed.old.rest) }
    ensures answered { IfOk result (Answered (Replies D.begins D.looks) desk.old desk.new
        (W.contents writer.old) (W.contents writer.new) feed.old.rest feed.new.rest answers.old
        answers.new) }
    ensures waits { IfOk result (λ ended. IfNone ended ((feed.new.failed ≡ None)
        × (front feed.new.rest ≡ Ok None))) }
    ensures fault { IfErr result (Stopped D.begins D.looks desk.old desk.new
        (W.contents writer.old) (W.contents writer.new) feed.old.rest ⊥) }
{
    while let Some(frame) = next_other(alloc, feed, writer, desk, turns, answers)? {
        let ended = ended_by(&frame);
        answer_frame(alloc, frame, writer, desk, turns)?;
        *answers += 1;
        if ended.is_some() {
            return Ok(ended);
        }
    }
    Ok(None)
}
