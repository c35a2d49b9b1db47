//! A talk with a service, line by line.
ghost use Rattle.std.specs.Prelude.{◌≡◌, ◌⊎◌, ℕ, List, Option, IfOk, OnErr, OnOk};
ghost use Rattle.std.specs.Io.KnownBytes.{Appends};
ghost use Rattle.lynx_codec.specs.Encoding.{encoding};
ghost use Rattle.lynx_codec.specs.Ranges.{IsInRange};
ghost use Rattle.lynx_ask.specs.Asking.{IsSentFirst, IsSentFor};
ghost use Rattle.lynx_ask.specs.Replying.{HasReplied, HasStopped, IsHeard, item_line};

use crate::answering::{line_of, next_item};
use crate::fault::AskFault;
use crate::reading::read_item;
use lynx_codec::{Feed, Item, Looked, encode};
use lynx_lex::{FaultKind, TextFault};
use lynx_lines::write_bytes;
use lynx_set::ChainSet;
use std::alloc::Global;
use std::io::{Read, Write};
use std::thread::sleep;
use std::time::{Clock, Duration};

/// The first pause of a look that waits, in milliseconds. Each further one is twice as long ..
const FIRST_PAUSE: u64 = 1;

/// .. but no longer than this ..
const LONGEST_PAUSE: u64 = 100;

/// .. and there are so many: ten seconds in all.
const PAUSES: u32 = 106;

/// What came of a line.
#[derive(Debug, PartialEq, Eq, Drop)]
pub enum LineReply {
    /// It was asked, and the line of this answer was written.
    Answered(Item),
    /// The service took leave, which was written: nothing more can be asked of it.
    Bye,
    /// The line asks for nothing that there is: nothing was sent for it, and nothing was written.
    /// It is never for want of memory.
    Faulty(TextFault),
}

/// A talk with a service: what it has sent and wasn't read yet, and how many lines were asked.
#[derive(Debug, Drop)]
pub struct AskSession {
    feed: Feed,
    lines: usize,
}

impl AskSession {
    /// One in which nothing was asked yet. It takes no memory.
    pub fn new(alloc: Global) -> AskSession {
        AskSession {
            feed: Feed::new(alloc),
            lines: 0,
        }
    }

    /// Counts a line that is asked otherwise: the faults of those behind it tell their numbers.
    pub fn pass_by(&mut self)
        ensures { self.new.feed ≡ self.old.feed }
    {
        self.lines = self.lines.saturating_add(1);
    }

    /// Asks the service at the other end of the stream what the line asks, which stands without its
    /// LF, and writes the line of the answer: that of a run for a begin, `found stamp S results
    /// LIST` or `absent` for a look, `bye` for `quit` and `shut`. A faulty line leaves the talk as
    /// it was: the next one can be asked. After an error nothing can be.
    ///
    /// A look that waits is asked again and again while the answer is that the hop isn't done, for
    /// ten seconds, with pauses between; the last answer alone is written. One of a hop that no
    /// program has which begins at that origin is asked once.
    pub fn ask<R: Clock, S: Read + Write, W: Write>(
        &mut self,
        rt: &R,
        alloc: Global,
        set: &ChainSet,
        line: &[u8],
        stream: &mut S,
        writer: &mut W,
    ) -> Result<LineReply, AskFault>
        // One answer is written, or nothing for a faulty line; or asking stops within one.
        ensures replied { IfOk result (HasReplied (W.contents writer.old) (W.contents writer.new)) }
        ensures stopped { OnErr result (HasStopped (W.contents writer.old)
            (W.contents writer.new)) }
        // A faulty line isn't sent, and what was sent for others isn't read for it; for another its
        // item is sent, and nothing before that.
        ensures unsent { IfOk result (λ reply. IsHeard reply ⊎ (stream.new ≡ stream.old)) }
        ensures sent { IfOk result (λ reply. IsHeard reply
            → IsSentFor S.contents set.now line.now stream.old) }
    {
        self.lines = self.lines.saturating_add(1);
        match read_item(alloc, set, line) {
            Ok((item, waits)) => {
                let answer = self.ask_item(rt, alloc, &item, waits, stream, writer)?;
                Ok(reply_of(answer))
            }
            Err(fault) => faulty(fault.on(self.lines)),
        }
    }

    /// Sends the item, and writes the line of the answer, which is given.
    fn ask_item<R: Clock, S: Read + Write, W: Write>(
        &mut self,
        rt: &R,
        alloc: Global,
        item: &Item,
        waits: bool,
        stream: &mut S,
        writer: &mut W,
    ) -> Result<Item, AskFault>
        requires { IsInRange item.now }
        ensures written { IfOk result (λ answer. Appends (W.contents writer.old)
            (W.contents writer.new) (item_line answer)) }
        ensures stopped { OnErr result (HasStopped (W.contents writer.old)
            (W.contents writer.new)) }
        ensures sent { OnOk result (IsSentFirst S.contents (encoding item.now) stream.old) }
    {
        let encoding = encode(alloc, item)?;
        let answer = if waits {
            self.wait_for(rt, alloc, encoding.as_slice(), stream)?
        } else {
            self.answer_to(alloc, encoding.as_slice(), stream)?
        };
        write_answer(alloc, &answer, writer)?;
        Ok(answer)
    }

    /// What the service answers to an item of that encoding.
    fn answer_to<S: Read + Write>(
        &mut self,
        alloc: Global,
        encoding: &[u8],
        stream: &mut S,
    ) -> Result<Item, AskFault>
        ensures { OnOk result (IsSentFirst S.contents encoding.now stream.old) }
    {
        if write_bytes(stream, encoding).is_err() {
            return Err(AskFault::Lost);
        }
        next_item(alloc, &mut self.feed, stream)
    }

    /// The same of a look, which is asked until the hop is done, or for ten seconds.
    fn wait_for<R: Clock, S: Read + Write>(
        &mut self,
        rt: &R,
        alloc: Global,
        encoding: &[u8],
        stream: &mut S,
    ) -> Result<Item, AskFault>
        ensures { OnOk result (IsSentFirst S.contents encoding.now stream.old) }
    {
        let mut answer = self.answer_to(alloc, encoding, stream)?;
        let mut pause = FIRST_PAUSE;
        for _ in 0..PAUSES {
            if !matches!(answer, Item::Looked(Looked::Absent)) {
                break;
            }
            sleep(rt, Duration::from_millis(pause));
            pause = pause.saturating_mul(2).min(LONGEST_PAUSE);
            answer = self.answer_to(alloc, encoding, stream)?;
        }
        Ok(answer)
    }
}

/// What comes of a line whose answer was written.
fn reply_of(answer: Item) -> LineReply
    ensures replied { (old new : Option (List ℕ)) → Appends old new (item_line answer)
        → HasReplied old new result }
    ensures heard { IsHeard result }
{
    match answer {
        Item::Bye => LineReply::Bye,
        answer => LineReply::Answered(answer),
    }
}

/// What comes of a line with that fault.
fn faulty(fault: TextFault) -> Result<LineReply, AskFault>
    ensures replied { IfOk result (λ reply. (known : Option (List ℕ))
        → HasReplied known known reply) }
    ensures unheard { IfOk result (λ reply. IsHeard reply → ⊥) }
{
    match fault.kind {
        FaultKind::Memory => Err(AskFault::Memory),
        _ => Ok(LineReply::Faulty(fault)),
    }
}

/// Writes the line of an answer, and passes it on.
fn write_answer<W: Write>(alloc: Global, answer: &Item, writer: &mut W) -> Result<(), AskFault>
    ensures written { OnOk result (Appends (W.contents writer.old) (W.contents writer.new)
        (item_line answer.now)) }
    ensures part { OnErr result (HasStopped (W.contents writer.old) (W.contents writer.new)) }
{
    let line = line_of(alloc, answer)?;
    write_bytes(writer, line.as_bytes())?;
    match writer.flush() {
        Ok(()) => Ok(()),
        Err(_) => Err(AskFault::Write),
    }
}
