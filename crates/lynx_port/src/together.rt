//! Requests that are asked together, and whose answers are written together.
ghost use Rattle.std.specs.Prelude.{◌≡◌, ◌≤◌, ◌<◌, ◌+◌, ◌*◌, ◌++◌, ℕ, List, [], ◌∷◌, length, map, All, IfOk, IfErr, OnOk, OnErr};
ghost use Rattle.std.specs.List.{flat_map, AllByRecursion};
ghost use Rattle.lynx_codec.specs.Adding.{HasRoom};
ghost use Rattle.lynx_codec.specs.Encoding.{encoding};
ghost use Rattle.lynx_codec.specs.Ranges.{IsItem, IsAnswerInRange};
ghost use Rattle.lynx_port.specs.Desks.{Replies};
ghost use Rattle.lynx_port.specs.Exits.{Stopped};
ghost use Rattle.lynx_port.specs.inner.Steps.{as_frames, Takes, AreReplies, WritesReplies};

use crate::answering::answer_frame;
use crate::desk::Desk;
use crate::fault::PortFault;
use crate::limits::MAX_TOGETHER;
use crate::writing::write_encoding;
use lynx_codec::limits::MAX_ENCODING_BYTES;
use lynx_codec::{Feed, Item, append};
use lynx_entry::{Answer, Request};
use lynx_names::Memory;
use std::alloc::Global;
use std::io::Write;

/// Takes the requests that stand next in the feed, as many as may be asked together with one
/// before them. The frame behind them is given if it had to be taken, too. A fault behind them is
/// left in the feed: it comes again.
pub fn take_requests(
    alloc: Global,
    feed: &mut Feed,
    requests: &mut Vec<Request>,
) -> Result<Option<Item>, Memory>
    requires none { requests.old.items ≡ [] }
    ensures taken { IfOk result (λ other.
        Takes feed.old.rest requests.new.items other feed.new.rest) }
    ensures few { length requests.new.items < MAX_TOGETHER }
{
    while requests.len() < MAX_TOGETHER - 1 {
        match feed.next(alloc) {
            Ok(Some(Item::Request(request))) => requests.push(request)?,
            Ok(other) => return Ok(other),
            Err(_) => return Ok(None),
        }
    }
    Ok(None)
}

/// Adds the encodings of the answers at the end. There is room for the longest encodings.
fn append_answers(answers: Vec<Answer>, bytes: &mut Vec<u8>)
    requires range { All IsAnswerInRange answers.items }
    requires room { HasRoom bytes.old (MAX_ENCODING_BYTES * length answers.items) }
    ensures encodings { bytes.new.items ≡
        bytes.old.items ++ flat_map encoding (map Item.Answer answers.items) }
    ensures items { AllByRecursion IsItem (map Item.Answer answers.items) }
{
    for answer in answers {
        append(&Item::Answer(answer), bytes);
    }
}

/// The encodings of the answers to a request and to those behind it. The room for them is made
/// before the desk is asked.
fn encodings_for_all<D: Desk>(
    alloc: Global,
    first: Request,
    others: Vec<Request>,
    desk: &mut D,
) -> Result<Vec<u8>, Memory>
    requires few { length others.items < MAX_TOGETHER }
    ensures encodings { IfOk result (λ bytes. AreReplies (Replies D.begins D.looks) desk.old
        desk.new (as_frames (first ∷ others.items)) bytes.items) }
    ensures unasked { OnErr result (desk.new ≡ desk.old) }
{
    let mut requests = others;
    requests.insert(0, first)?;
    let count = requests.len();
    let mut answers = Vec::with_capacity(alloc, count)?;
    let mut bytes = Vec::with_capacity(alloc, count * MAX_ENCODING_BYTES)?;
    desk.begin_all(requests, &mut answers);
    append_answers(answers, &mut bytes);
    Ok(bytes)
}

/// Asks the desk of a request and those behind it together, and writes the answers together. One
/// that is alone goes as other frames do: no list is made for it.
pub fn answer_together<W: Write, D: Desk>(
    alloc: Global,
    first: Request,
    others: Vec<Request>,
    writer: &mut W,
    desk: &mut D,
    turns: &mut u32,
) -> Result<(), PortFault>
    requires few { length others.items < MAX_TOGETHER }
    requires are_items { AllByRecursion IsItem (as_frames (first ∷ others.items)) }
    ensures turns { turns.new ≤ turns.old }
    ensures answered { OnOk result (WritesReplies (Replies D.begins D.looks) desk.old desk.new
        (W.contents writer.old) (W.contents writer.new) (as_frames (first ∷ others.items))) }
    ensures fault { IfErr result (λ fault. (more : List ℕ) →
        Stopped D.begins D.looks desk.old desk.new (W.contents writer.old) (W.contents writer.new)
        (flat_map encoding (as_frames (first ∷ others.items)) ++ more) ⊥ fault) }
{
    if others.is_empty() {
        return answer_frame(alloc, Item::Request(first), writer, desk, turns);
    }
    let encodings = encodings_for_all(alloc, first, others, desk)?;
    write_encoding(writer, encodings.as_slice(), turns)
}
