//! What is answered, as lines.
ghost use Rattle.std.specs.Prelude.{◌≡◌, IfOk};
ghost use Rattle.std.specs.String.{string_bytes};
ghost use Rattle.lynx_lex.specs.Lines.{with_feed};
ghost use Rattle.lynx_ask.specs.Replying.{begin_text, item_line, looked_text};

use crate::fault::AskFault;
use lynx_codec::{DecodeFault, Feed, Item, Looked};
use lynx_entry::{Answer, Outcome};
use lynx_lines::{outcome_line, push_values};
use lynx_names::TryCopy;
use std::alloc::Global;
use std::fmt::Write;
use std::io::{ErrorKind, Read};

/// Reads that one answer may take: each of them gets a byte at least, and none asks for more than
/// an answer has.
const MAX_READS: u32 = 1_000_000;

/// The next item of the stream.
pub(crate) fn next_item<S: Read>(
    alloc: Global,
    feed: &mut Feed,
    stream: &mut S,
) -> Result<Item, AskFault> {
    let mut buffer = [0u8; 4096];
    for _ in 0..MAX_READS {
        match feed.next(alloc) {
            Ok(Some(item)) => return Ok(item),
            Ok(None) => {}
            Err(DecodeFault::Memory) => return Err(AskFault::Memory),
            Err(_) => return Err(AskFault::Lost),
        }
        match stream.read(&mut buffer) {
            Ok(0) => return Err(AskFault::Lost),
            Ok(count) => feed.push(buffer.split_at(count).0)?,
            Err(error) if error.kind() == ErrorKind::Interrupted => {}
            Err(_) => return Err(AskFault::Lost),
        }
    }
    Err(AskFault::Lost)
}

/// The line of what a look was answered. What is found is told as a run tells that a hop was done.
fn looked_line(alloc: Global, looked: &Looked) -> Result<String, AskFault>
    ensures { IfOk result (λ line. string_bytes line ≡ with_feed (looked_text looked.now)) }
{
    match looked {
        Looked::Absent => Ok(String::from_str(alloc, "absent\n")?),
        Looked::Found { stamp, results } => {
            let mut line = String::new(alloc);
            write!(line, "found stamp {stamp} results ")?;
            push_values(&mut line, results.as_slice())?;
            line.push_str("\n")?;
            Ok(line)
        }
    }
}

/// The line of what a begin was answered. The client hears of the service's own want of memory as
/// of an answer.
fn answer_line(alloc: Global, answer: &Answer) -> Result<String, AskFault>
    ensures { IfOk result (λ line. string_bytes line ≡ with_feed (begin_text answer.now)) }
{
    if answer.is_unserved() {
        return Ok(String::from_str(alloc, "memory\n")?);
    }
    let outcome = Outcome::Answered(answer.copy(alloc)?);
    Ok(outcome_line(alloc, &outcome)?)
}

/// The line of an answer.
pub(crate) fn line_of(alloc: Global, item: &Item) -> Result<String, AskFault>
    ensures { IfOk result (λ line. string_bytes line ≡ item_line item.now) }
{
    match item {
        Item::Answer(answer) => answer_line(alloc, answer),
        Item::Looked(looked) => looked_line(alloc, looked),
        Item::Bye => Ok(String::from_str(alloc, "bye\n")?),
        _ => Err(AskFault::Lost),
    }
}
