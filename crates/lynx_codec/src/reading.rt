//! Reads what stands in a body.
ghost use Rattle.std.specs.Prelude.{◌≡◌};
ghost use Rattle.lynx_codec.specs.Reading.{Reads, Answers};
ghost use Rattle.lynx_codec.specs.Bodies.{request_at, look_at, begun_at, refused_at, answer_at, looked_at, message_at, begun_entry_at, refused_entry_at, hop_entry_at, fields_at, body_at};

use crate::body::Body;
use crate::fault::DecodeFault;
use crate::item::{Item, Look, Looked};
use crate::tag::Tag;
use lynx_entry::{Answer, BegunEntry, Entry, HopEntry, Message, RefusedEntry, Request};
use lynx_names::ClientId;
use lynx_names::limits::{MAX_ACTIONS, MAX_PARAMETERS};
use std::alloc::Global;

#[tactic(auto, unfolding(crate::specs::Bodies::request_at))]
fn read_request(alloc: Global, body: &mut Body<'_>) -> Result<Request, DecodeFault>
    ensures { Reads result body.new (request_at body.old) }
{
    let client = ClientId::new(body.word()?);
    let number = body.word()?;
    let program = body.program()?;
    let args = body.values(alloc, MAX_PARAMETERS)?;
    Ok(Request {
        client,
        number,
        program,
        args,
    })
}

#[tactic(auto, unfolding(crate::specs::Bodies::look_at))]
fn read_look(body: &mut Body<'_>) -> Result<Look, DecodeFault>
    ensures { Reads result body.new (look_at body.old) }
{
    let chain = body.chain()?;
    let hop = body.byte()?;
    Ok(Look { chain, hop })
}

#[tactic(auto, unfolding(crate::specs::Bodies::answer_at))]
fn read_answer(alloc: Global, body: &mut Body<'_>) -> Result<Answer, DecodeFault>
    ensures { Reads result body.new (answer_at body.old) }
{
    match body.byte()? {
        0 => read_begun(alloc, body),
        1 => Ok(Answer::Clash),
        2 => Ok(Answer::UnknownProgram),
        3 => Ok(Answer::WrongOrigin),
        4 => Ok(Answer::ArgCount),
        5 => Ok(Answer::WrongShard),
        6 => Ok(Answer::Full),
        7 => Ok(Answer::Busy),
        8 => read_refused(body),
        9 => Ok(Answer::Stopped),
        10 => Ok(Answer::Memory),
        11 => Ok(Answer::OutsideRange),
        _ => Err(DecodeFault::OutOfRange),
    }
}

fn read_begun(alloc: Global, body: &mut Body<'_>) -> Result<Answer, DecodeFault>
    ensures { Reads result body.new (begun_at body.old) }
{
    let chain = body.chain()?;
    let stamp = body.stamp()?;
    let again = body.flag()?;
    let results = body.values(alloc, MAX_ACTIONS)?;
    Ok(Answer::Begun {
        chain,
        stamp,
        results,
        again,
    })
}

fn read_refused(body: &mut Body<'_>) -> Result<Answer, DecodeFault>
    ensures { Reads result body.new (refused_at body.old) }
{
    let need = body.byte_below(MAX_ACTIONS)?;
    let stamp = body.stamp()?;
    let again = body.flag()?;
    Ok(Answer::Refused { need, stamp, again })
}

#[tactic(auto, unfolding(crate::specs::Bodies::looked_at))]
fn read_looked(alloc: Global, body: &mut Body<'_>) -> Result<Looked, DecodeFault>
    ensures { Reads result body.new (looked_at body.old) }
{
    match body.byte()? {
        0 => Ok(Looked::Absent),
        1 => {
            let stamp = body.stamp()?;
            let results = body.values(alloc, MAX_ACTIONS)?;
            Ok(Looked::Found { stamp, results })
        }
        _ => Err(DecodeFault::OutOfRange),
    }
}

#[tactic(auto, unfolding(crate::specs::Bodies::message_at))]
fn read_message(alloc: Global, body: &mut Body<'_>) -> Result<Message, DecodeFault>
    ensures { Reads result body.new (message_at body.old) }
{
    let chain = body.chain()?;
    let program = body.program()?;
    let hop = body.byte()?;
    let stamp = body.stamp()?;
    let args = body.values(alloc, MAX_PARAMETERS)?;
    let numbers = body.numbers(alloc)?;
    let results = body.result_lists(alloc)?;
    Ok(Message {
        chain,
        program,
        hop,
        stamp,
        args,
        numbers,
        results,
    })
}

#[tactic(auto, unfolding(crate::specs::Bodies::begun_entry_at))]
fn read_begun_entry(alloc: Global, body: &mut Body<'_>) -> Result<BegunEntry, DecodeFault>
    ensures { Reads result body.new (begun_entry_at body.old) }
{
    let request = read_request(alloc, body)?;
    let seen = body.stamp()?;
    let chain = body.chain()?;
    let numbers = body.numbers(alloc)?;
    let stamp = body.stamp()?;
    let results = body.values(alloc, MAX_ACTIONS)?;
    Ok(BegunEntry {
        request,
        seen,
        chain,
        numbers,
        stamp,
        results,
    })
}

#[tactic(auto, unfolding(crate::specs::Bodies::refused_entry_at))]
fn read_refused_entry(alloc: Global, body: &mut Body<'_>) -> Result<RefusedEntry, DecodeFault>
    ensures { Reads result body.new (refused_entry_at body.old) }
{
    let request = read_request(alloc, body)?;
    let seen = body.stamp()?;
    let need = body.byte_below(MAX_ACTIONS)?;
    let stamp = body.stamp()?;
    Ok(RefusedEntry {
        request,
        seen,
        need,
        stamp,
    })
}

#[tactic(auto, unfolding(crate::specs::Bodies::hop_entry_at))]
fn read_hop_entry(alloc: Global, body: &mut Body<'_>) -> Result<HopEntry, DecodeFault>
    ensures { Reads result body.new (hop_entry_at body.old) }
{
    let message = read_message(alloc, body)?;
    let stamp = body.stamp()?;
    let results = body.values(alloc, MAX_ACTIONS)?;
    Ok(HopEntry {
        message,
        stamp,
        results,
    })
}

fn read_fields(alloc: Global, tag: Tag, body: &mut Body<'_>) -> Result<Item, DecodeFault>
    ensures { Reads result body.new (fields_at tag body.old) }
{
    Ok(match tag {
        Tag::Request => Item::Request(read_request(alloc, body)?),
        Tag::Look => Item::Look(read_look(body)?),
        Tag::Quit => Item::Quit,
        Tag::Shut => Item::Shut,
        Tag::Answer => Item::Answer(read_answer(alloc, body)?),
        Tag::Looked => Item::Looked(read_looked(alloc, body)?),
        Tag::Bye => Item::Bye,
        Tag::Message => Item::Message(read_message(alloc, body)?),
        Tag::Begun => Item::Entry(Entry::Begun(read_begun_entry(alloc, body)?)),
        Tag::Refused => Item::Entry(Entry::Refused(read_refused_entry(alloc, body)?)),
        Tag::Hop => Item::Entry(Entry::Hop(read_hop_entry(alloc, body)?)),
    })
}

/// The item that a whole body is, behind its tag. BadLength also where bytes are left behind the
/// last field.
#[tactic(auto, unfolding(crate::specs::Bodies::body_at))]
pub fn read_body(alloc: Global, tag: Tag, bytes: &[u8]) -> Result<Item, DecodeFault>
    ensures { Answers result (body_at tag bytes.now) }
{
    let mut body = Body::new(bytes);
    let item = read_fields(alloc, tag, &mut body)?;
    if body.is_empty() {
        Ok(item)
    } else {
        Err(DecodeFault::BadLength)
    }
}
