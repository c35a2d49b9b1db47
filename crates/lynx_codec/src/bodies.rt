//! Adds the bodies of items to bytes that have room for them.
ghost use Rattle.lynx_codec.specs.declared.sizes.TheConstants.{REQUEST_BYTES, LOOK_BYTES, ANSWER_BYTES, LOOKED_BYTES, MESSAGE_BYTES, BEGUN_BYTES, REFUSED_BYTES, HOP_BYTES};
ghost use Rattle.lynx_codec.specs.Adding.{HasRoom, Adds};
ghost use Rattle.lynx_codec.specs.Encoding.{request, look, answer, looked, message, begun, refused, hop, body};
ghost use Rattle.lynx_codec.specs.Ranges.{IsInRange, IsRequestInRange, IsRequest, IsLook, IsAnswerInRange, IsAnswer, IsLookedInRange, IsLooked, IsMessageInRange, IsMessage, IsBegunInRange, IsBegunEntry, IsRefusedInRange, IsRefusedEntry, IsHopInRange, IsHopEntry, IsItem};

use crate::item::{Item, Look, Looked};
use crate::writing::{
    put_byte, put_chain, put_flag, put_numbers, put_result_lists, put_stamp, put_values, put_word,
};
use lynx_entry::{Answer, BegunEntry, Entry, HopEntry, Message, RefusedEntry, Request};

fn put_request(out: &mut Vec<u8>, asked: &Request)
    requires range { IsRequestInRange asked.now }
    requires room { HasRoom out.old REQUEST_BYTES }
    ensures added { Adds out.old out.new (request asked.now) REQUEST_BYTES }
    ensures range { IsRequest asked.now }
{
    put_word(out, asked.client.number());
    put_word(out, asked.number);
    put_byte(out, asked.program.number());
    put_values(out, &asked.args);
}

fn put_look(out: &mut Vec<u8>, asked: &Look)
    requires { HasRoom out.old LOOK_BYTES }
    ensures added { Adds out.old out.new (look asked.now) LOOK_BYTES }
    ensures range { IsLook asked.now }
{
    put_chain(out, asked.chain);
    put_byte(out, asked.hop);
}

fn put_answer(out: &mut Vec<u8>, given: &Answer)
    requires range { IsAnswerInRange given.now }
    requires room { HasRoom out.old ANSWER_BYTES }
    ensures added { Adds out.old out.new (answer given.now) ANSWER_BYTES }
    ensures range { IsAnswer given.now }
{
    match given {
        Answer::Begun {
            chain,
            stamp,
            results,
            again,
        } => {
            put_byte(out, 0);
            put_chain(out, *chain);
            put_stamp(out, *stamp);
            put_flag(out, *again);
            put_values(out, results);
        }
        Answer::Clash => put_byte(out, 1),
        Answer::UnknownProgram => put_byte(out, 2),
        Answer::WrongOrigin => put_byte(out, 3),
        Answer::ArgCount => put_byte(out, 4),
        Answer::WrongShard => put_byte(out, 5),
        Answer::Full => put_byte(out, 6),
        Answer::Busy => put_byte(out, 7),
        Answer::Refused { need, stamp, again } => {
            put_byte(out, 8);
            put_byte(out, *need);
            put_stamp(out, *stamp);
            put_flag(out, *again);
        }
        Answer::Stopped => put_byte(out, 9),
        Answer::Memory => put_byte(out, 10),
        Answer::OutsideRange => put_byte(out, 11),
    }
}

fn put_looked(out: &mut Vec<u8>, given: &Looked)
    requires range { IsLookedInRange given.now }
    requires room { HasRoom out.old LOOKED_BYTES }
    ensures added { Adds out.old out.new (looked given.now) LOOKED_BYTES }
    ensures range { IsLooked given.now }
{
    match given {
        Looked::Absent => put_byte(out, 0),
        Looked::Found { stamp, results } => {
            put_byte(out, 1);
            put_stamp(out, *stamp);
            put_values(out, results);
        }
    }
}

fn put_message(out: &mut Vec<u8>, sent: &Message)
    requires range { IsMessageInRange sent.now }
    requires room { HasRoom out.old MESSAGE_BYTES }
    ensures added { Adds out.old out.new (message sent.now) MESSAGE_BYTES }
    ensures range { IsMessage sent.now }
{
    put_chain(out, sent.chain);
    put_byte(out, sent.program.number());
    put_byte(out, sent.hop);
    put_stamp(out, sent.stamp);
    put_values(out, &sent.args);
    put_numbers(out, &sent.numbers);
    put_result_lists(out, &sent.results);
}

fn put_begun(out: &mut Vec<u8>, entry: &BegunEntry)
    requires range { IsBegunInRange entry.now }
    requires room { HasRoom out.old BEGUN_BYTES }
    ensures added { Adds out.old out.new (begun entry.now) BEGUN_BYTES }
    ensures range { IsBegunEntry entry.now }
{
    put_request(out, &entry.request);
    put_stamp(out, entry.seen);
    put_chain(out, entry.chain);
    put_numbers(out, &entry.numbers);
    put_stamp(out, entry.stamp);
    put_values(out, &entry.results);
}

fn put_refused(out: &mut Vec<u8>, entry: &RefusedEntry)
    requires range { IsRefusedInRange entry.now }
    requires room { HasRoom out.old REFUSED_BYTES }
    ensures added { Adds out.old out.new (refused entry.now) REFUSED_BYTES }
    ensures range { IsRefusedEntry entry.now }
{
    put_request(out, &entry.request);
    put_stamp(out, entry.seen);
    put_byte(out, entry.need);
    put_stamp(out, entry.stamp);
}

fn put_hop(out: &mut Vec<u8>, entry: &HopEntry)
    requires range { IsHopInRange entry.now }
    requires room { HasRoom out.old HOP_BYTES }
    ensures added { Adds out.old out.new (hop entry.now) HOP_BYTES }
    ensures range { IsHopEntry entry.now }
{
    put_message(out, &entry.message);
    put_stamp(out, entry.stamp);
    put_values(out, &entry.results);
}

/// Adds the body of an entry.
pub fn put_entry(out: &mut Vec<u8>, entry: &Entry)
    requires range { IsInRange (Item.Entry entry.now) }
    requires room { HasRoom out.old HOP_BYTES }
    ensures added { Adds out.old out.new (body (Item.Entry entry.now)) HOP_BYTES }
    ensures range { IsItem (Item.Entry entry.now) }
{
    match entry {
        Entry::Begun(entry) => put_begun(out, entry),
        Entry::Refused(entry) => put_refused(out, entry),
        Entry::Hop(entry) => put_hop(out, entry),
    }
}

/// Adds the body of an item.
pub fn put_body(out: &mut Vec<u8>, item: &Item)
    requires range { IsInRange item.now }
    requires room { HasRoom out.old HOP_BYTES }
    ensures added { Adds out.old out.new (body item.now) HOP_BYTES }
    ensures range { IsItem item.now }
{
    match item {
        Item::Request(asked) => put_request(out, asked),
        Item::Look(asked) => put_look(out, asked),
        Item::Quit | Item::Shut | Item::Bye => {}
        Item::Answer(given) => put_answer(out, given),
        Item::Looked(given) => put_looked(out, given),
        Item::Message(sent) => put_message(out, sent),
        Item::Entry(entry) => put_entry(out, entry),
    }
}
