//! Adds fields to bytes that have room for them.
ghost use Rattle.std.specs.Prelude.{◌≡◌, ◌<◌, ◌≤◌, ◌+◌, ◌*◌, ◌∷◌, [], ℕ, length};
ghost use Rattle.std.specs.List.{AllByRecursion};
ghost use Rattle.lynx_names.specs.declared.limits.TheConstants.{MAX_ACTIONS};
ghost use Rattle.lynx_codec.specs.declared.sizes.TheConstants.{WORD_BYTES, CHAIN_BYTES, NUMBERS_BYTES, RESULT_LISTS_BYTES};
ghost use Rattle.lynx_codec.specs.Adding.{HasRoom, Adds};
ghost use Rattle.lynx_codec.specs.Fields.{word, flag, values, chain, number_at, numbers, result_lists};
ghost use Rattle.lynx_codec.specs.Ranges.{IsWord, IsStamp, IsChain, IsNumber, HaveOrder, AreFew, AreNumbers, AreResultLists};

use lynx_entry::ResultLists;
use lynx_names::{ChainId, NumberAt, Numbers, Stamp, Values};

pub fn put_byte(out: &mut Vec<u8>, byte: u8)
    requires { HasRoom out.old 1 }
    ensures added { Adds out.old out.new (byte ∷ []) 1 }
    ensures range { byte < 256 }
{
    out.push(byte).unwrap();
}

#[tactic(auto, unfolding(crate::specs::Fields::word))]
pub fn put_word(out: &mut Vec<u8>, number: u64)
    requires { HasRoom out.old WORD_BYTES }
    ensures added { Adds out.old out.new (word number) WORD_BYTES }
    ensures range { IsWord number }
{
    out.extend_from_slice(&number.to_be_bytes()).unwrap();
}

pub fn put_flag(out: &mut Vec<u8>, is_so: bool)
    requires { HasRoom out.old 1 }
    ensures { Adds out.old out.new (flag is_so) 1 }
{
    put_byte(out, u8::from(is_so));
}

pub fn put_stamp(out: &mut Vec<u8>, stamp: Stamp)
    requires { HasRoom out.old WORD_BYTES }
    ensures added { Adds out.old out.new (word stamp) WORD_BYTES }
    ensures range { IsStamp stamp }
{
    put_word(out, stamp.time());
}

pub fn put_chain(out: &mut Vec<u8>, id: ChainId)
    requires { HasRoom out.old CHAIN_BYTES }
    ensures added { Adds out.old out.new (chain id) CHAIN_BYTES }
    ensures range { IsChain id }
{
    put_byte(out, id.origin.number());
    put_word(out, id.index);
}

pub fn put_values(out: &mut Vec<u8>, list: &Values)
    requires few { length list.now ≤ MAX_ACTIONS }
    requires room { HasRoom out.old (1 + WORD_BYTES * length list.now) }
    ensures added { Adds out.old out.new (values list.now) (1 + WORD_BYTES * length list.now) }
    ensures range { AllByRecursion IsWord list.now }
{
    put_byte(out, list.len() as u8);
    for value in list.as_slice() {
        put_word(out, *value);
    }
}

fn put_number(out: &mut Vec<u8>, at: NumberAt)
    requires { HasRoom out.old (1 + WORD_BYTES) }
    ensures added { Adds out.old out.new (number_at at) (1 + WORD_BYTES) }
    ensures range { IsNumber at }
{
    put_byte(out, at.server.number());
    put_word(out, at.number);
}

pub fn put_numbers(out: &mut Vec<u8>, list: &Numbers)
    requires order { HaveOrder list.now }
    requires room { HasRoom out.old NUMBERS_BYTES }
    ensures added { Adds out.old out.new (numbers list.now) NUMBERS_BYTES }
    ensures range { AreNumbers list.now }
{
    put_byte(out, list.len() as u8);
    for at in list.as_slice() {
        put_number(out, *at);
    }
}

pub fn put_result_lists(out: &mut Vec<u8>, lists: &ResultLists)
    requires few { AreFew lists.now }
    requires room { HasRoom out.old RESULT_LISTS_BYTES }
    ensures added { Adds out.old out.new (result_lists lists.now) RESULT_LISTS_BYTES }
    ensures range { AreResultLists lists.now }
{
    put_byte(out, lists.len() as u8);
    for results in lists.as_slice() {
        put_values(out, results);
    }
}
