//! What the words of an action mean, where the program's names have these values so far.
ghost use Rattle.std.specs.Prelude.{◌≡◌, slice_index};
ghost use Rattle.lynx_hops.specs.Meaning.{key_of, value_of, is_met, result_of, updated};

use lynx_set::{Key, Operand, Operator, Relation, Update};

/// The value at a place of a list. There is one at each place that a parsed program names.
fn at(values: &[u64], place: u8) -> u64
    ensures { result ≡ slice_index values.now place }
{
    values.get(usize::from(place)).copied().unwrap_or(0)
}

pub fn key_of(args: &[u64], key: Key) -> u64
    ensures { result ≡ key_of args.now key }
{
    match key {
        Key::Literal(key) => key,
        Key::Param(place) => at(args, place),
    }
}

pub(crate) fn value_of(names: &[u64], operand: Operand) -> u64
    ensures { result ≡ value_of names.now operand }
{
    match operand {
        Operand::Number(value) => value,
        Operand::Name(place) => at(names, place),
    }
}

pub(crate) fn result_of(operator: Operator, left: u64, right: u64) -> u64
    ensures { result ≡ result_of operator left right }
{
    match operator {
        Operator::Plus => left.wrapping_add(right),
        Operator::Minus => left.wrapping_sub(right),
    }
}

/// What a cell that held a value holds after the update.
pub(crate) fn updated(update: Update, held: u64, value: u64) -> u64
    ensures { result ≡ updated update held value }
{
    match update {
        Update::Set => value,
        Update::Add => held.wrapping_add(value),
        Update::Sub => held.wrapping_sub(value),
        Update::Max => held.max(value),
    }
}

pub(crate) fn is_met(relation: Relation, left: u64, right: u64) -> bool
    ensures { result ≡ is_met relation left right }
{
    match relation {
        Relation::Below => left < right,
        Relation::AtMost => left <= right,
        Relation::Same => left == right,
        Relation::Differs => left != right,
        Relation::AtLeast => left >= right,
        Relation::Above => left > right,
    }
}
