//! Programs that write cells which they are given as arguments, and nothing else.
ghost use Rattle.std.specs.Prelude.{◌≡◌, ◌==◌, ◌&&◌, ◌||◌, count_by, false, nat_le};
ghost use Rattle.std.specs.List.{list_all, list_any};
ghost use Rattle.std.specs.Option.{option_map_or};
ghost use Rattle.lynx_carry.specs.Writers.{has_room, is_add, is_key_of, is_nothing, is_own, is_own_pair, is_pair_within, is_slot, is_turn, is_used_once, is_value_of, is_within, is_write, is_writer, named_pair, names, set_writes, writes, writes_cell, writes_in};

use lynx_names::{ServerId, TableId};
use lynx_set::{Action, ChainSet, Hop, Key, Operand, ParameterRange, Program, Update, range_of};

/// A cell that some program is to write.
#[derive(Clone, Copy, Debug, PartialEq, Eq)]
pub(crate) struct Target {
    pub server: ServerId,
    pub table: TableId,
    pub key: u64,
    pub value: u64,
}

fn is_key_of(parameter: u8, key: Key) -> bool
    ensures { result ≡ is_key_of parameter key }
{
    match key {
        Key::Literal(_) => false,
        Key::Param(place) => place == parameter,
    }
}

fn is_value_of(parameter: u8, value: Operand) -> bool
    ensures { result ≡ is_value_of parameter value }
{
    match value {
        Operand::Number(_) => false,
        Operand::Name(place) => place == parameter,
    }
}

/// Whether the action names the parameter.
pub(crate) fn names(parameter: u8, action: &Action) -> bool
    ensures { result ≡ names parameter action.now }
{
    match *action {
        Action::Get { key, .. } => is_key_of(parameter, key),
        Action::Update { key, value, .. } => {
            is_key_of(parameter, key) || is_value_of(parameter, value)
        }
        Action::Let { left, right, .. } => {
            is_value_of(parameter, left) || is_value_of(parameter, right)
        }
        Action::Need { left, right, .. } => {
            is_value_of(parameter, left) || is_value_of(parameter, right)
        }
    }
}

fn is_named_in(hop: &Hop, parameter: u8) -> bool
    ensures { result ≡ list_any (names parameter) hop.now.actions }
{
    hop.actions
        .as_slice()
        .iter()
        .any(|action| names(parameter, action))
}

fn count_in(hop: &Hop, parameter: u8) -> usize
    ensures { result ≡ count_by (names parameter) hop.now.actions }
{
    hop.actions
        .as_slice()
        .iter()
        .filter(|action| names(parameter, *action))
        .count()
}

/// How many of the hops name the parameter.
fn naming_hops(hops: &[Hop], parameter: u8) -> usize
    ensures { result ≡ count_by (λ hop. list_any (names parameter) hop.actions) hops.now }
{
    hops.iter()
        .filter(|hop| is_named_in(hop, parameter))
        .count()
}

/// Whether one action at most of each hop names the parameter.
fn is_single_in(hops: &[Hop], parameter: u8) -> bool
    ensures { result ≡ list_all (λ hop. nat_le (count_by (names parameter) hop.actions) 1)
        hops.now }
{
    hops.iter().all(|hop| count_in(hop, parameter) <= 1)
}

/// Whether one action alone names the parameter.
fn is_used_once(hops: &[Hop], parameter: u8) -> bool
    ensures { result ≡ is_used_once hops.now parameter }
{
    naming_hops(hops, parameter) == 1 && is_single_in(hops, parameter)
}

/// Whether it is a parameter that one action alone names.
fn is_own(program: &Program, parameter: u8) -> bool
    ensures { result ≡ is_own program.now parameter }
{
    usize::from(parameter) < program.parameters && is_used_once(program.hops.as_slice(), parameter)
}

/// The parameters that are the key and the value, if both are names.
pub(crate) fn named_pair(key: Key, value: Operand) -> Option<(u8, u8)>
    ensures { result ≡ named_pair key value }
{
    match key {
        Key::Literal(_) => None,
        Key::Param(key) => match value {
            Operand::Number(_) => None,
            Operand::Name(value) => Some((key, value)),
        },
    }
}

fn is_own_pair(program: &Program, pair: (u8, u8)) -> bool
    ensures { result ≡ is_own_pair program.now pair }
{
    pair.0 != pair.1 && is_own(program, pair.0) && is_own(program, pair.1)
}

fn is_own_cell(program: &Program, key: Key, value: Operand) -> bool
    ensures { result ≡ option_map_or (is_own_pair program.now) (named_pair key value) false }
{
    match named_pair(key, value) {
        Some(pair) => is_own_pair(program, pair),
        None => false,
    }
}

fn is_write(update: Update) -> bool
    ensures { result ≡ is_write update }
{
    match update {
        Update::Set | Update::Add => true,
        Update::Sub | Update::Max => false,
    }
}

/// Whether the action writes a cell that it is given.
pub(crate) fn is_slot(program: &Program, action: &Action) -> bool
    ensures { result ≡ is_slot program.now action.now }
{
    match *action {
        Action::Update {
            update,
            key,
            value,
            ..
        } => is_write(update) && is_own_cell(program, key, value),
        Action::Get { .. } | Action::Let { .. } | Action::Need { .. } => false,
    }
}

fn is_add(update: Update) -> bool
    ensures { result ≡ is_add update }
{
    match update {
        Update::Add => true,
        Update::Set | Update::Sub | Update::Max => false,
    }
}

fn is_nothing(value: Operand) -> bool
    ensures { result ≡ is_nothing value }
{
    match value {
        Operand::Number(number) => number == 0,
        Operand::Name(_) => false,
    }
}

/// Whether the action takes its turn and changes nothing.
fn is_turn(action: &Action) -> bool
    ensures { result ≡ is_turn action.now }
{
    match *action {
        Action::Update { update, value, .. } => is_add(update) && is_nothing(value),
        Action::Get { .. } | Action::Let { .. } | Action::Need { .. } => false,
    }
}

fn is_writing_hop(program: &Program, hop: &Hop) -> bool
    ensures { result ≡ list_all (λ action. is_slot program.now action || is_turn action)
        hop.now.actions }
{
    hop.actions
        .as_slice()
        .iter()
        .all(|action| is_slot(program, action) || is_turn(action))
}

/// Whether all that the program does is to write cells that it is given, and to take turns.
pub(crate) fn is_writer(program: &Program) -> bool
    ensures { result ≡ is_writer program.now }
{
    program
        .hops
        .as_slice()
        .iter()
        .all(|hop| is_writing_hop(program, hop))
}

fn is_within(ranges: &[ParameterRange], parameter: u8, number: u64) -> bool
    ensures { result ≡ is_within ranges.now parameter number }
{
    match range_of(ranges, parameter) {
        Some(interval) => interval.holds(number),
        None => true,
    }
}

fn is_pair_within(ranges: &[ParameterRange], target: &Target, key: Key, value: Operand) -> bool
    ensures { result ≡ option_map_or (is_pair_within ranges.now target.now.key target.now.value)
        (named_pair key value) false }
{
    match named_pair(key, value) {
        Some(pair) => {
            is_within(ranges, pair.0, target.key) && is_within(ranges, pair.1, target.value)
        }
        None => false,
    }
}

/// Whether the action is of the target's table, and the ranges of its parameters hold key and
/// value.
fn has_room(program: &Program, target: &Target, action: &Action) -> bool
    ensures { result ≡ has_room program.now target.now.table target.now.key target.now.value
        action.now }
{
    match *action {
        Action::Update {
            table,
            key,
            value,
            ..
        } => table == target.table && is_pair_within(program.ranges.as_slice(), target, key, value),
        Action::Get { .. } | Action::Let { .. } | Action::Need { .. } => false,
    }
}

fn writes_cell(program: &Program, target: &Target, action: &Action) -> bool
    ensures { result ≡ writes_cell program.now target.now.table target.now.key target.now.value
        action.now }
{
    is_slot(program, action) && has_room(program, target, action)
}

/// Whether one of the actions writes the target if it is given it.
fn writes_by(program: &Program, target: &Target, actions: &[Action]) -> bool
    ensures { result ≡ list_any
        (writes_cell program.now target.now.table target.now.key target.now.value) actions.now }
{
    actions
        .iter()
        .any(|action| writes_cell(program, target, action))
}

fn writes_in(program: &Program, target: &Target, hop: &Hop) -> bool
    ensures { result ≡ writes_in program.now target.now.server target.now.table target.now.key
        target.now.value hop.now }
{
    hop.server == target.server && writes_by(program, target, hop.actions.as_slice())
}

fn writes_at(program: &Program, target: &Target, hops: &[Hop]) -> bool
    ensures { result ≡ list_any
        (writes_in program.now target.now.server target.now.table target.now.key target.now.value)
        hops.now }
{
    hops.iter().any(|hop| writes_in(program, target, hop))
}

/// Whether the program is a writer, and one of its actions writes the target if it is given it.
fn writes(program: &Program, target: &Target) -> bool
    ensures { result ≡ writes program.now target.now.server target.now.table target.now.key
        target.now.value }
{
    is_writer(program) && writes_at(program, target, program.hops.as_slice())
}

/// Whether a program of the set is and does so.
pub(crate) fn set_writes(set: &ChainSet, target: &Target) -> bool
    ensures { result ≡ set_writes set.now target.now.server target.now.table target.now.key
        target.now.value }
{
    for (_, program) in set.programs() {
        if writes(program, target) {
            return true;
        }
    }
    false
}
