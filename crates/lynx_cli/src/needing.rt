//! Which need refused a begin, in the words of the set.
use crate::asking::AskedLine;
use crate::hints::Hints;
use lynx_codec::Item;
use lynx_entry::Answer;
use lynx_lex::Name;
use lynx_lex::lines::{next_line, words_of};
use lynx_names::ProgramId;
use lynx_set::ChainSet;
use lynx_text::print;
use std::alloc::Global;
use std::str;

/// The program of a line `begin CLIENT NUMBER PROGRAM ARG..`.
fn program_in(alloc: Global, set: &ChainSet, line: &[u8]) -> Option<ProgramId> {
    let words = words_of(alloc, line).ok()?;
    let name = Name::new(words.as_slice().get(3)?)?;
    set.find_program(&name)
}

/// The text of a set from the line of that program on.
fn from_program(text: &[u8], program: ProgramId) -> Option<&[u8]> {
    let mut rest = text;
    let mut before = program.index();
    for _ in 0..text.len() {
        let (line, after) = next_line(rest)?;
        if line.starts_with(b"program ") {
            if before == 0 {
                return Some(rest);
            }
            before -= 1;
        }
        rest = after;
    }
    None
}

/// The line of the need of that number, in the text from the line of its program on.
fn need_in(text: &[u8], need: u8) -> Option<&str> {
    let mut rest = text;
    let mut before = need;
    for _ in 0..text.len() {
        let (line, after) = next_line(rest)?;
        if line == b"end".as_slice() {
            return None;
        }
        if line.starts_with(b"need ") {
            if before == 0 {
                return str::from_utf8(line).ok();
            }
            before -= 1;
        }
        rest = after;
    }
    None
}

/// Says in a line what the need of that number asks, of the program that a line begins. None where
/// there is no memory to see it.
fn need_hint(alloc: Global, set: &ChainSet, line: &[u8], need: u8) -> Option<String> {
    let program = program_in(alloc, set, line)?;
    let text = print(alloc, set).ok()?;
    let words = need_in(from_program(text.as_slice(), program)?, need)?;
    format!(in alloc; "  refused {need}: {words}\n").ok()
}

/// Tells on standard error, where hints are wanted, which need refused the begin of a line.
pub(crate) fn tell_need(
    host: &HostRuntime,
    hints: &Hints,
    set: &ChainSet,
    line: &AskedLine<'_>,
    answer: &Item,
) {
    if !hints.are_wanted() {
        return;
    }
    let Item::Answer(Answer::Refused { need, .. }) = answer else {
        return;
    };
    if let Some(told) = need_hint(host.alloc(), set, line.bare(), *need) {
        let _ = eprint!(host; "{told}");
    }
}
