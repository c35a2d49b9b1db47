//! Begins that no server takes, though their line is right: at another server than that at which
//! the program begins, or with another count of arguments.

use crate::hints::head_of;
use crate::names::put_listed;
use crate::view::put_line;
use crate::word::{Mark, Word, Written, word_at, words_of};
use lynx_lex::Name;
use lynx_lex::lines::next_line;
use lynx_names::ProgramId;
use lynx_set::ChainSet;
use std::alloc::{AllocError, Global};
use std::fmt::Write;

/// As many begins of a script are told, at most.
const MAX_TOLD: usize = 8;

/// Where the words of a begin stand, counted from 0.
#[derive(Clone, Copy)]
struct Places {
    server: Option<usize>,
    program: usize,
}

/// In a script.
const OF_SCRIPT: Places = Places {
    server: Some(1),
    program: 4,
};

/// In what a service is asked, which knows the server.
const OF_ASKED: Places = Places {
    server: None,
    program: 3,
};

/// Of each begin of a script whose server isn't the one at which its program begins, or that has
/// another count of arguments: its line, and what it ought to be; none of other begins. The script
/// is one over this set. At most eight are told.
pub fn begin_hints(
    alloc: Global,
    name: &str,
    set: &ChainSet,
    script: &[u8],
) -> Result<String, AllocError> {
    let mut out = String::new(alloc);
    let mut rest = script;
    let mut told = 0usize;
    for number in 1..script.len().saturating_add(1) {
        let Some((line, after)) = next_line(rest) else {
            return Ok(out);
        };
        rest = after;
        let told_now = begin_hint(alloc, name, set, line, number, OF_SCRIPT)?;
        if !told_now.is_empty() && told < MAX_TOLD {
            out.push_str(told_now.as_str())?;
            told = told.saturating_add(1);
        }
    }
    Ok(out)
}

/// The same of a line of that number by which a service is asked, which has no server.
pub fn asked_begin_hint(
    alloc: Global,
    name: &str,
    set: &ChainSet,
    line: &[u8],
    number: usize,
) -> Result<String, AllocError> {
    begin_hint(alloc, name, set, line, number, OF_ASKED)
}

/// The same of one line; no line where nothing is to be told of it.
fn begin_hint(
    alloc: Global,
    name: &str,
    set: &ChainSet,
    line: &[u8],
    number: usize,
    places: Places,
) -> Result<String, AllocError> {
    let mut out = String::new(alloc);
    let words = words_of(alloc, line)?;
    let words = words.as_slice();
    if word_at(words, 0).text != b"begin".as_slice() {
        return Ok(out);
    }
    let Some(program) = program_of(set, word_at(words, places.program)) else {
        return Ok(out);
    };
    let mut told = String::new(alloc);
    let mark = match put_elsewhere(&mut told, set, program, words, places)? {
        Some(mark) => mark,
        None => match put_count(&mut told, set, program, words, places)? {
            Some(mark) => mark,
            None => return Ok(out),
        },
    };
    let head = head_of(alloc, name, number)?;
    out.push_str(head.as_str())?;
    put_line(&mut out, line, Some(mark), head.as_str().chars().count())?;
    out.push_str(told.as_str())?;
    Ok(out)
}

/// The program of that name.
fn program_of(set: &ChainSet, word: Word<'_>) -> Option<ProgramId> {
    set.find_program(&Name::new(word.text)?)
}

/// Writes at which server the program begins, where the words name another one, and gives that.
fn put_elsewhere(
    out: &mut String,
    set: &ChainSet,
    program: ProgramId,
    words: &[Word<'_>],
    places: Places,
) -> Result<Option<Mark>, AllocError> {
    let (Some(place), Some(origin)) = (places.server, set.origin(program)) else {
        return Ok(None);
    };
    let server = word_at(words, place);
    if server.number() == u64::from(origin.number()) {
        return Ok(None);
    }
    let name = word_at(words, places.program);
    writeln!(
        out,
        "  {name} begins at server {origin}, where its first hop is"
    )?;
    Ok(Some(server.mark()))
}

/// Writes how many arguments the program takes, where the words have another count, and gives
/// those, or the program where there are none.
fn put_count(
    out: &mut String,
    set: &ChainSet,
    program: ProgramId,
    words: &[Word<'_>],
    places: Places,
) -> Result<Option<Mark>, AllocError> {
    let Some(takes) = set.program(program) else {
        return Ok(None);
    };
    let count = takes.parameters;
    let first = places.program.saturating_add(1);
    let given = words.get(first..).unwrap_or(&[]);
    if given.len() == count {
        return Ok(None);
    }
    let name = word_at(words, places.program);
    write!(out, "  {name} takes ")?;
    put_arguments(out, count)?;
    let names = takes.names.as_slice().get(..count).unwrap_or(&[]);
    put_listed(out, names)?;
    out.push_str(", and is given ")?;
    put_arguments(out, given.len())?;
    out.push_str("\n")?;
    match (given, given.last()) {
        ([first, ..], Some(last)) => Ok(Some(Mark {
            start: first.start,
            width: last
                .start
                .saturating_add(last.text.len())
                .saturating_sub(first.start),
        })),
        _ => Ok(Some(name.mark())),
    }
}

fn put_arguments(out: &mut String, count: usize) -> Written {
    match count {
        0 => out.push_str("no argument"),
        1 => out.push_str("1 argument"),
        _ => write!(out, "{count} arguments"),
    }
}
