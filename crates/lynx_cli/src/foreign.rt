//! Why a store is of another set, in lines: how the sets differ, with the lines at which they part.
use crate::fault::Fault;
use lynx_extend::{ExtendFault, extend_fault};
use lynx_lex::lines::next_line;
use lynx_names::ServerId;
use lynx_service::{ServeFault, StoreWord};
use lynx_set::ChainSet;
use lynx_sql::Rising;
use lynx_store::{Inspected, inspect};
use lynx_store_files::{Copies, store_path};
use lynx_text::print;
use sqlite::Connection;
use std::alloc::{AllocError, Global};
use std::str;

/// A line of a text, by its number, counted from 1, and the text from it on.
#[derive(Clone, Copy)]
struct At<'a> {
    number: usize,
    text: &'a [u8],
}

/// Where the part of that number begins: the lines of a table or a program, by the first word.
fn part_at<'a>(text: &'a [u8], word: &[u8], part: usize) -> Option<At<'a>> {
    let mut number = 1usize;
    let mut left = part;
    let mut rest = text;
    while let Some((line, after)) = next_line(rest) {
        if line.starts_with(word) {
            if left == 0 {
                return Some(At { number, text: rest });
            }
            left -= 1;
        }
        number = number.saturating_add(1);
        rest = after;
    }
    None
}

/// The first lines at which two parts differ.
fn lines_apart<'a>(there: At<'a>, here: At<'a>) -> Option<(At<'a>, At<'a>)> {
    let mut lines = 0usize;
    let mut one = there.text;
    let mut other = here.text;
    while let Some((line, after)) = next_line(one) {
        let (its, behind) = next_line(other)?;
        if line != its {
            let there = At {
                number: there.number.saturating_add(lines),
                text: line,
            };
            let here = At {
                number: here.number.saturating_add(lines),
                text: its,
            };
            return Some((there, here));
        }
        lines = lines.saturating_add(1);
        one = after;
        other = behind;
    }
    None
}

/// The lines of both texts, of a store's set and of this one, at which this part differs.
fn parted_in(alloc: Global, held: &[u8], text: &[u8], word: &[u8], part: usize) -> Option<String> {
    let (there, here) = lines_apart(part_at(held, word, part)?, part_at(text, word, part)?)?;
    let (number, line) = (there.number, str::from_utf8(there.text).ok()?);
    let (own_number, own) = (here.number, str::from_utf8(here.text).ok()?);
    format!(in alloc;
        "  line {number} of the store's set: {line}\n  line {own_number} of this set: {own}\n"
    ).ok()
}

/// The lines of both sets at which this part differs.
fn parted(
    alloc: Global,
    held: &ChainSet,
    set: &ChainSet,
    word: &[u8],
    part: usize,
) -> Option<String> {
    let held = print(alloc, held).ok()?;
    let text = print(alloc, set).ok()?;
    parted_in(alloc, held.as_slice(), text.as_slice(), word, part)
}

/// What is told of a part that the set hasn't any more.
fn gone(alloc: Global, part: &str, number: usize) -> Result<String, AllocError> {
    format!(in alloc;
        "  {part} {number} of the store's set, counted from 0, isn't there: what a set has stays in each that extends it\n"
    )
}

/// How the set of a store and this one differ, in lines.
fn difference(alloc: Global, held: &ChainSet, set: &ChainSet) -> Option<String> {
    let told = match extend_fault(held, set) {
        None if held.is_same(set) => return None,
        None => String::from_str(
            alloc,
            "  this set extends that of the store: lynx extend DIR SET gives the stores to it\n",
        ),
        Some(ExtendFault::Version) => String::from_str(
            alloc,
            "  the store's set is of version 2, and this one of version 1\n",
        ),
        Some(ExtendFault::Servers) => {
            let (count, own) = (held.servers(), set.servers());
            format!(in alloc; "  the store's set has {count} servers, and this one {own}\n")
        }
        Some(ExtendFault::TableGone { table }) => gone(alloc, "table", table),
        Some(ExtendFault::ProgramGone { program }) => gone(alloc, "program", program),
        Some(ExtendFault::TableChanged { table }) => {
            return parted(alloc, held, set, b"table ", table);
        }
        Some(ExtendFault::ProgramChanged { program }) => {
            return parted(alloc, held, set, b"program ", program);
        }
    };
    told.ok()
}

/// What a store keeps, and of which set, by a copy of its file.
fn held_at<C: Rising + Drop, S: Copies<Connection<C>>>(
    alloc: Global,
    copies: &S,
    folder: &str,
    server: ServerId,
) -> Option<Inspected> {
    let path = store_path(alloc, folder, server).ok()?;
    let mut copy = copies.copy(path.as_str()).ok()?;
    inspect(alloc, &mut copy).ok()
}

/// Why the store that a job was to open is another set's, in lines; none where nothing is known.
pub(crate) fn foreign_lines<T, C: Rising + Drop, S: Copies<Connection<C>>>(
    alloc: Global,
    copies: &S,
    folder: &str,
    set: &ChainSet,
    done: &Result<T, Fault<'_>>,
) -> Option<String> {
    let Err(Fault::Serve(ServeFault::Store { server, word })) = done else {
        return None;
    };
    if !matches!(word, StoreWord::OtherSet | StoreWord::OtherVersion) {
        return None;
    }
    let held = held_at(alloc, copies, folder, ServerId::new(*server)?)?;
    if held.server.number() != *server {
        let owner = held.server;
        return format!(in alloc; "  it is the store of server {owner}\n").ok();
    }
    difference(alloc, &held.set, set)
}
