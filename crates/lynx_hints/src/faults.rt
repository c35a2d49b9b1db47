//! What is wrong with a word of a line, or which limit the line passes.

use crate::bad_line::put_bad_line;
use crate::before::find;
use crate::names::{near_of, put_missing, put_names, put_near, put_no_server, put_taken};
use crate::shards::{put_elsewhere, put_shard_fault};
use crate::site::Site;
use crate::spelling::{put_bad_name, put_bad_number};
use crate::verb::{Role, Verb};
use crate::versions::put_bad_version;
use crate::word::{Marked, Written};
use lynx_lex::FaultKind;
use lynx_names::limits::{
    MAX_ACTIONS, MAX_HOPS, MAX_PARAMETERS, MAX_PROGRAMS, MAX_SERVERS, MAX_SHARDS, MAX_TABLES,
    MAX_TEXT_BYTES,
};
use std::fmt::Write;

/// Writes what is wrong with a text, and gives the place in the line.
pub(crate) fn put_fault(out: &mut String, site: &Site<'_>) -> Marked {
    match (site.fault.kind, site.verb) {
        (FaultKind::TooLong, _) => {
            writeln!(out, "  a text has {MAX_TEXT_BYTES} bytes at most")?;
        }
        (FaultKind::BadVersion, _) => return put_bad_version(out, site),
        (FaultKind::BadLine, _) => return put_bad_line(out, site),
        (_, Some(verb)) => put_word_fault(out, site, verb)?,
        _ => (),
    }
    Ok(site.mark())
}

fn put_word_fault(out: &mut String, site: &Site<'_>, verb: Verb) -> Written {
    match site.fault.kind {
        FaultKind::NeedNotFirst => put_need(out, site),
        FaultKind::LimitPassed => put_limit(out, site, verb),
        FaultKind::LiteralElsewhere => put_elsewhere(out, site),
        FaultKind::Shard(fault) => put_shard_fault(out, site, fault),
        FaultKind::BadName => put_bad_name(out, site.word, verb.role(site.fault.word)),
        FaultKind::BadNumber => put_no_number(out, site, verb),
        FaultKind::Repeated => put_repeated(out, site, verb),
        FaultKind::Unknown => put_unknown(out, site, verb),
        _ => Ok(()),
    }
}

fn put_need(out: &mut String, site: &Site<'_>) -> Written {
    out.push_str("  a need stands in the first hop of its program alone, and the hop of line ")?;
    writeln!(out, "{} is a later one", site.before.hop.line)?;
    out.push_str("  decide in the first hop: once it has run, the others run too\n")
}

/// Writes which limit a line passes.
fn put_limit(out: &mut String, site: &Site<'_>, verb: Verb) -> Written {
    match (verb, site.fault.word) {
        (Verb::Servers, _) => writeln!(out, "  a set has 1 to {MAX_SERVERS} servers"),
        (Verb::Table, _) => writeln!(out, "  a set has {MAX_TABLES} tables at most"),
        (Verb::Shard, _) => writeln!(out, "  a table has {MAX_SHARDS} shards at most"),
        (Verb::Program, 0) => writeln!(out, "  a set has {MAX_PROGRAMS} programs at most"),
        (Verb::Program, _) => writeln!(out, "  a program has {MAX_PARAMETERS} parameters at most"),
        (Verb::Hop, _) => writeln!(out, "  a program has {MAX_HOPS} hops at most"),
        (Verb::Begin | Verb::Request, _) => {
            writeln!(out, "  a begin has {MAX_PARAMETERS} arguments at most")
        }
        _ => writeln!(out, "  a hop has {MAX_ACTIONS} actions at most"),
    }
}

/// Writes why a word is no number, or none that can stand here.
fn put_no_number(out: &mut String, site: &Site<'_>, verb: Verb) -> Written {
    let word = site.word;
    let is_program = find(site.before.programs.as_slice(), word.text).is_some();
    match (verb, site.fault.word) {
        (Verb::Range, 3) if word.spells_number() => {
            let interval = site.line.word(3).cut_at(b"..".as_slice());
            let low = interval.map_or(word, |ends| ends.0);
            write!(out, "  {word} is below {low}: ")?;
            out.push_str("a range goes from its least number to its greatest, both its own\n")
        }
        (Verb::Deliver | Verb::Lose | Verb::Look, 3) if word.spells_number() => {
            let why = "is too great: a hop is a number from 0 to 255";
            writeln!(out, "  {word} {why}")
        }
        (Verb::Begin, 4) | (Verb::Request, 3) if is_program => {
            let why = "is a program, and NUMBER has to stand here: was it left out?";
            writeln!(out, "  {word} {why}")?;
            verb.put_form(out)
        }
        _ => put_bad_number(out, word),
    }
}

/// Writes what a name that is taken is already.
fn put_repeated(out: &mut String, site: &Site<'_>, verb: Verb) -> Written {
    let (word, before) = (site.word, &site.before);
    match (verb, site.fault.word) {
        (Verb::Table, _) => put_taken(out, "table", word, before.tables.as_slice()),
        (Verb::Program, 2) => put_taken(out, "program", word, before.programs.as_slice()),
        (Verb::Program, _) => writeln!(out, "  {word} is already a parameter on this line"),
        (Verb::Range, _) => put_range_order(out, site),
        _ => {
            match find(before.bound.as_slice(), word.text) {
                Some(bound) => writeln!(out, "  {word} is already bound, by line {}", bound.line)?,
                None => put_hidden(out, site)?,
            }
            out.push_str("  in a program all parameters and bound names are distinct\n")
        }
    }
}

/// Writes that a new name would hide a parameter; in a get it may be the key that is named first.
fn put_hidden(out: &mut String, site: &Site<'_>) -> Written {
    let (word, parameters) = (site.word, site.before.parameters.as_slice());
    put_taken(out, "parameter", word, parameters)?;
    match site.verb {
        Some(Verb::Get) => Verb::Get.put_form(out),
        _ => Ok(()),
    }
}

/// Writes that the range of a parameter comes too late.
fn put_range_order(out: &mut String, site: &Site<'_>) -> Written {
    let word = site.word;
    match site.before.last_range {
        Some(last) if last.text != word.text => {
            writeln!(out, "  the range of {word} stands before that of {last}")?;
            out.push_str("  ranges out of order are told by the word repeated too\n")?;
        }
        _ => writeln!(out, "  {word} has a range already")?,
    }
    out.push_str("  each parameter has one range at most, in their order: ")?;
    put_names(out, site.before.parameters.as_slice())?;
    out.push_str("\n")
}

/// Writes that a name or a server isn't known, and which are.
fn put_unknown(out: &mut String, site: &Site<'_>, verb: Verb) -> Written {
    let (word, before) = (site.word, &site.before);
    match (verb.role(site.fault.word), verb) {
        (Role::Server, _) => put_no_server(out, word, before.servers),
        (Role::Table, _) => put_no_table(out, site),
        (Role::Key, _) => put_no_key(out, site),
        (Role::Value, _) => {
            write!(out, "  no parameter is named {word}, and ")?;
            out.push_str("no earlier line of the program binds it\n  parameters: ")?;
            put_names(out, before.parameters.as_slice())?;
            out.push_str("; bound: ")?;
            put_names(out, before.bound.as_slice())?;
            match near_of(word, before.parameters.as_slice()) {
                Some(near) => put_near(out, Some(near)),
                None => put_near(out, near_of(word, before.bound.as_slice())),
            }
        }
        (_, Verb::Begin | Verb::Request) => put_missing(
            out,
            "program",
            word,
            before.programs.as_slice(),
        ),
        _ => put_missing(out, "parameter", word, before.parameters.as_slice()),
    }
}

/// Writes that there is no table of that name; in a get the new name may stand in its place.
fn put_no_table(out: &mut String, site: &Site<'_>) -> Written {
    let tables = site.before.tables.as_slice();
    put_missing(out, "table", site.word, tables)?;
    match site.verb {
        Some(Verb::Get) if find(tables, site.line.word(2).text).is_some() => {
            out.push_str("  the new name comes first\n")?;
            Verb::Get.put_form(out)
        }
        _ => Ok(()),
    }
}

/// Writes why a name is no key.
fn put_no_key(out: &mut String, site: &Site<'_>) -> Written {
    let (word, parameters) = (site.word, site.before.parameters.as_slice());
    let Some(bound) = find(site.before.bound.as_slice(), word.text) else {
        return put_missing(out, "parameter", word, parameters);
    };
    write!(out, "  {word} is bound by line {}, and ", bound.line)?;
    out.push_str("a key is a number or a parameter\n  parameters: ")?;
    put_names(out, parameters)?;
    out.push_str("\n")?;
    if bound.key.text.is_empty() {
        return Ok(());
    }
    write!(out, "  {word} is the value that line {} gets, ", bound.line)?;
    writeln!(out, "and {} the key of its cell: is that meant?", bound.key)
}
