//! Bad lines.

use crate::before::{Before, find};
use crate::counts::put_wrong_count;
use crate::flaw::flaw_of;
use crate::near::is_near;
use crate::place::{fits, put_fitting};
use crate::site::Site;
use crate::verb::{LINES, LineKind, Verb};
use crate::word::{Marked, Word, Written};
use std::fmt::Write;

/// Writes why a line is a bad one, and gives the place.
pub(crate) fn put_bad_line(out: &mut String, site: &Site<'_>) -> Marked {
    if site.line.is_past_the_end() {
        out.push_str("  the text ends here, and ")?;
        put_owed(out, &site.before)?;
        put_fitting(out, &site.before)?;
        return Ok(None);
    }
    if let Some((flaw, mark)) = flaw_of(&site.line) {
        flaw.put(out)?;
        return Ok(mark);
    }
    match (site.fault.word, site.verb) {
        (_, None) => put_no_verb(out, site)?,
        (0, Some(verb)) => return put_wrong_count(out, &site.line, verb),
        (1, Some(verb)) => put_misplaced(out, site, verb)?,
        (_, Some(Verb::Let)) => put_operator(out, site.word)?,
        (_, Some(Verb::Need)) => put_relation(out, site.word)?,
        (_, Some(Verb::Range | Verb::Read)) => put_interval(out, site.word)?,
        (_, Some(_)) => {
            write!(out, "  {} is no chain: ", site.word)?;
            out.push_str("one is ORIGIN:INDEX, as 0:3, with one colon\n")?;
        }
    }
    Ok(site.mark())
}

/// Writes what is owed behind these lines.
fn put_owed(out: &mut String, before: &Before<'_>) -> Written {
    let state = match before.last_verb {
        Some(Verb::Program | Verb::Range) => "has no hop yet",
        Some(Verb::End) => "has ended",
        Some(verb) if verb.is_action() => "has no end yet",
        Some(Verb::Hop) => {
            return writeln!(out, "the hop of line {} has no action yet", before.hop.line);
        }
        _ => return out.push_str("a line is owed\n"),
    };
    match before.programs.as_slice().last() {
        Some(last) => writeln!(
            out,
            "the program {} of line {} {state}",
            last.word, last.line
        ),
        None => Ok(()),
    }
}

/// Writes that no line can begin with this word.
fn put_no_verb(out: &mut String, site: &Site<'_>) -> Written {
    let (word, kind) = (site.word, site.before.kind);
    let is_version = word.text == b"lynx".as_slice();
    if is_version && kind == LineKind::Set {
        out.push_str("  lynx begins the first line alone\n")?;
        return put_fitting(out, &site.before);
    }
    write!(out, "  no line of {} begins with {word}", text_of(kind))?;
    let other = if is_version {
        Some(LineKind::Set)
    } else {
        Verb::of(word.text).map(|verb| verb.kind())
    };
    match (nearest(&site.before, word.text), other) {
        (Some(verb), _) => writeln!(out, "; did you mean {}?", verb.spelled())?,
        (None, Some(other)) => writeln!(out, "; one of {} does", texts_of(other))?,
        (None, None) => out.push_str("\n")?,
    }
    put_wanted(out, site)?;
    put_fitting(out, &site.before)
}

/// How a text of that kind is called ..
fn text_of(kind: LineKind) -> &'static str {
    match kind {
        LineKind::Set => "a set",
        LineKind::Script => "a script",
        LineKind::Asked => "what is asked",
    }
}

/// .. and many of them.
fn texts_of(kind: LineKind) -> &'static str {
    match kind {
        LineKind::Set => "sets",
        LineKind::Script => "scripts",
        LineKind::Asked => "what a service is asked",
    }
}

/// Writes how to do what a line that begins so may be meant to do.
fn put_wanted(out: &mut String, site: &Site<'_>) -> Written {
    let (word, kind) = (site.word, site.before.kind);
    match word.text {
        _ if kind != LineKind::Set => {
            if find(site.before.programs.as_slice(), word.text).is_none() {
                return Ok(());
            }
            let begin = if kind == LineKind::Script {
                Verb::Begin
            } else {
                Verb::Request
            };
            writeln!(out, "  {word} is a program: a begin asks for a chain of it")?;
            begin.put_form(out)
        }
        b"if" | b"else" | b"when" | b"unless" => {
            out.push_str("  there is no condition but need, which refuses the whole chain\n")
        }
        b"for" | b"while" | b"loop" | b"repeat" => {
            out.push_str("  there is no loop: each cell is named by a line of its own\n")
        }
        b"mul" | b"div" | b"mod" => out.push_str("  there is no product and no quotient\n"),
        b"del" | b"delete" | b"remove" | b"clear" => {
            out.push_str("  a cell is emptied by setting it to 0\n")
        }
        _ => Ok(()),
    }
}

/// The verb that the word nearly is, one that can stand here before others.
fn nearest(before: &Before<'_>, word: &[u8]) -> Option<Verb> {
    let mut found = None;
    for (verb, _, _) in LINES {
        let is_own = verb.kind() == before.kind;
        if is_own && is_near(word, verb.spelled().as_bytes()) {
            if fits(before, verb) {
                return Some(verb);
            }
            found = Some(verb);
        }
    }
    found
}

/// Writes that a line of the verb can't stand here.
fn put_misplaced(out: &mut String, site: &Site<'_>, verb: Verb) -> Written {
    let word = site.word;
    if is_of_second(&site.before, verb) {
        writeln!(
            out,
            "  {word} is a word of version 2, and the text is of version 1"
        )?;
        return out.push_str("  begin the text with lynx 2\n");
    }
    out.push_str("  ")?;
    match (site.before.last_verb, verb) {
        (Some(Verb::End), Verb::Table) => out.push_str("all tables stand before all programs\n")?,
        (Some(Verb::Program | Verb::Range | Verb::Hop | Verb::End), _) => {
            put_owed(out, &site.before)?;
        }
        (Some(last), Verb::Program | Verb::Table) if last.is_action() => {
            put_owed(out, &site.before)?;
        }
        (Some(last), Verb::Range) if last.is_action() => {
            out.push_str("ranges stand between a program's line and its first hop\n")?;
        }
        _ => writeln!(out, "a line that begins with {word} can't stand here")?,
    }
    put_fitting(out, &site.before)
}

/// Whether the verb could stand here if the text were of version 2.
fn is_of_second(before: &Before<'_>, verb: Verb) -> bool {
    match before.last_verb {
        _ if before.is_second => false,
        Some(Verb::Program) => verb == Verb::Range,
        Some(last) => verb == Verb::Max && (last == Verb::Hop || last.is_action()),
        None => false,
    }
}

fn put_operator(out: &mut String, word: Word<'_>) -> Written {
    writeln!(
        out,
        "  {word} is no operator: a let adds by + or takes away by -"
    )?;
    if let b"*" | b"/" | b"%" | b"**" | b"^" = word.text {
        out.push_str("  there is no product and no quotient: a value twice is itself + itself\n")?;
    }
    Verb::Let.put_form(out)
}

fn put_relation(out: &mut String, word: Word<'_>) -> Written {
    write!(out, "  {word} is no relation")?;
    match relation_meant(word.text) {
        Some(meant) => writeln!(out, "; did you mean {meant}?")?,
        None => out.push_str("\n")?,
    }
    out.push_str("  the relations are < <= = != >= >\n")
}

/// The relation that is spelled so elsewhere.
fn relation_meant(word: &[u8]) -> Option<&'static str> {
    match word {
        b"==" | b"===" | b"eq" | b"is" => Some("="),
        b"<>" | b"=/=" | b"~=" | b"!==" | b"!" | b"ne" => Some("!="),
        b"=<" | b"le" => Some("<="),
        b"=>" | b"ge" => Some(">="),
        b"lt" => Some("<"),
        b"gt" => Some(">"),
        _ => None,
    }
}

fn put_interval(out: &mut String, word: Word<'_>) -> Written {
    match word.cut_at(b"..".as_slice()) {
        Some(_) => writeln!(out, "  .. stands more than once in {word}")?,
        None => writeln!(out, "  no .. stands in {word}")?,
    }
    out.push_str("  an interval is LO..HI without a space, as 0..9\n")
}
