//! The faults of a text behind its first one: the line at fault is taken for one that is right, and
//! the text is read again.
use lynx_hints::{Part, hint};
use lynx_lex::lines::{first_word, next_line};
use lynx_lex::{FaultKind, Name, TextFault};
use lynx_lines::parse_script;
use lynx_text::parse;
use std::alloc::{AllocError, Global};

/// Faults that are told behind the first, at most.
const MAX_FURTHER: u32 = 9;

/// What is taken for an event at fault.
const ANY_EVENT: &[u8] = b"restart 0";

/// The fault of a text, if it has one.
fn fault_of(alloc: Global, text: &[u8], part: Part<'_>) -> Option<TextFault> {
    match part {
        Part::Set => parse(alloc, text).err(),
        Part::Script(set) => parse_script(alloc, set, text).err(),
        Part::Asked(_) => None,
    }
}

/// The line of that number, counted from 1.
fn line_at(text: &[u8], number: usize) -> Option<&[u8]> {
    let mut rest = text;
    for at in 1..=text.len() {
        let (line, after) = next_line(rest)?;
        if at == number {
            return Some(line);
        }
        rest = after;
    }
    None
}

/// The text with another line in place of the one of that number.
fn with_line(
    alloc: Global,
    text: &[u8],
    number: usize,
    line: &[u8],
) -> Result<Vec<u8>, AllocError> {
    let mut changed = Vec::new(alloc);
    let mut rest = text;
    for at in 1..=text.len() {
        let Some((own, after)) = next_line(rest) else {
            break;
        };
        changed.extend_from_slice(if at == number { line } else { own })?;
        changed.push(b'\n')?;
        rest = after;
    }
    changed.extend_from_slice(rest)?;
    Ok(changed)
}

/// The line without the spaces before it.
fn unindented(line: &[u8]) -> &[u8] {
    match line.iter().position(|byte| *byte != b' ') {
        Some(start) => &line[start..],
        None => line,
    }
}

/// The line may be an action, rightly spelled or not: it has three words or more, and isn't a line
/// of another kind.
fn is_action(line: &[u8]) -> bool {
    let (verb, rest) = first_word(unindented(line));
    let is_other = matches!(
        verb,
        b"lynx" | b"servers" | b"table" | b"shard" | b"program" | b"range" | b"hop" | b"end"
    );
    match rest {
        Some(rest) => !is_other && first_word(rest).1.is_some(),
        None => false,
    }
}

/// The line may have been to bind a name.
fn may_bind(line: &[u8]) -> bool {
    let verb = first_word(unindented(line)).0;
    !matches!(verb, b"set" | b"add" | b"sub" | b"max" | b"need")
}

/// The name that a line at fault was to bind, if it is one.
fn bound_name(line: &[u8]) -> Option<Name> {
    if !may_bind(line) {
        return None;
    }
    let rest = first_word(unindented(line)).1?;
    Name::new(first_word(rest).0)
}

/// An action that is right in any hop. It binds the name that the line at fault was to bind, so
/// that later lines find it, or a name that nobody uses.
fn any_action(
    alloc: Global,
    line: &[u8],
    number: usize,
    is_bound: bool,
) -> Result<Vec<u8>, AllocError> {
    let mut action = Vec::new(alloc);
    action.extend_from_slice(b"let ".as_slice())?;
    match bound_name(line) {
        Some(name) if is_bound => action.extend_from_slice(name.as_bytes())?,
        _ => {
            let fresh = format!(in alloc; "line_{number}_")?;
            action.extend_from_slice(fresh.as_bytes())?;
        }
    }
    action.extend_from_slice(b" 0 + 0".as_slice())?;
    Ok(action)
}

/// What the line at fault is taken for. None where it is no action of a set, on which others rest.
fn right_line(
    alloc: Global,
    line: &[u8],
    number: usize,
    part: Part<'_>,
    is_bound: bool,
) -> Result<Option<Vec<u8>>, AllocError> {
    match part {
        Part::Set if is_action(line) => { Ok(Some(any_action(alloc, line, number, is_bound)?)) }
        Part::Script(_) => {
            let mut event = Vec::new(alloc);
            event.extend_from_slice(ANY_EVENT)?;
            Ok(Some(event))
        }
        Part::Set | Part::Asked(_) => Ok(None),
    }
}

/// The text in which the line at fault is right, with its next fault behind that line. None where
/// it has none, or nothing is known of it.
fn next_fault(
    alloc: Global,
    text: &[u8],
    part: Part<'_>,
    fault: TextFault,
) -> Result<Option<(Vec<u8>, TextFault)>, AllocError> {
    let Some(line) = line_at(text, fault.line) else {
        return Ok(None);
    };
    for is_bound in [true, false] {
        let Some(right) = right_line(alloc, line, fault.line, part, is_bound)? else {
            return Ok(None);
        };
        let changed = with_line(alloc, text, fault.line, right.as_slice())?;
        match fault_of(alloc, changed.as_slice(), part) {
            Some(next) if next.line > fault.line => return Ok(Some((changed, next))),
            Some(_) => {}
            None => return Ok(None),
        }
    }
    Ok(None)
}

/// A script whose first line is at fault is likely another file.
fn is_another_file(part: Part<'_>, first: TextFault) -> bool {
    matches!(part, Part::Script(_)) && first.line <= 1
}

/// What is known of a text behind its first fault.
#[derive(Drop)]
struct Reading {
    /// The text, with lines that are right in place of those at fault.
    text: Vec<u8>,
    last: TextFault,
    /// A line at fault may have been to bind a name that later lines lack.
    lacks_name: bool,
}

impl Reading {
    /// Goes on to the next fault: whether it is to be told. None where there is none.
    fn go_on(&mut self, alloc: Global, part: Part<'_>) -> Result<Option<bool>, AllocError> {
        if let Some(line) = line_at(self.text.as_slice(), self.last.line)
            && may_bind(line)
        {
            self.lacks_name = true;
        }
        let Some((text, next)) = next_fault(alloc, self.text.as_slice(), part, self.last)? else {
            return Ok(None);
        };
        self.text = text;
        self.last = next;
        Ok(Some(!self.lacks_name || next.kind != FaultKind::Unknown))
    }
}

/// The lines behind the one that tells the first fault of a text: those of that fault, and of up to
/// nine behind it, in the order of lines. What a faulty table, program or hop does to the lines
/// behind it isn't known: with such a one they end.
pub(crate) fn hints_of_all(
    alloc: Global,
    name: &str,
    text: &[u8],
    part: Part<'_>,
    first: TextFault,
) -> Result<String, AllocError> {
    let mut lines = hint(alloc, name, text, part, first)?;
    if is_another_file(part, first) {
        return Ok(lines);
    }
    let mut own = Vec::new(alloc);
    own.extend_from_slice(text)?;
    let mut reading = Reading {
        text: own,
        last: first,
        lacks_name: false,
    };
    for _ in 0..MAX_FURTHER {
        match reading.go_on(alloc, part)? {
            Some(true) => {
                let more = hint(alloc, name, text, part, reading.last)?;
                lines.push_str(more.as_str())?;
            }
            Some(false) => {}
            None => break,
        }
    }
    Ok(lines)
}
