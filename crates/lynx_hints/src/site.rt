//! The line at fault, its word at fault, and what stands before it.

ghost use Rattle.std.specs.Prelude.{◌≡◌, None};

use crate::before::Before;
use crate::hints::Part;
use crate::line::Line;
use crate::verb::{LineKind, Verb};
use crate::word::{Mark, Word, word_at};
use lynx_lex::{FaultKind, TextFault};
use std::alloc::{AllocError, Global};

/// Where a fault is.
#[derive(Drop)]
pub(crate) struct Site<'a> {
    pub fault: TextFault,
    pub text: &'a [u8],
    pub line: Line<'a>,
    /// The line behind it.
    pub after: Line<'a>,
    /// The first word, where it is one of such texts.
    pub verb: Option<Verb>,
    /// The word at fault, or the part of it that is; an empty one where it is no one word.
    pub word: Word<'a>,
    pub before: Before<'a>,
}

impl<'a> Site<'a> {
    pub fn new(
        alloc: Global,
        text: &'a [u8],
        part: Part<'a>,
        fault: TextFault,
    ) -> Result<Site<'a>, AllocError> {
        let (before, number) = match part {
            Part::Set => (Before::of_text(alloc, text, fault.line)?, fault.line),
            Part::Script(set) => (Before::of_set(alloc, set, LineKind::Script)?, fault.line),
            Part::Asked(set) => (Before::of_set(alloc, set, LineKind::Asked)?, 1),
        };
        let line = Line::new(alloc, text, number)?;
        let after = Line::new(alloc, text, number.saturating_add(1))?;
        let verb = Verb::among(before.kind, line.word(1).text);
        let word = match fault.word {
            0 => word_at(&[], 0),
            place => part_at_fault(verb, line.word(place), fault),
        };
        Ok(Site {
            fault,
            text,
            line,
            after,
            verb,
            word,
            before,
        })
    }

    /// The mark under the word at fault, and under those behind it where they are too many.
    pub fn mark(&self) -> Option<Mark>
        ensures { self.now.fault.word ≡ 0 → result ≡ None }
    {
        match (self.fault.word, self.fault.kind) {
            (0, _) => None,
            (_, FaultKind::LimitPassed) => Some(Mark::from(self.line.bytes, self.word.start)),
            _ => Some(self.word.mark()),
        }
    }
}

/// The part of the word that is at fault: one end of an interval, or the origin of a chain or its
/// index.
fn part_at_fault<'a>(verb: Option<Verb>, word: Word<'a>, fault: TextFault) -> Word<'a> {
    let parts = match (verb, fault.word) {
        (Some(Verb::Range), 3) => word.cut_at(b"..".as_slice()),
        (Some(verb), 2) if verb.has_chain() => word.cut_at(b":".as_slice()),
        _ => None,
    };
    match (parts, fault.kind) {
        (Some((first, _)), FaultKind::Unknown) => first,
        (Some((first, _)), FaultKind::BadNumber) if !first.spells_number() => first,
        (Some((_, second)), FaultKind::BadNumber) => second,
        _ => word,
    }
}
