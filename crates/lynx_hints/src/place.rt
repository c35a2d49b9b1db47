//! Which lines of a set can stand behind which.

use crate::before::Before;
use crate::verb::{LINES, LineKind, Verb};
use crate::word::Written;
use lynx_names::limits::{MAX_ACTIONS, MAX_HOPS, MAX_PROGRAMS, MAX_SHARDS, MAX_TABLES};

/// Whether a line of the verb can stand behind these, limits apart.
pub(crate) fn fits(before: &Before<'_>, verb: Verb) -> bool {
    match before.last_verb {
        _ if before.kind != LineKind::Set => verb.kind() == before.kind,
        None => verb == Verb::Servers,
        Some(Verb::Servers) => verb == Verb::Table || verb == Verb::Program,
        Some(Verb::Table) => verb == Verb::Shard,
        Some(Verb::Shard) => {
            verb == Verb::Shard
                || is_whole(before) && (verb == Verb::Table || verb == Verb::Program)
        }
        Some(Verb::Program | Verb::Range) => {
            verb == Verb::Hop || verb == Verb::Range && before.is_second
        }
        Some(Verb::Hop) => is_action(before, verb),
        Some(Verb::End) => verb == Verb::Program,
        Some(_) => is_action(before, verb) || verb == Verb::Hop || verb == Verb::End,
    }
}

/// Whether the verb is an action's in the version of the text.
fn is_action(before: &Before<'_>, verb: Verb) -> bool {
    verb.is_action() && (verb != Verb::Max || before.is_second)
}

/// Whether the shards of the table that was declared last cover all keys.
fn is_whole(before: &Before<'_>) -> bool {
    before.last_high() == Some(u64::MAX)
}

/// Whether the set may end behind these lines.
fn may_end(before: &Before<'_>) -> bool {
    match before.last_verb {
        Some(Verb::Servers | Verb::End) => true,
        _ => before.kind == LineKind::Script || is_whole(before),
    }
}

/// Whether the limits leave room for one more line of the verb.
fn has_room(before: &Before<'_>, verb: Verb) -> bool {
    match verb {
        Verb::Servers | Verb::End => true,
        _ if verb.kind() != LineKind::Set => true,
        Verb::Table => before.tables.len() < usize::from(MAX_TABLES),
        Verb::Shard => before.shards_of_last() < MAX_SHARDS && !is_whole(before),
        Verb::Program => before.programs.len() < usize::from(MAX_PROGRAMS),
        Verb::Range => match (before.parameters.as_slice().last(), before.last_range) {
            (Some(last), Some(ranged)) => last.word.text != ranged.text,
            (last, _) => last.is_some(),
        },
        Verb::Hop => before.hops < MAX_HOPS,
        _ => { before.actions < MAX_ACTIONS && (verb != Verb::Need || before.hops < 2) }
    }
}

/// Writes which lines can stand behind these.
pub(crate) fn put_fitting(out: &mut String, before: &Before<'_>) -> Written {
    out.push_str("  what can stand here: ")?;
    let mut told = 0usize;
    for (verb, _, _) in LINES {
        if fits(before, verb) && has_room(before, verb) {
            out.push_str(if told > 0 { ", " } else { "" })?;
            out.push_str(verb.spelled())?;
            told = told.saturating_add(1);
        }
    }
    if may_end(before) {
        out.push_str(if told > 0 { ", or " } else { "" })?;
        out.push_str("the end of the text")?;
    }
    out.push_str("\n")
}
