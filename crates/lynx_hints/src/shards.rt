//! Shards that don't go on where the ones before them ended, and keys that are elsewhere.

use crate::flaw::{Flaw, flaw_of};
use crate::names::put_no_server;
use crate::near::is_near;
use crate::site::Site;
use crate::word::Written;
use lynx_names::limits::MAX_SHARDS;
use lynx_shards::ShardFault;
use std::alloc::AllocError;
use std::fmt::Write;

/// Writes what is wrong with a shard, or with the last one of a table.
pub(crate) fn put_shard_fault(out: &mut String, site: &Site<'_>, fault: ShardFault) -> Written {
    match (fault, site.fault.word) {
        (ShardFault::BadServer, _) => put_no_server(out, site.word, site.before.servers),
        (ShardFault::Gap, 0) => put_no_shards(out, site),
        (ShardFault::Gap, 3) => put_last(out, site),
        (ShardFault::Gap, _) => put_beginning(out, site),
        (ShardFault::Overlap, word) => {
            if word == 3 {
                write!(out, "  {} is below {}: ", site.word, site.line.word(2))?;
            } else {
                put_beginning(out, site)?;
                out.push_str("  ")?;
            }
            out.push_str("a shard goes from its least key to its greatest, both its own\n")
        }
        (ShardFault::Memory, _) => Ok(()),
    }
}

/// Writes where a shard has to begin.
fn put_beginning(out: &mut String, site: &Site<'_>) -> Written {
    let Some(high) = site.before.last_high() else {
        return out.push_str("  the first shard of a table begins at 0\n");
    };
    write!(out, "  the shard before ends at {high}, ")?;
    match high.checked_add(1) {
        Some(low) => writeln!(out, "so this one begins at {low}"),
        None => out.push_str("the greatest key: none can follow\n"),
    }
}

/// Writes that the last shard of a table doesn't reach the greatest key.
fn put_last(out: &mut String, site: &Site<'_>) -> Written {
    out.push_str("  the last shard of a table ends at 18446744073709551615")?;
    writeln!(out, ", and this one at {}", site.word)?;
    out.push_str("  end it there")?;
    match site.word.number().checked_add(1) {
        Some(next) if site.before.shards_of_last() < MAX_SHARDS - 1 => {
            writeln!(out, ", or go on with a line: shard {next} HI SERVER")?;
        }
        _ => out.push_str("\n")?,
    }
    put_slip(out, site)?;
    Ok(())
}

/// Writes that a table has no shards, and what stands in their place.
fn put_no_shards(out: &mut String, site: &Site<'_>) -> Written {
    write!(out, "  the table {} has no shards", site.line.word(2))?;
    out.push_str(": shard 0 HI SERVER has to follow this line\n")?;
    if site.after.is_past_the_end() {
        return out.push_str("  the text ends there\n");
    }
    if put_slip(out, site)? {
        return Ok(());
    }
    writeln!(out, "  the next line begins with {}", site.after.word(1))
}

/// Writes by which slip the next line may be none of a shard, and says whether there is one.
fn put_slip(out: &mut String, site: &Site<'_>) -> Result<bool, AllocError> {
    let first = site.after.word(1);
    let slip = match flaw_of(&site.after) {
        _ if site.after.is_past_the_end() => return Ok(false),
        Some((Flaw::Comment, _)) => "is a comment: a text has none",
        Some((Flaw::Blank, _)) => "is blank",
        Some((Flaw::SpaceFirst, _)) => "begins with a space",
        _ if is_near(first.text, b"shard".as_slice()) => {
            write!(out, "  the next line begins with {first}")?;
            out.push_str("; did you mean shard?\n")?;
            return Ok(true);
        }
        _ => return Ok(false),
    };
    writeln!(out, "  the next line {slip}")?;
    Ok(true)
}

/// Writes at which server a literal key is.
pub(crate) fn put_elsewhere(out: &mut String, site: &Site<'_>) -> Written {
    let key = site.word;
    let table = site.line.word(site.fault.word.saturating_sub(1));
    if let Some(keeper) = site.before.keeper_of(table.text, key.number()) {
        write!(out, "  key {key} of {table} is at server {keeper}, ")?;
        writeln!(out, "and this hop is at server {}", site.before.hop.word)?;
    }
    out.push_str("  a hop names only cells of its own server\n")
}
