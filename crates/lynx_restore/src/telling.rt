//! How much was restored, by lines.
ghost use Rattle.std.specs.Prelude.{◌≡◌, ◌++◌, IfOk, OnOk};
ghost use Rattle.std.specs.String.{string_bytes};
ghost use Rattle.lynx_restore.specs.Lines.{restored_line, restored_lines};

use crate::restored::RestoredServer;
use lynx_names::Memory;
use std::alloc::{AllocError, Global};
use std::fmt::Write as _;

/// The line of a server.
fn restored_line(alloc: Global, restored: &RestoredServer) -> Result<String, AllocError>
    ensures { IfOk result (λ text. string_bytes text ≡ restored_line restored.now) }
{
    let (server, taken, of) = (restored.server, restored.taken, restored.of);
    let mut text = String::new(alloc);
    write!(text, "restored {server}")?;
    write!(text, " {taken}")?;
    write!(text, " of {of}")?;
    text.push_str("\n")?;
    Ok(text)
}

/// Adds the line of a server.
fn put_restored(alloc: Global, text: &mut Vec<u8>, restored: &RestoredServer) -> Result<(), Memory>
    ensures { OnOk result (text.new.items ≡ text.old.items ++ restored_line restored.now) }
{
    let line = restored_line(alloc, restored)?;
    text.extend_from_slice(line.as_bytes())?;
    Ok(())
}

/// A line `restored N ENTRIES of ENTRIES` for each server: how many entries its new store has, and
/// how many its copy has.
pub fn restored_lines(alloc: Global, restored: &[RestoredServer]) -> Result<Vec<u8>, Memory>
    ensures { IfOk result (λ text. text.items ≡ restored_lines restored.now) }
{
    let mut text = Vec::new(alloc);
    for server in restored {
        put_restored(alloc, &mut text, server)?;
    }
    Ok(text)
}
