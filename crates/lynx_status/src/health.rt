//! Whether all servers run, and the stores that follow them are there.
ghost use Rattle.std.specs.Prelude.{◌≡◌, ◌++◌, IfOk, OnOk};
ghost use Rattle.std.specs.String.{string_bytes};
ghost use Rattle.lynx_status.specs.Health.{gone_lines, health_text, stopped_lines};

use crate::copies::CopyFigures;
use crate::figures::{Figures, ServerFigures};
use lynx_names::Memory;
use std::alloc::{AllocError, Global};
use std::fmt::Write as _;

/// Adds a line for each server that is stopped.
fn put_stopped(text: &mut String, servers: &[ServerFigures]) -> Result<(), AllocError>
    ensures { OnOk result (string_bytes text.new
        ≡ string_bytes text.old ++ stopped_lines servers.now) }
{
    for server in servers {
        if !server.is_running {
            let number = server.server;
            write!(text, "server {number} stopped\n")?;
        }
    }
    Ok(())
}

/// Adds a line for each store that follows a server and is gone.
fn put_gone(text: &mut String, copies: &[CopyFigures]) -> Result<(), AllocError>
    ensures { OnOk result (string_bytes text.new ≡ string_bytes text.old ++ gone_lines copies.now) }
{
    for copy in copies {
        if !copy.is_there {
            let number = copy.server;
            write!(text, "copy {number} gone\n")?;
        }
    }
    Ok(())
}

/// `ok` where all servers run and each store that follows one is there, else a line for each that
/// is stopped or gone.
pub fn health_text(alloc: Global, figures: &Figures) -> Result<Vec<u8>, Memory>
    ensures { IfOk result (λ text. text.items
        ≡ health_text figures.now.servers.items figures.now.copies.items) }
{
    let mut text = String::new(alloc);
    if figures.is_well() {
        text.push_str("ok\n")?;
    } else {
        put_stopped(&mut text, figures.servers.as_slice())?;
        put_gone(&mut text, figures.copies.as_slice())?;
    }
    Ok(text.into_bytes())
}
