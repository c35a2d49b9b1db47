//! The folder that follows a service, as far as it is told and commanded over HTTP.
ghost use Rattle.std.specs.Prelude.{◌≡◌, ◌++◌, OnOk};
ghost use Rattle.std.specs.String.{string_bytes};
ghost use Rattle.lynx_status.specs.Copies.{behind_line, behind_text, copies_text, figure_line, follows_line, follows_text};

use crate::gauges::put_head;
use lynx_names::ServerId;
use std::alloc::AllocError;
use std::fmt::Write as _;

/// How far the store is that follows a server.
#[derive(Clone, Copy, Debug, PartialEq, Eq)]
pub struct CopyFigures {
    pub server: ServerId,
    /// Whether it follows: it is neither closed nor has it failed.
    pub follows: bool,
    /// Entries of the server that it doesn't have yet.
    pub behind: u64,
    /// Whether its file is there: its folder wasn't removed, moved or replaced.
    pub is_there: bool,
}

/// What is to be done with the folder that follows.
#[derive(Clone, Copy, Debug, PartialEq, Eq)]
pub enum CopyCommand {
    /// Its stores are to be closed, so that they can be copied as files.
    Pause,
    /// They are to be opened, and to follow on.
    Resume,
}

/// What came of it.
#[derive(Clone, Copy, Debug, PartialEq, Eq)]
pub enum CopyDone {
    /// It is done; or, where the stores are to be opened, it will be.
    Done,
    /// Not yet: the stores are to be closed, and are not closed so far.
    Late,
    /// No folder follows.
    NoCopy,
}

/// Adds the line of one number of a server.
#[tactic(auto, unfolding(crate::specs::Copies::figure_line))]
fn put_figure(
    text: &mut String,
    name: &str,
    server: ServerId,
    figure: u64,
) -> Result<(), AllocError>
    ensures { OnOk result (string_bytes text.new
        ≡ string_bytes text.old ++ figure_line name.now server figure) }
{
    write!(text, "{name}{{server=\"{server}\"}} {figure}\n")
}

/// Adds the line that tells whether the store follows.
fn put_follow(text: &mut String, copy: &CopyFigures) -> Result<(), AllocError>
    ensures { OnOk result (string_bytes text.new
        ≡ string_bytes text.old ++ follows_line copy.now) }
{
    let follows = u64::from(copy.follows);
    put_figure(text, "lynx_copy_follows", copy.server, follows)
}

/// Adds the line that tells how far the store is behind.
fn put_lag(text: &mut String, copy: &CopyFigures) -> Result<(), AllocError>
    ensures { OnOk result (string_bytes text.new
        ≡ string_bytes text.old ++ behind_line copy.now) }
{
    put_figure(text, "lynx_copy_behind_entries", copy.server, copy.behind)
}

/// Adds the family that tells which stores follow.
fn put_follows(text: &mut String, copies: &[CopyFigures]) -> Result<(), AllocError>
    ensures { OnOk result (string_bytes text.new
        ≡ string_bytes text.old ++ follows_text copies.now) }
{
    let help = "Whether the store that follows the server does (1), or is closed or failed (0).";
    put_head(text, "lynx_copy_follows", "gauge", help)?;
    for copy in copies {
        put_follow(text, copy)?;
    }
    Ok(())
}

/// Adds the family that tells how far all are behind.
fn put_behind(text: &mut String, copies: &[CopyFigures]) -> Result<(), AllocError>
    ensures { OnOk result (string_bytes text.new
        ≡ string_bytes text.old ++ behind_text copies.now) }
{
    let help = "Entries of the server that the store which follows it doesn't have yet.";
    put_head(text, "lynx_copy_behind_entries", "gauge", help)?;
    for copy in copies {
        put_lag(text, copy)?;
    }
    Ok(())
}

/// Adds the two families of stores that follow, nothing where there are none.
pub(crate) fn put_copies(text: &mut String, copies: &[CopyFigures]) -> Result<(), AllocError>
    ensures { OnOk result (string_bytes text.new
        ≡ string_bytes text.old ++ copies_text copies.now) }
{
    if copies.is_empty() {
        return Ok(());
    }
    put_follows(text, copies)?;
    put_behind(text, copies)
}
