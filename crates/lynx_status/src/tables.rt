//! The tables of the page.
use crate::figures::{Figures, ServerFigures};
use lynx_names::limits::MAX_ENTRIES;
use std::alloc::AllocError;
use std::fmt::Write as _;

/// What stands in a row of the table of servers.
#[derive(Clone, Copy)]
struct Row {
    entries: u64,
    room: u64,
    begun: u64,
    refused: u64,
    owed: u64,
    held: u64,
}

impl Row {
    /// The row of a server.
    fn of(server: &ServerFigures) -> Row {
        Row {
            entries: server.entries,
            room: MAX_ENTRIES.saturating_sub(server.entries),
            begun: server.begins.begun,
            refused: server.begins.refused,
            owed: server.owed,
            held: server.held,
        }
    }

    /// The sums of two rows, or the greatest number where they are greater.
    fn and(self, other: Row) -> Row {
        Row {
            entries: self.entries.saturating_add(other.entries),
            room: self.room.saturating_add(other.room),
            begun: self.begun.saturating_add(other.begun),
            refused: self.refused.saturating_add(other.refused),
            owed: self.owed.saturating_add(other.owed),
            held: self.held.saturating_add(other.held),
        }
    }

    /// Adds its cells.
    fn put(self, text: &mut String) -> Result<(), AllocError> {
        put_cell(text, "entries", self.entries)?;
        put_cell(text, "room", self.room)?;
        put_cell(text, "begun", self.begun)?;
        put_cell(text, "refused", self.refused)?;
        put_cell(text, "owed", self.owed)?;
        put_cell(text, "held", self.held)
    }
}

/// Adds a cell, with its name for narrow pages.
fn put_cell(text: &mut String, name: &str, figure: u64) -> Result<(), AllocError> {
    write!(text, "<td data-name=\"{name}\">{figure}</td>")
}

/// Adds the row of a server.
fn put_server(text: &mut String, server: &ServerFigures) -> Result<(), AllocError> {
    let number = server.server;
    let state = if server.is_running { "runs" } else { "stopped" };
    write!(text, "<tr><td data-name=\"server\">{number}</td>")?;
    write!(
        text,
        "<td data-name=\"state\" class=\"{state}\">{state}</td>"
    )?;
    Row::of(server).put(text)?;
    put_cell(text, "clock", server.clock.time())?;
    text.push_str("</tr>\n")
}

/// Adds the table of servers, with their sums below it.
pub(crate) fn put_servers(text: &mut String, servers: &[ServerFigures]) -> Result<(), AllocError> {
    text.push_str("<table class=\"servers\">\n<thead><tr><th>server<th>state<th>entries")?;
    text.push_str("<th>room<th>begun<th>refused<th>owed<th>held<th>clock</tr></thead>\n<tbody>\n")?;
    let mut sums = Row {
        entries: 0,
        room: 0,
        begun: 0,
        refused: 0,
        owed: 0,
        held: 0,
    };
    for server in servers {
        put_server(text, server)?;
        sums = sums.and(Row::of(server));
    }
    text.push_str("</tbody>\n<tfoot><tr><td data-name=\"server\">all</td><td></td>")?;
    sums.put(text)?;
    text.push_str("<td></td></tr></tfoot>\n</table>\n")
}

/// Adds seconds as days, hours, minutes and seconds.
fn put_duration(text: &mut String, seconds: u64) -> Result<(), AllocError> {
    let days = seconds / 86_400;
    if days > 0 {
        write!(text, "{days} d ")?;
    }
    let (hours, minutes, rest) = (seconds / 3_600 % 24, seconds / 60 % 60, seconds % 60);
    write!(text, "{hours}:{minutes:02}:{rest:02}")
}

/// Adds the figures of the service.
pub(crate) fn put_totals(text: &mut String, figures: &Figures) -> Result<(), AllocError> {
    let (connections, sessions) = (figures.connections, figures.sessions);
    let told_bytes = figures.told_bytes;
    text.push_str("<dl class=\"totals\">\n<div><dt>up</dt><dd>")?;
    put_duration(text, figures.uptime_seconds)?;
    write!(
        text,
        "</dd></div>\n<div><dt>connections</dt><dd>{connections}</dd></div>\n"
    )?;
    write!(text, "<div><dt>sessions</dt><dd>{sessions}</dd></div>\n")?;
    write!(
        text,
        "<div><dt>bytes of what was told</dt><dd>{told_bytes}</dd></div>\n</dl>\n"
    )
}
