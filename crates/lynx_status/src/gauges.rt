//! The figures of a server that are one number each.
ghost use Rattle.std.specs.Prelude.{◌≡◌, ◌++◌, OnOk};
ghost use Rattle.std.specs.String.{string_bytes};
ghost use Rattle.lynx_status.specs.Families.{gauge_help, gauge_line, gauge_name, gauge_of, gauge_text, head, single};

use crate::figures::ServerFigures;
use lynx_names::limits::MAX_ENTRIES;
use std::alloc::AllocError;
use std::fmt::Write as _;

/// A figure of a server.
#[derive(Clone, Copy)]
pub(crate) enum Gauge {
    Running,
    Entries,
    Room,
    Owed,
    Held,
    Clock,
}

impl Gauge {
    /// The name of its family.
    fn name(self) -> &'static str
        ensures { result.now ≡ gauge_name self }
    {
        match self {
            Gauge::Running => "lynx_server_running",
            Gauge::Entries => "lynx_entries",
            Gauge::Room => "lynx_room_entries",
            Gauge::Owed => "lynx_owed_hops",
            Gauge::Held => "lynx_held_messages",
            Gauge::Clock => "lynx_clock_stamp",
        }
    }

    /// What it is.
    fn help(self) -> &'static str
        ensures { result.now ≡ gauge_help self }
    {
        match self {
            Gauge::Running => "Whether the server runs (1) or is stopped (0).",
            Gauge::Entries => "Entries of the server's history.",
            Gauge::Room => "Entries that the server's history may still get.",
            Gauge::Owed => "Hops of begun chains that are owed to the server.",
            Gauge::Held => "Messages that the server holds until it is their turn.",
            Gauge::Clock => "The stamp of the server's last entry.",
        }
    }

    /// What it is at a server.
    fn of(self, server: &ServerFigures) -> u64
        ensures { result ≡ gauge_of self server.now }
    {
        match self {
            Gauge::Running => u64::from(server.is_running),
            Gauge::Entries => server.entries,
            Gauge::Room => MAX_ENTRIES.saturating_sub(server.entries),
            Gauge::Owed => server.owed,
            Gauge::Held => server.held,
            Gauge::Clock => server.clock.time(),
        }
    }
}

/// Adds what stands before the lines of a family.
pub(crate) fn put_head(
    text: &mut String,
    name: &str,
    kind: &str,
    help: &str,
) -> Result<(), AllocError>
    ensures { OnOk result (string_bytes text.new
        ≡ string_bytes text.old ++ head name.now kind.now help.now) }
{
    write!(text, "# HELP {name} {help}\n# TYPE {name} {kind}\n")
}

/// Adds a family of one number.
#[tactic(auto, unfolding(crate::specs::Families::single))]
pub(crate) fn put_single(
    text: &mut String,
    name: &str,
    kind: &str,
    help: &str,
    figure: u64,
) -> Result<(), AllocError>
    ensures { OnOk result (string_bytes text.new
        ≡ string_bytes text.old ++ single name.now kind.now help.now figure) }
{
    put_head(text, name, kind, help)?;
    write!(text, "{name} {figure}\n")
}

/// Adds the line of a server.
#[tactic(auto, unfolding(crate::specs::Families::gauge_line))]
fn put_line(text: &mut String, gauge: Gauge, server: &ServerFigures) -> Result<(), AllocError>
    ensures { OnOk result (string_bytes text.new
        ≡ string_bytes text.old ++ gauge_line gauge server.now) }
{
    let (name, number, figure) = (gauge.name(), server.server, gauge.of(server));
    write!(text, "{name}{{server=\"{number}\"}} {figure}\n")
}

/// Adds the family, with a line for each server.
pub(crate) fn put_gauge(
    text: &mut String,
    gauge: Gauge,
    servers: &[ServerFigures],
) -> Result<(), AllocError>
    ensures { OnOk result (string_bytes text.new
        ≡ string_bytes text.old ++ gauge_text gauge servers.now) }
{
    put_head(text, gauge.name(), "gauge", gauge.help())?;
    for server in servers {
        put_line(text, gauge, server)?;
    }
    Ok(())
}
