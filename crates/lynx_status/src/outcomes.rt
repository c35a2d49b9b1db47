//! The lines of what begins and deliveries were answered.
ghost use Rattle.std.specs.Prelude.{◌≡◌, ◌++◌, OnOk};
ghost use Rattle.std.specs.String.{string_bytes};
ghost use Rattle.lynx_status.specs.Families.{begin_line, begins_lines, bool_text, deliveries_lines, delivery_line, kept_lines, served_lines, unable_lines, unfit_lines, untaken_lines};

use crate::begins::Begins;
use crate::deliveries::Deliveries;
use crate::figures::ServerFigures;
use lynx_names::ServerId;
use std::alloc::AllocError;
use std::fmt::Write as _;

fn bool_text(value: bool) -> &'static str
    ensures { result.now ≡ bool_text value }
{
    if value { "true" } else { "false" }
}

/// Adds the line of an answer to begins.
fn put_begin(
    text: &mut String,
    server: ServerId,
    answer: &str,
    again: bool,
    count: u64,
) -> Result<(), AllocError>
    ensures { OnOk result (string_bytes text.new
        ≡ string_bytes text.old ++ begin_line server answer.now again count) }
{
    let again = bool_text(again);
    write!(text, "lynx_begins_total{{server=\"{server}\",")?;
    write!(text, "answer=\"{answer}\",again=\"{again}\"}} {count}\n")?;
    Ok(())
}

/// Adds the lines of answers that come with an entry.
fn put_served(text: &mut String, server: ServerId, begins: &Begins) -> Result<(), AllocError>
    ensures { OnOk result (string_bytes text.new
        ≡ string_bytes text.old ++ served_lines server begins.now) }
{
    put_begin(text, server, "begun", false, begins.begun)?;
    put_begin(text, server, "begun", true, begins.begun_again)?;
    put_begin(text, server, "refused", false, begins.refused)?;
    put_begin(text, server, "refused", true, begins.refused_again)?;
    Ok(())
}

/// Adds the lines of answers that say that the request fits no program or record.
fn put_unfit(text: &mut String, server: ServerId, begins: &Begins) -> Result<(), AllocError>
    ensures { OnOk result (string_bytes text.new
        ≡ string_bytes text.old ++ unfit_lines server begins.now) }
{
    put_begin(text, server, "clash", false, begins.clash)?;
    put_begin(
        text,
        server,
        "unknown-program",
        false,
        begins.unknown_program,
    )?;
    put_begin(text, server, "wrong-origin", false, begins.wrong_origin)?;
    put_begin(text, server, "arg-count", false, begins.arg_count)?;
    put_begin(text, server, "outside-range", false, begins.outside_range)?;
    put_begin(text, server, "wrong-shard", false, begins.wrong_shard)?;
    Ok(())
}

/// Adds the lines of answers that say that the server can't now.
fn put_unable(text: &mut String, server: ServerId, begins: &Begins) -> Result<(), AllocError>
    ensures { OnOk result (string_bytes text.new
        ≡ string_bytes text.old ++ unable_lines server begins.now) }
{
    put_begin(text, server, "full", false, begins.full)?;
    put_begin(text, server, "busy", false, begins.busy)?;
    put_begin(text, server, "stopped", false, begins.stopped)?;
    put_begin(text, server, "memory", false, begins.memory)?;
    Ok(())
}

/// Adds the lines of what begins were answered.
pub(crate) fn put_begins(text: &mut String, server: &ServerFigures) -> Result<(), AllocError>
    ensures { OnOk result (string_bytes text.new
        ≡ string_bytes text.old ++ begins_lines server.now) }
{
    put_served(text, server.server, &server.begins)?;
    put_unfit(text, server.server, &server.begins)?;
    put_unable(text, server.server, &server.begins)?;
    Ok(())
}

/// Adds the line of a kind of answer to deliveries.
fn put_delivery(
    text: &mut String,
    server: ServerId,
    kind: &str,
    count: u64,
) -> Result<(), AllocError>
    ensures { OnOk result (string_bytes text.new
        ≡ string_bytes text.old ++ delivery_line server kind.now count) }
{
    write!(
        text,
        "lynx_deliveries_total{{server=\"{server}\",kind=\"{kind}\"}} {count}\n"
    )
}

/// Adds the lines of answers that say where the message is now.
fn put_kept(text: &mut String, server: ServerId, deliveries: &Deliveries) -> Result<(), AllocError>
    ensures { OnOk result (string_bytes text.new
        ≡ string_bytes text.old ++ kept_lines server deliveries.now) }
{
    put_delivery(text, server, "done", deliveries.done)?;
    put_delivery(text, server, "repeat", deliveries.repeat)?;
    put_delivery(text, server, "held", deliveries.held)?;
    put_delivery(text, server, "dropped", deliveries.dropped)?;
    Ok(())
}

/// Adds the lines of answers that say that the server can't take it.
fn put_untaken(
    text: &mut String,
    server: ServerId,
    deliveries: &Deliveries,
) -> Result<(), AllocError>
    ensures { OnOk result (string_bytes text.new
        ≡ string_bytes text.old ++ untaken_lines server deliveries.now) }
{
    put_delivery(text, server, "malformed", deliveries.malformed)?;
    put_delivery(text, server, "full", deliveries.full)?;
    put_delivery(text, server, "stopped", deliveries.stopped)?;
    put_delivery(text, server, "memory", deliveries.memory)?;
    Ok(())
}

/// Adds the lines of what deliveries were answered.
pub(crate) fn put_deliveries(text: &mut String, server: &ServerFigures) -> Result<(), AllocError>
    ensures { OnOk result (string_bytes text.new
        ≡ string_bytes text.old ++ deliveries_lines server.now) }
{
    put_kept(text, server.server, &server.deliveries)?;
    put_untaken(text, server.server, &server.deliveries)?;
    Ok(())
}
