//! The figures in Prometheus' text format 0.0.4: docs/FORMATS.md has the families.
ghost use Rattle.std.specs.Prelude.{◌≡◌, ◌++◌, IfOk, OnOk};
ghost use Rattle.std.specs.String.{string_bytes};
ghost use Rattle.lynx_status.specs.Metrics.{begins_text, build_text, commits_text, deliveries_text, gauges_text, hash_text, metrics_text, service_text};

use crate::copies::put_copies;
use crate::figures::{Figures, ServerFigures};
use crate::gauges::{Gauge, put_gauge, put_head, put_single};
use crate::outcomes::{put_begins, put_deliveries};
use crate::timing::put_commits;
use lynx_names::Memory;
use std::alloc::{AllocError, Global};
use std::fmt::Write as _;

/// Adds the families of single numbers of servers.
fn put_gauges(text: &mut String, servers: &[ServerFigures]) -> Result<(), AllocError>
    ensures { OnOk result (string_bytes text.new
        ≡ string_bytes text.old ++ gauges_text servers.now) }
{
    put_gauge(text, Gauge::Running, servers)?;
    put_gauge(text, Gauge::Entries, servers)?;
    put_gauge(text, Gauge::Room, servers)?;
    put_gauge(text, Gauge::Owed, servers)?;
    put_gauge(text, Gauge::Held, servers)?;
    put_gauge(text, Gauge::Clock, servers)?;
    Ok(())
}

/// Adds the family of begins.
fn put_begins_family(text: &mut String, servers: &[ServerFigures]) -> Result<(), AllocError>
    ensures { OnOk result (string_bytes text.new
        ≡ string_bytes text.old ++ begins_text servers.now) }
{
    let help = "Begins that the server answered, by answer.";
    put_head(text, "lynx_begins_total", "counter", help)?;
    for server in servers {
        put_begins(text, server)?;
    }
    Ok(())
}

/// Adds the family of deliveries.
fn put_deliveries_family(text: &mut String, servers: &[ServerFigures]) -> Result<(), AllocError>
    ensures { OnOk result (string_bytes text.new
        ≡ string_bytes text.old ++ deliveries_text servers.now) }
{
    let help = "Deliveries that the server answered, by kind.";
    put_head(text, "lynx_deliveries_total", "counter", help)?;
    for server in servers {
        put_deliveries(text, server)?;
    }
    Ok(())
}

/// Adds the family of commits.
fn put_commits_family(text: &mut String, servers: &[ServerFigures]) -> Result<(), AllocError>
    ensures { OnOk result (string_bytes text.new
        ≡ string_bytes text.old ++ commits_text servers.now) }
{
    let help = "Seconds that commits of the server's store took.";
    put_head(text, "lynx_commit_seconds", "histogram", help)?;
    for server in servers {
        put_commits(text, server)?;
    }
    Ok(())
}

/// Adds the families of the service's own numbers.
fn put_service(text: &mut String, figures: &Figures) -> Result<(), AllocError>
    ensures { OnOk result (string_bytes text.new
        ≡ string_bytes text.old ++ service_text figures.now) }
{
    let help = "Connections of clients that are open.";
    put_single(text, "lynx_connections", "gauge", help, figures.connections)?;
    let help = "Sessions that were made.";
    put_single(
        text,
        "lynx_sessions_total",
        "counter",
        help,
        figures.sessions,
    )?;
    let help = "Bytes of the answers that clients were told.";
    put_single(text, "lynx_told_bytes", "gauge", help, figures.told_bytes)?;
    let help = "Seconds since the service listens.";
    put_single(
        text,
        "lynx_uptime_seconds",
        "gauge",
        help,
        figures.uptime_seconds,
    )?;
    let help = "Lines of the log that were dropped, since nobody read those before them.";
    put_single(
        text,
        "lynx_log_dropped_total",
        "counter",
        help,
        figures.log_dropped,
    )?;
    Ok(())
}

/// Adds the sixteen digits of a hash.
fn put_hash(text: &mut String, hash: u64) -> Result<(), AllocError>
    ensures { OnOk result (string_bytes text.new ≡ string_bytes text.old ++ hash_text hash) }
{
    write!(text, "{hash:016x}")
}

/// Adds the family of the program and its set.
fn put_build(text: &mut String, hash: u64, version: &str) -> Result<(), AllocError>
    ensures { OnOk result (string_bytes text.new
        ≡ string_bytes text.old ++ build_text hash version.now) }
{
    let help = "The version of the program and the hash of its set; the value is 1.";
    put_head(text, "lynx_build_info", "gauge", help)?;
    write!(text, "lynx_build_info{{version=\"{version}\",set=\"")?;
    put_hash(text, hash)?;
    text.push_str("\"} 1\n")?;
    Ok(())
}

/// The figures of a service, for Prometheus. `hash` is that of its set's text
/// ([`set_hash`](crate::hashing::set_hash)). The version stands as it is: it has no quote, no
/// backslash and no LF.
pub fn metrics_text(
    alloc: Global,
    figures: &Figures,
    hash: u64,
    version: &str,
) -> Result<Vec<u8>, Memory>
    ensures { IfOk result (λ text. text.items ≡ metrics_text figures.now hash version.now) }
{
    let servers = figures.servers.as_slice();
    let mut text = String::new(alloc);
    put_gauges(&mut text, servers)?;
    put_begins_family(&mut text, servers)?;
    put_deliveries_family(&mut text, servers)?;
    put_commits_family(&mut text, servers)?;
    put_service(&mut text, figures)?;
    put_copies(&mut text, figures.copies.as_slice())?;
    put_build(&mut text, hash, version)?;
    Ok(text.into_bytes())
}
