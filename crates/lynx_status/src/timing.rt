//! The lines of how long commits took.
ghost use Rattle.std.specs.Prelude.{◌≡◌, ◌≤◌, ◌++◌, length, sum, OnOk};
ghost use Rattle.std.specs.String.{string_bytes};
ghost use Rattle.lynx_status.specs.Histograms.{bucket_line, commits_lines, count_line, long_lines, middle_lines, seconds_text, short_lines, sum_line, times_lines};

use crate::commits::{BUCKETS, CommitTimes};
use crate::figures::ServerFigures;
use lynx_names::ServerId;
use std::alloc::AllocError;
use std::fmt::Write as _;

/// How many commits are counted there.
fn total(counts: &[u64]) -> u128
    requires { length counts.now ≤ BUCKETS }
    ensures { result ≡ sum counts.now }
{
    let mut total = 0u128;
    for count in counts {
        total += u128::from(*count);
    }
    total
}

/// Adds the line of a limit: how many commits took as long at most.
fn put_bucket(
    text: &mut String,
    server: ServerId,
    limit: &str,
    counts: &[u64],
) -> Result<(), AllocError>
    requires { length counts.now ≤ BUCKETS }
    ensures { OnOk result (string_bytes text.new
        ≡ string_bytes text.old ++ bucket_line server limit.now (sum counts.now)) }
{
    let count = total(counts);
    write!(
        text,
        "lynx_commit_seconds_bucket{{server=\"{server}\",le=\"{limit}\"}} {count}\n"
    )?;
    Ok(())
}

/// Adds the lines of the limits below 0.01 seconds.
fn put_short(text: &mut String, server: ServerId, counts: &[u64; BUCKETS]) -> Result<(), AllocError>
    ensures { OnOk result (string_bytes text.new
        ≡ string_bytes text.old ++ short_lines server counts.now) }
{
    put_bucket(text, server, "0.0001", &counts[..1])?;
    put_bucket(text, server, "0.0005", &counts[..2])?;
    put_bucket(text, server, "0.001", &counts[..3])?;
    put_bucket(text, server, "0.005", &counts[..4])?;
    Ok(())
}

/// .. from there up to 0.5 seconds.
fn put_middle(
    text: &mut String,
    server: ServerId,
    counts: &[u64; BUCKETS],
) -> Result<(), AllocError>
    ensures { OnOk result (string_bytes text.new
        ≡ string_bytes text.old ++ middle_lines server counts.now) }
{
    put_bucket(text, server, "0.01", &counts[..5])?;
    put_bucket(text, server, "0.05", &counts[..6])?;
    put_bucket(text, server, "0.1", &counts[..7])?;
    put_bucket(text, server, "0.5", &counts[..8])?;
    Ok(())
}

/// .. and above.
fn put_long(text: &mut String, server: ServerId, counts: &[u64; BUCKETS]) -> Result<(), AllocError>
    ensures { OnOk result (string_bytes text.new
        ≡ string_bytes text.old ++ long_lines server counts.now) }
{
    put_bucket(text, server, "1", &counts[..9])?;
    put_bucket(text, server, "5", &counts[..10])?;
    put_bucket(text, server, "+Inf", counts)?;
    Ok(())
}

/// Adds microseconds as seconds with six decimals.
fn put_seconds(text: &mut String, micros: u64) -> Result<(), AllocError>
    ensures { OnOk result (string_bytes text.new ≡ string_bytes text.old ++ seconds_text micros) }
{
    let (seconds, rest) = (micros / 1_000_000, micros % 1_000_000);
    write!(text, "{seconds}.{rest:06}")
}

/// Adds the line of how long all commits took.
fn put_sum(text: &mut String, server: ServerId, micros: u64) -> Result<(), AllocError>
    ensures { OnOk result (string_bytes text.new
        ≡ string_bytes text.old ++ sum_line server micros) }
{
    write!(text, "lynx_commit_seconds_sum{{server=\"{server}\"}} ")?;
    put_seconds(text, micros)?;
    text.push_str("\n")?;
    Ok(())
}

/// Adds the line of how many they are.
fn put_count(text: &mut String, server: ServerId, counts: &[u64; BUCKETS]) -> Result<(), AllocError>
    ensures { OnOk result (string_bytes text.new
        ≡ string_bytes text.old ++ count_line server (sum counts.now)) }
{
    let count = total(counts);
    write!(
        text,
        "lynx_commit_seconds_count{{server=\"{server}\"}} {count}\n"
    )?;
    Ok(())
}

/// Adds the histogram of these commits.
fn put_times(text: &mut String, server: ServerId, times: &CommitTimes) -> Result<(), AllocError>
    ensures { OnOk result (string_bytes text.new
        ≡ string_bytes text.old ++ times_lines server times.now) }
{
    put_short(text, server, &times.counts)?;
    put_middle(text, server, &times.counts)?;
    put_long(text, server, &times.counts)?;
    put_sum(text, server, times.sum_micros)?;
    put_count(text, server, &times.counts)?;
    Ok(())
}

/// Adds the lines of how long a server's commits took.
pub(crate) fn put_commits(text: &mut String, server: &ServerFigures) -> Result<(), AllocError>
    ensures { OnOk result (string_bytes text.new
        ≡ string_bytes text.old ++ commits_lines server.now) }
{
    put_times(text, server.server, &server.commits)?;
    Ok(())
}
