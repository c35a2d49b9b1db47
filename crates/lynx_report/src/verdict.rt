//! The verdict on a set, as it is printed: docs/FORMATS.md has the lines.
ghost use Rattle.std.specs.Prelude.{◌≡◌, ◌⊎◌, ℕ, List, [], ◌++◌, OnErr, OnOk, IfOk, IfErr, codes, take};
ghost use Rattle.std.specs.List.{flat_map};
ghost use Rattle.std.specs.Io.KnownBytes.{Appends, Keeps};
ghost use Rattle.lynx_check.specs.Reasons.{reason_of};
ghost use Rattle.lynx_check.specs.Verdicts.{Judges};
ghost use Rattle.lynx_graph.specs.Walks.{IsOffending};
ghost use Rattle.lynx_set.specs.Rules.{IsSet};
ghost use Rattle.lynx_lex.specs.Lines.{with_feed};
ghost use Rattle.lynx_report.specs.Runs.{IsLate};
ghost use Rattle.lynx_report.specs.Checks.{accepted_line, AreBehind, AreReasons, BeginsFinding, BeginsVerdict, edge_line, edge_lines, finding_of, Finds, IsVerdictWith, NoVerdictFor, verdict_lines};
ghost use Rattle.lynx_report.specs.Written.{AppendsPart};

use crate::options::{CheckOptions, Why};
use crate::run::{RunFault, read_set};
use crate::writing::write_bytes;
use lynx_check::{AcceptedSet, Reason, Verdict, check};
use lynx_graph::Visit;
use lynx_lines::conflict_line;
use lynx_names::Memory;
use lynx_reasons::{summary, walk_edges, why};
use lynx_set::ChainSet;
use std::alloc::{AllocError, Global};
use std::io::Write;

/// What was found of a set.
#[derive(Clone, Copy, Debug, PartialEq, Eq)]
pub enum Finding {
    Accepted(Reason),
    Offending,
}

/// Judges a set text, and writes `accepted` where no closed walk offends, `accepted by blocks`
/// where no walk of blocks does, else `offending` and a line for each conflict edge of a closed
/// walk that offends; and behind that what the options ask for. `RunFault::Script` is never its
/// fault.
pub fn check_text<W: Write>(
    alloc: Global,
    set: &[u8],
    options: CheckOptions,
    writer: &mut W,
) -> Result<Finding, RunFault>
    ensures ok { IfOk result
        (λ finding. (printed : List ℕ) × Finds options.why set.now finding printed
        × Appends (W.contents writer.old) (W.contents writer.new) printed) }
    ensures part { OnErr result (BeginsFinding options.why set.now (W.contents writer.old)
        (W.contents writer.new)) }
    ensures err { IfErr result (λ fault. NoVerdictFor set.now (Keeps (W.contents writer.old)
        (W.contents writer.new)) fault) }
{
    let set = read_set(alloc, set)?;
    check_set(alloc, &set, options, writer)
}

/// Judges a set, and writes its verdict with what is asked for behind it.
fn check_set<W: Write>(
    alloc: Global,
    set: &ChainSet,
    options: CheckOptions,
    writer: &mut W,
) -> Result<Finding, RunFault>
    requires { IsSet set.now }
    ensures ok { IfOk result (λ finding. (printed : List ℕ)
        × IsVerdictWith options.why set.now finding printed
        × Appends (W.contents writer.old) (W.contents writer.new) printed) }
    ensures part { OnErr result (BeginsVerdict options.why set.now (W.contents writer.old)
        (W.contents writer.new)) }
    ensures late { IfErr result IsLate }
{
    let verdict = check(alloc, set)?;
    let lines = lines_behind(alloc, set, &verdict, options)?;
    write_verdict(alloc, set, &verdict, writer)?;
    write_bytes(writer, lines.as_slice())?;
    Ok(finding_of(&verdict))
}

/// What is asked for behind a verdict.
fn lines_behind(
    alloc: Global,
    set: &ChainSet,
    verdict: &Verdict,
    options: CheckOptions,
) -> Result<Vec<u8>, Memory>
    requires text { IsSet set.now }
    requires judged { Judges set.now verdict.now }
    ensures { IfOk result (λ lines. AreBehind options.why set.now verdict.now lines.items) }
{
    match options.why {
        Why::Untold => Ok(Vec::new(alloc)),
        Why::Summary => summary(alloc, set, verdict),
        Why::All => reasons_of(alloc, set, verdict),
    }
}

/// The summary of a verdict, and all that it rests on.
fn reasons_of(alloc: Global, set: &ChainSet, verdict: &Verdict) -> Result<Vec<u8>, Memory>
    requires text { IsSet set.now }
    requires judged { Judges set.now verdict.now }
    ensures { IfOk result (λ lines. AreReasons set.now verdict.now lines.items) }
{
    let mut lines = summary(alloc, set, verdict)?;
    let reasons = why(alloc, set, verdict)?;
    lines.extend_from_slice(reasons.as_slice())?;
    Ok(lines)
}

/// What a verdict finds.
fn finding_of(verdict: &Verdict) -> Finding
    ensures { result ≡ finding_of verdict.now }
{
    match verdict {
        Verdict::Accepted(accepted) => Finding::Accepted(accepted.reason()),
        Verdict::Offending(_, _) => Finding::Offending,
    }
}

/// Writes the verdict on a set.
fn write_verdict<W: Write>(
    alloc: Global,
    set: &ChainSet,
    verdict: &Verdict,
    writer: &mut W,
) -> Result<(), RunFault>
    ensures lines { OnOk result (Appends (W.contents writer.old) (W.contents writer.new)
        (verdict_lines set.now verdict.now)) }
    ensures part { OnErr result (AppendsPart (W.contents writer.old) (W.contents writer.new)
        (verdict_lines set.now verdict.now)) }
    ensures late { IfErr result IsLate }
{
    match verdict {
        Verdict::Accepted(accepted) => write_accepted(accepted, writer),
        Verdict::Offending(walk, _) => write_offending(alloc, set, walk.as_slice(), writer),
    }
}

/// Writes that a set is accepted, and by blocks where that is why.
fn write_accepted<W: Write>(accepted: &AcceptedSet, writer: &mut W) -> Result<(), RunFault>
    ensures line { OnOk result (Appends (W.contents writer.old) (W.contents writer.new)
        (accepted_line (reason_of accepted.now.excused))) }
    ensures part { OnErr result (AppendsPart (W.contents writer.old) (W.contents writer.new)
        (accepted_line (reason_of accepted.now.excused))) }
    ensures late { IfErr result IsLate }
{
    match accepted.reason() {
        Reason::Walks => write_bytes(writer, b"accepted\n"),
        Reason::Blocks => write_bytes(writer, b"accepted by blocks\n"),
    }
}

/// Writes that a set offends, and the conflict edges of the walk.
pub(crate) fn write_offending<W: Write>(
    alloc: Global,
    set: &ChainSet,
    walk: &[Visit],
    writer: &mut W,
) -> Result<(), RunFault>
    ensures lines { OnOk result (Appends (W.contents writer.old) (W.contents writer.new)
        (with_feed (codes "offending") ++ edge_lines set.now walk.now)) }
    ensures part { OnErr result (AppendsPart (W.contents writer.old) (W.contents writer.new)
        (with_feed (codes "offending") ++ edge_lines set.now walk.now)) }
    ensures late { IfErr result IsLate }
{
    write_bytes(writer, b"offending\n")?;
    write_walk(alloc, set, walk, writer)
}

/// Writes a line for each conflict edge of a walk.
fn write_walk<W: Write>(
    alloc: Global,
    set: &ChainSet,
    walk: &[Visit],
    writer: &mut W,
) -> Result<(), RunFault>
    ensures lines { OnOk result (Appends (W.contents writer.old) (W.contents writer.new)
        (edge_lines set.now walk.now)) }
    ensures part { OnErr result (AppendsPart (W.contents writer.old) (W.contents writer.new)
        (edge_lines set.now walk.now)) }
    ensures late { IfErr result IsLate }
{
    let edges = walk_edges(alloc, walk)?;
    write_edges(alloc, set, edges.as_slice(), writer)
}

/// Writes a line for each of the conflict edges.
fn write_edges<W: Write>(
    alloc: Global,
    set: &ChainSet,
    edges: &[(Visit, Visit)],
    writer: &mut W,
) -> Result<(), RunFault>
    ensures lines { OnOk result (Appends (W.contents writer.old) (W.contents writer.new)
        (flat_map (edge_line set.now) edges.now)) }
    ensures part { OnErr result (AppendsPart (W.contents writer.old) (W.contents writer.new)
        (flat_map (edge_line set.now) edges.now)) }
    ensures late { IfErr result IsLate }
{
    for (visit, next) in edges {
        let line = edge_line(alloc, set, *visit, *next)?;
        write_bytes(writer, line.as_slice())?;
    }
    Ok(())
}

/// The line of a conflict edge.
fn edge_line(
    alloc: Global,
    set: &ChainSet,
    visit: Visit,
    next: Visit,
) -> Result<Vec<u8>, AllocError>
    ensures { IfOk result (λ text. text.items ≡ edge_line set.now (visit, next)) }
{
    let program = set.program_name(visit.program);
    let next_program = set.program_name(next.program);
    conflict_line(alloc, program, visit.left, next_program, next.entered)
}
