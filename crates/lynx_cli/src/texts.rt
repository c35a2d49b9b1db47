//! The work of each job, from its texts to any writer.
ghost use Rattle.std.specs.Prelude.{◌≡◌, IfOk, IfErr};
ghost use Rattle.lynx_set.specs.Rules.{IsSet};
ghost use Rattle.lynx_set.specs.Text.{text_of};
ghost use Rattle.lynx_cli.specs.Statuses.{status_of_ending, status_of_finding};
ghost use Rattle.lynx_cli.specs.Done.{HasCharted, HasChecked, HasDrawn, HasRun, HasRunInput, HasRunJudged, HasRunTexts, HasSampled};
ghost use Rattle.lynx_cli.specs.Stopped.{StopsCharting, StopsChecking, StopsDrawing, StopsRun, StopsRunInput, StopsRunJudged, StopsRunTexts, StopsSampling};

use crate::fault::Fault;
use crate::input::split_input;
use lynx_args::{RunFlags, SampleFlags};
use lynx_report::{
    CheckOptions, DrawOptions, Ending, Finding, RunOptions, accepted_set, chart_texts, check_text,
    draw_text, run_over_set, run_texts,
};
use lynx_sample::{SampleOptions, sample_text};
use lynx_set::ChainSet;
use std::alloc::Global;
use std::io::Write;

/// The status of an accepted set, of a run that an order explains, and of a listing.
pub(crate) const DONE: u8 = 0;

/// The status of an offending set, and of a run that ends with a cycle.
pub(crate) const OFFENDING: u8 = 1;

/// The status of looking for a request of which there is no record.
pub(crate) const ABSENT: u8 = 1;

/// The status of asking by lines of which some are faulty.
pub(crate) const FAULTY: u8 = 2;

/// The status of a check and of a picture.
fn status_of_finding(finding: Finding) -> u8
    ensures { result ≡ status_of_finding finding }
{
    match finding {
        Finding::Accepted(_) => DONE,
        Finding::Offending => OFFENDING,
    }
}

/// The status of a run.
pub(crate) fn status_of_ending(ending: Ending) -> u8
    ensures { result ≡ status_of_ending ending }
{
    match ending {
        Ending::Ordered => DONE,
        Ending::Cyclic => OFFENDING,
    }
}

/// Judges the set of a text, writes the verdict with what the options ask for behind it, and gives
/// its status.
pub fn check_set<'a, W: Write>(
    alloc: Global,
    text: &[u8],
    options: CheckOptions,
    writer: &mut W,
) -> Result<u8, Fault<'a>>
    ensures ok { IfOk result (HasChecked options text.now (W.contents writer.old)
        (W.contents writer.new)) }
    ensures err { IfErr result (StopsChecking options text.now (W.contents writer.old)
        (W.contents writer.new)) }
{
    match check_text(alloc, text, options, writer) {
        Ok(finding) => Ok(status_of_finding(finding)),
        Err(fault) => Err(Fault::of_run(fault)),
    }
}

/// Judges the set of a text, writes its picture and gives the status of the verdict.
pub fn draw_set<'a, W: Write>(
    alloc: Global,
    text: &[u8],
    options: DrawOptions,
    writer: &mut W,
) -> Result<u8, Fault<'a>>
    ensures ok { IfOk result (HasDrawn options text.now (W.contents writer.old)
        (W.contents writer.new)) }
    ensures err { IfErr result (StopsDrawing options text.now (W.contents writer.old)
        (W.contents writer.new)) }
{
    match draw_text(alloc, text, options, writer) {
        Ok(finding) => Ok(status_of_finding(finding)),
        Err(fault) => Err(Fault::of_run(fault)),
    }
}

/// Draws a run of a script over a set, and gives the run's status.
pub fn chart_script<'a, W: Write>(
    alloc: Global,
    set: &[u8],
    script: &[u8],
    writer: &mut W,
) -> Result<u8, Fault<'a>>
    ensures ok { IfOk result (HasCharted set.now script.now (W.contents writer.old)
        (W.contents writer.new)) }
    ensures err { IfErr result (StopsCharting set.now script.now (W.contents writer.old)
        (W.contents writer.new)) }
{
    match chart_texts(alloc, set, script, writer) {
        Ok(ending) => Ok(status_of_ending(ending)),
        Err(fault) => Err(Fault::of_run(fault)),
    }
}

/// Makes a random script for the set of a text, and writes it.
pub fn sample_set<'a, W: Write>(
    alloc: Global,
    text: &[u8],
    flags: SampleFlags,
    writer: &mut W,
) -> Result<u8, Fault<'a>>
    ensures ok { IfOk result (HasSampled flags.cycle text.now (W.contents writer.old)
        (W.contents writer.new)) }
    ensures err { IfErr result (StopsSampling flags.cycle text.now (W.contents writer.old)
        (W.contents writer.new)) }
{
    let options = SampleOptions {
        seed: flags.seed,
        begins: flags.begins,
        cycle: flags.cycle,
        effort: flags.effort,
    };
    match sample_text(alloc, text, options, writer) {
        Ok(()) => Ok(DONE),
        Err(fault) => Err(Fault::of_sampling(fault)),
    }
}

/// Runs a script over a set, writes its lines and gives the status.
fn run_unjudged<'a, W: Write>(
    alloc: Global,
    set: &[u8],
    script: &[u8],
    options: RunOptions,
    writer: &mut W,
) -> Result<u8, Fault<'a>>
    ensures ok { IfOk result (HasRunTexts options set.now script.now (W.contents writer.old)
        (W.contents writer.new)) }
    ensures err { IfErr result (StopsRunTexts options set.now script.now (W.contents writer.old)
        (W.contents writer.new)) }
{
    match run_texts(alloc, set, script, options, writer) {
        Ok(ending) => Ok(status_of_ending(ending)),
        Err(fault) => Err(Fault::of_run(fault)),
    }
}

/// The same over a set that is read already.
fn run_read<'a, W: Write>(
    alloc: Global,
    set: ChainSet,
    script: &[u8],
    options: RunOptions,
    writer: &mut W,
) -> Result<u8, Fault<'a>>
    requires { IsSet set }
    ensures ok { IfOk result (HasRunTexts options (text_of set) script.now (W.contents writer.old)
        (W.contents writer.new)) }
    ensures err { IfErr result (StopsRunTexts options (text_of set) script.now
        (W.contents writer.old) (W.contents writer.new)) }
{
    match run_over_set(alloc, set, script, options, writer) {
        Ok(ending) => Ok(status_of_ending(ending)),
        Err(fault) => Err(Fault::of_run(fault)),
    }
}

/// Runs a script over a set that is accepted. One that offends is refused: its verdict is written,
/// and the script isn't judged.
fn run_judged<'a, W: Write>(
    alloc: Global,
    set: &[u8],
    script: &[u8],
    options: RunOptions,
    writer: &mut W,
) -> Result<u8, Fault<'a>>
    ensures ok { IfOk result (HasRunJudged options set.now script.now (W.contents writer.old)
        (W.contents writer.new)) }
    ensures err { IfErr result (StopsRunJudged options set.now script.now (W.contents writer.old)
        (W.contents writer.new)) }
{
    match accepted_set(alloc, set, writer) {
        Ok(Some(accepted)) => run_read(alloc, accepted, script, options, writer),
        Ok(None) => Ok(OFFENDING),
        Err(fault) => Err(Fault::of_run(fault)),
    }
}

/// Runs a script over a set as the flags ask for.
pub fn run_script<'a, W: Write>(
    alloc: Global,
    set: &[u8],
    script: &[u8],
    flags: RunFlags,
    writer: &mut W,
) -> Result<u8, Fault<'a>>
    ensures ok { IfOk result (HasRun flags set.now script.now (W.contents writer.old)
        (W.contents writer.new)) }
    ensures err { IfErr result (StopsRun flags set.now script.now (W.contents writer.old)
        (W.contents writer.new)) }
{
    let options = RunOptions { owed: flags.owed };
    if flags.checked {
        run_judged(alloc, set, script, options, writer)
    } else {
        run_unjudged(alloc, set, script, options, writer)
    }
}

/// Runs the script of an input over the set that stands before it.
pub fn run_input<'a, W: Write>(
    alloc: Global,
    input: &[u8],
    flags: RunFlags,
    writer: &mut W,
) -> Result<u8, Fault<'a>>
    ensures ok { IfOk result (HasRunInput flags input.now (W.contents writer.old)
        (W.contents writer.new)) }
    ensures err { IfErr result (StopsRunInput flags input.now (W.contents writer.old)
        (W.contents writer.new)) }
{
    let Some((set, script)) = split_input(input) else {
        return Err(Fault::NoSeparator);
    };
    run_script(alloc, set, script, flags, writer)
}
