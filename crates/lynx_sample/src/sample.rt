//! A random script for a set text.
ghost use Rattle.std.specs.Prelude.{ℕ, List, true, IsTrue, OnOk, OnErr, IfOk, IfErr, IfSome};
ghost use Rattle.std.specs.Io.KnownBytes.{Appends, Keeps};
ghost use Rattle.std.specs.String.{string_bytes};
ghost use Rattle.lynx_check.specs.Verdicts.{Judges};
ghost use Rattle.lynx_graph.specs.Acceptance.{IsAccepted};
ghost use Rattle.lynx_sample.specs.Samples.{BeginsSample, IsSample, IsSampleOver, NoSampleFor};
ghost use Rattle.lynx_sample.specs.inner.Found.{NotFoundFor};

use crate::choices::Choices;
use crate::cycles::made_events;
use crate::drawn::drawn_script;
use crate::fault::SampleFault;
use crate::judged::is_sample;
use crate::script::script_text;
use lynx_check::{Verdict, check};
use lynx_report::{read_set, write_bytes};
use lynx_set::ChainSet;
use std::alloc::Global;
use std::io::Write;

/// How many runs are tried until one ends as it is asked for.
pub const TRIES: u32 = 1_000;

/// Which script is asked for.
#[derive(Clone, Copy, Debug, PartialEq, Eq)]
pub struct SampleOptions {
    /// The same seed gives the same script.
    pub seed: u64,
    /// How many chains begin, at most. Where programs refuse or hold one another up, it is fewer.
    pub begins: u8,
    /// Whether the run is to end with a cycle.
    pub cycle: bool,
    /// How many steps a cycle is searched by before random runs are tried: 200,000 take a second at
    /// most. Of use with `cycle` alone.
    pub effort: u64,
}

/// Writes a random script over the set that a text spells: begins that pass their checks, and among
/// them deliveries, repeats, losses, wakings and restarts, so that at the end no chain owes a hop.
/// Where of [`TRIES`] runs none comes to its end, and no cycle is asked for, it is the script
/// without events. All of the text is made and judged before any of it is written. A try takes
/// about the time of two runs of its script.
///
/// Where a cycle is asked for, the set is judged first: of an accepted one no script is sought.
/// Else such a script is made, by a search for a circle of chains, with so many begins as it takes;
/// and where that finds none, random ones are tried.
pub fn sample_text<W: Write>(
    alloc: Global,
    set: &[u8],
    options: SampleOptions,
    writer: &mut W,
) -> Result<(), SampleFault>
    ensures ok { OnOk result ((script : List ℕ) × IsSample options.cycle set.now script
        × Appends (W.contents writer.old) (W.contents writer.new) script) }
    ensures err { IfErr result (λ fault. NoSampleFor options.cycle set.now
        (Keeps (W.contents writer.old) (W.contents writer.new)) fault) }
    ensures part { OnErr result (BeginsSample options.cycle set.now (W.contents writer.old)
        (W.contents writer.new)) }
{
    let set = read_set(alloc, set)?;
    let script = sample_over(alloc, &set, options)?;
    write_bytes(writer, script.as_bytes())?;
    Ok(())
}

/// A script whose run ends as it is asked for: where a cycle is, that which is made.
fn sample_over(alloc: Global, set: &ChainSet, options: SampleOptions) -> Result<String, SampleFault>
    ensures ok { IfOk result (λ script. IsSampleOver options.cycle set.now (string_bytes script)) }
    ensures err { IfErr result (NotFoundFor options.cycle) }
{
    if !options.cycle {
        return random_sample(alloc, set, options);
    }
    if is_accepted(set, &check(alloc, set)?) {
        return Err(SampleFault::NoCycle);
    }
    match made_sample(alloc, set, options.effort)? {
        Some(script) => Ok(script),
        None => random_sample(alloc, set, options),
    }
}

/// Whether the verdict on this very set is that it is accepted: then no run ends with a cycle.
fn is_accepted(set: &ChainSet, verdict: &Verdict) -> bool
    requires { Judges set.now verdict.now }
    ensures { IsTrue result → IsAccepted set.now }
{
    match verdict {
        Verdict::Accepted(_) => true,
        Verdict::Offending(_, _) => false,
    }
}

/// The script that the search makes, where its run ends with a cycle. None where it makes none.
fn made_sample(alloc: Global, set: &ChainSet, effort: u64) -> Result<Option<String>, SampleFault>
    ensures ok { IfOk result (λ found. IfSome found (λ script.
        IsSampleOver true set.now (string_bytes script))) }
    ensures err { IfErr result (NotFoundFor true) }
{
    let Some(events) = made_events(alloc, set, effort)? else {
        return Ok(None);
    };
    let script = script_text(alloc, set, events.as_slice())?;
    if is_sample(alloc, set, script.as_bytes(), true)? {
        Ok(Some(script))
    } else {
        Ok(None)
    }
}

/// The first script of those that are drawn whose run ends as it is asked for.
fn random_sample(
    alloc: Global,
    set: &ChainSet,
    options: SampleOptions,
) -> Result<String, SampleFault>
    ensures ok { IfOk result (λ script. IsSampleOver options.cycle set.now (string_bytes script)) }
    ensures err { IfErr result (NotFoundFor options.cycle) }
{
    let mut choices = Choices::new(options.seed);
    for _ in 0..TRIES {
        let script = drawn_script(alloc, set, options.begins, &mut choices)?;
        if is_sample(alloc, set, script.as_bytes(), options.cycle)? {
            return Ok(script);
        }
    }
    no_sample(alloc, set, options.cycle)
}

/// What is left where no run ended as it was asked for: the script without events leaves no hop
/// owed.
fn no_sample(alloc: Global, set: &ChainSet, cycle: bool) -> Result<String, SampleFault>
    ensures ok { IfOk result (λ script. IsSampleOver cycle set.now (string_bytes script)) }
    ensures err { IfErr result (NotFoundFor cycle) }
{
    if cycle {
        Err(SampleFault::NoCycle)
    } else {
        Ok(String::new(alloc))
    }
}
