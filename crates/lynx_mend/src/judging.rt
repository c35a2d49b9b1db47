//! What becomes of the text of a changed set.
ghost use Rattle.std.specs.Prelude.{◌≡◌, IfOk, None};
ghost use Rattle.lynx_set.specs.Rules.{IsSet};
ghost use Rattle.lynx_graph.specs.Acceptance.{IsAccepted};
ghost use Rattle.lynx_mend.specs.inner.Judgements.{HasText};

use crate::marks::ProgramMarks;
use crate::offenders::offenders;
use lynx_check::{AcceptedSet, Verdict, check};
use lynx_names::Memory;
use lynx_set::ChainSet;
use lynx_text::{FaultKind, parse};
use std::alloc::Global;

/// What is judged of a text.
#[derive(Drop)]
pub(crate) enum Judged {
    /// It is no text of a set.
    Faulty,
    /// Its set offends, by walks through these programs.
    Offending(ProgramMarks),
    Accepted(AcceptedSet),
}

/// Reads the text, and judges its set.
pub(crate) fn judge_text(alloc: Global, text: &[u8]) -> Result<Judged, Memory>
    ensures { IfOk result HasText }
{
    match parse(alloc, text) {
        Ok(set) => judge_set(alloc, &set),
        Err(fault) if fault.kind == FaultKind::Memory => Err(Memory),
        Err(_) => Ok(Judged::Faulty),
    }
}

fn judge_set(alloc: Global, set: &ChainSet) -> Result<Judged, Memory>
    requires { IsSet set.now }
    ensures { IfOk result HasText }
{
    match check(alloc, set)? {
        Verdict::Accepted(accepted) => Ok(Judged::Accepted(accepted)),
        Verdict::Offending(walk, blocks) => Ok(Judged::Offending(offenders(&walk, &blocks))),
    }
}

/// The programs of walks by which the set offends, None where it is accepted.
pub(crate) fn offending_programs(
    alloc: Global,
    set: &ChainSet,
) -> Result<Option<ProgramMarks>, Memory>
    ensures { IsAccepted set.now → IfOk result (λ programs. programs ≡ None) }
{
    match check(alloc, set)? {
        Verdict::Accepted(_) => Ok(None),
        Verdict::Offending(walk, blocks) => Ok(Some(offenders(&walk, &blocks))),
    }
}
