//! Whether a set is accepted once some of its programs are taken away.

ghost use Rattle.std.specs.Prelude.{◌≡◌, ◌<◌, ◌↔◌, ◌++◌, ◌∷◌, [], IfOk, IsTrue, None, OnOk, length};
ghost use Rattle.lynx_names.specs.declared.limits.TheConstants.{MAX_PROGRAMS};
ghost use Rattle.lynx_set.specs.Lookups.{program_names};
ghost use Rattle.lynx_set.specs.Names.{place_of};
ghost use Rattle.lynx_check.specs.Verdicts.{Judges};
ghost use Rattle.lynx_graph.specs.Acceptance.{IsAccepted};
ghost use Rattle.lynx_reasons.specs.Culprits.{set_without};
ghost use Rattle.lynx_reasons.specs.inner.Untabled.{untabled};

use crate::culprit::Culprit;
use lynx_check::{Verdict, check};
use lynx_graph::program_of;
use lynx_names::{Memory, TryCopy};
use lynx_set::{ChainSet, Name, Program};
use std::alloc::Global;

/// Adds a program to those that are left.
fn add_left(
    alloc: Global,
    left: &mut ChainSet,
    name: &Name,
    program: &Program,
) -> Result<(), Memory>
    requires new { place_of (program_names left.old) name.now ≡ None }
    requires few { length left.old.programs < MAX_PROGRAMS }
    ensures { OnOk result (left.new ≡ record left.old {
      programs = left.old.programs ++ (name.now, program.now) ∷ [];
    }) }
{
    left.add_program(*name, program.copy(alloc)?)
}

/// The programs that are left without these, as a set that has no tables.
fn programs_without(alloc: Global, set: &ChainSet, culprit: &Culprit) -> Result<ChainSet, Memory>
    ensures { IfOk result (λ left. left ≡ untabled (set_without set.now culprit.now)) }
{
    let programs = set.programs();
    let mut left = ChainSet::new(alloc, set.version(), set.servers());
    for number in 0..programs.len() {
        if let Some((name, program)) = programs.get_index(number) {
            if !culprit.has(program_of(number)) {
                add_left(alloc, &mut left, name, program)?;
            }
        }
    }
    Ok(left)
}

/// Whether the verdict on this very set is that it is accepted.
fn is_accepted(set: &ChainSet, verdict: &Verdict) -> bool
    requires { Judges set.now verdict.now }
    ensures { IsTrue result ↔ IsAccepted set.now }
{
    match verdict {
        Verdict::Accepted(_) => true,
        Verdict::Offending(_, _) => false,
    }
}

/// Whether the set without these programs is accepted.
pub(crate) fn is_accepted_without(
    alloc: Global,
    set: &ChainSet,
    culprit: &Culprit,
) -> Result<bool, Memory>
    ensures { IfOk result (λ is. IsTrue is ↔ IsAccepted (set_without set.now culprit.now)) }
{
    let left = programs_without(alloc, set, culprit)?;
    let verdict = check(alloc, &left)?;
    Ok(is_accepted(&left, &verdict))
}
