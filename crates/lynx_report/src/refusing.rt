//! The verdict that stands in the way of a run: what is written of a set that offends.
ghost use Rattle.std.specs.Prelude.{◌≡◌, true, false, ℕ, List, OnErr, IfOk, IfErr, IfSome, IfNone};
ghost use Rattle.std.specs.Io.KnownBytes.{Appends, Keeps};
ghost use Rattle.lynx_check.specs.Verdicts.{Judges};
ghost use Rattle.lynx_graph.specs.Acceptance.{IsAccepted};
ghost use Rattle.lynx_report.specs.declared.options.Why.TheVariants.{Untold};
ghost use Rattle.lynx_report.specs.declared.verdict.Finding.TheVariants.{Offending};
ghost use Rattle.lynx_report.specs.Runs.{IsLate};
ghost use Rattle.lynx_report.specs.Checks.{Finds, IsVerdict, NoVerdictFor};
ghost use Rattle.lynx_report.specs.Refusals.{Accepts, BeginsRefusal, BeginsSetRefusal};

use crate::run::{RunFault, read_set};
use crate::verdict::write_offending;
use lynx_check::{Verdict, check};
use lynx_set::ChainSet;
use std::alloc::Global;
use std::io::Write;

/// The set that a text spells, if it is accepted, and then nothing is written. None where it
/// offends, and then what `check_text` writes. `RunFault::Script` is never its fault.
pub fn accepted_set<W: Write>(
    alloc: Global,
    text: &[u8],
    writer: &mut W,
) -> Result<Option<ChainSet>, RunFault>
    ensures accepted { IfOk result (λ judged. IfSome judged (Accepts text.now)) }
    ensures unwritten { IfOk result (λ judged. IfSome judged (λ set.
        W.contents writer.new ≡ W.contents writer.old)) }
    ensures offending { IfOk result (λ judged. IfNone judged ((printed : List ℕ)
        × Finds Untold text.now Offending printed
        × Appends (W.contents writer.old) (W.contents writer.new) printed)) }
    ensures part { OnErr result (BeginsRefusal text.now (W.contents writer.old)
        (W.contents writer.new)) }
    ensures err { IfErr result (λ fault. NoVerdictFor text.now (Keeps (W.contents writer.old)
        (W.contents writer.new)) fault) }
{
    let set = read_set(alloc, text)?;
    if is_accepted(alloc, &set, writer)? {
        Ok(Some(set))
    } else {
        Ok(None)
    }
}

/// Whether a set is accepted. Where it offends, its verdict is written.
fn is_accepted<W: Write>(alloc: Global, set: &ChainSet, writer: &mut W) -> Result<bool, RunFault>
    ensures yes { IfOk result (λ accepted. accepted ≡ true → IsAccepted set.now) }
    ensures unwritten { IfOk result (λ accepted. accepted ≡ true
        → W.contents writer.new ≡ W.contents writer.old) }
    ensures no { IfOk result (λ accepted. accepted ≡ false → (printed : List ℕ)
        × IsVerdict set.now Offending printed
        × Appends (W.contents writer.old) (W.contents writer.new) printed) }
    ensures part { OnErr result (BeginsSetRefusal set.now (W.contents writer.old)
        (W.contents writer.new)) }
    ensures late { IfErr result IsLate }
{
    let verdict = check(alloc, set)?;
    accept_or_write(alloc, set, &verdict, writer)
}

/// Whether the verdict is that the set is accepted. Else it is written.
fn accept_or_write<W: Write>(
    alloc: Global,
    set: &ChainSet,
    verdict: &Verdict,
    writer: &mut W,
) -> Result<bool, RunFault>
    requires { Judges set.now verdict.now }
    ensures yes { IfOk result (λ accepted. accepted ≡ true → IsAccepted set.now) }
    ensures unwritten { IfOk result (λ accepted. accepted ≡ true
        → W.contents writer.new ≡ W.contents writer.old) }
    ensures no { IfOk result (λ accepted. accepted ≡ false → (printed : List ℕ)
        × IsVerdict set.now Offending printed
        × Appends (W.contents writer.old) (W.contents writer.new) printed) }
    ensures part { OnErr result (BeginsSetRefusal set.now (W.contents writer.old)
        (W.contents writer.new)) }
    ensures late { IfErr result IsLate }
{
    match verdict {
        Verdict::Accepted(_) => Ok(true),
        Verdict::Offending(walk, _) => {
            write_offending(alloc, set, walk.as_slice(), writer)?;
            Ok(false)
        }
    }
}
