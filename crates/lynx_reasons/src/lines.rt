//! Why a verdict is what it is.

ghost use Rattle.std.specs.Prelude.{◌≡◌, ℕ, List, ◌++◌, OnOk, IfOk};
ghost use Rattle.lynx_set.specs.Rules.{IsSet};
ghost use Rattle.lynx_check.specs.Verdicts.{Judges};
ghost use Rattle.lynx_graph.specs.Edges.{edges_of};
ghost use Rattle.lynx_reasons.specs.Whys.{AreGroupLines, AreOffenceLines, IsWhy};

use crate::blame::put_blame;
use crate::busy::put_busy_lines;
use crate::groups::put_group_lines;
use crate::late::put_late_lines;
use crate::meets::put_meet_lines;
use crate::mixed::put_mixed_lines;
use crate::never::put_never_lines;
use lynx_check::Verdict;
use lynx_graph::{Edge, conflict_edges, members_of};
use lynx_names::Memory;
use lynx_set::ChainSet;
use std::alloc::Global;

/// Why the verdict on this very set is what it is, by lines: a line for each two hops that may
/// conflict; for an accepted set a line for each group of programs, with the reason why no walk
/// through the group offends; a line for each program that returns to the server where it begins,
/// and for each that can never begin; and for an offending set the blocks that are late, with the
/// hops of other origins that they meet, the groups of programs through which a closed walk may
/// offend, and the programs to blame: the fewest, up to three, without which it is accepted. For
/// them at most 2,500 sets are looked at, and fewer where there are many edges. Memory is answered
/// where a growth was refused.
pub fn why(alloc: Global, set: &ChainSet, verdict: &Verdict) -> Result<Vec<u8>, Memory>
    requires text { IsSet set.now }
    requires judged { Judges set.now verdict.now }
    ensures { IfOk result (λ bytes. IsWhy set.now verdict.now bytes.items) }
{
    let edges = conflict_edges(alloc, set)?;
    let edges = edges.as_slice();
    let mut out = Vec::new(alloc);
    put_meet_lines(alloc, &mut out, set, edges)?;
    put_groups(alloc, &mut out, set, edges, verdict)?;
    put_busy_lines(alloc, &mut out, set)?;
    put_never_lines(alloc, &mut out, set)?;
    put_offence(alloc, &mut out, set, edges, verdict)?;
    Ok(out)
}

/// Writes the groups of an accepted set.
fn put_groups(
    alloc: Global,
    out: &mut Vec<u8>,
    set: &ChainSet,
    edges: &[Edge],
    verdict: &Verdict,
) -> Result<(), Memory>
    requires { edges.now ≡ edges_of set.now }
    ensures { OnOk result ((lines : List ℕ) × AreGroupLines set.now verdict.now lines
        × (out.new.items ≡ out.old.items ++ lines)) }
{
    match verdict {
        Verdict::Accepted(accepted) => {
            let members = members_of(alloc, set, edges)?;
            put_group_lines(
                alloc,
                out,
                set,
                edges,
                accepted.reason(),
                members.as_slice(),
            )
        }
        Verdict::Offending(_, _) => Ok(()),
    }
}

/// Writes what stands in the way of an offending set.
fn put_offence(
    alloc: Global,
    out: &mut Vec<u8>,
    set: &ChainSet,
    edges: &[Edge],
    verdict: &Verdict,
) -> Result<(), Memory>
    requires text { IsSet set.now }
    requires edges { edges.now ≡ edges_of set.now }
    ensures { OnOk result ((lines : List ℕ) × AreOffenceLines set.now verdict.now lines
        × (out.new.items ≡ out.old.items ++ lines)) }
{
    match verdict {
        Verdict::Accepted(_) => Ok(()),
        Verdict::Offending(_, _) => {
            let members = members_of(alloc, set, edges)?;
            put_late_lines(alloc, out, set, edges)?;
            put_mixed_lines(alloc, out, set, edges, members.as_slice())?;
            put_blame(alloc, out, set, edges)
        }
    }
}
