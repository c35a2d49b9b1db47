//! The search for what makes a set accepted, by kinds of changes, smallest first.
ghost use Rattle.std.specs.Prelude.{◌≡◌, ◌≤◌, [], IfOk, OnOk, length};
ghost use Rattle.std.specs.List.Sorted.{IsNonDecreasingBy};
ghost use Rattle.lynx_graph.specs.Acceptance.{IsAccepted};
ghost use Rattle.lynx_mend.specs.Mended.{mending_cost};

use crate::change::Change;
use crate::deciding::{decide, servers_by_hops};
use crate::gathering::{gathered, groups};
use crate::judging::offending_programs;
use crate::marks::ProgramMarks;
use crate::mending::Mending;
use crate::search::Search;
use crate::trial::Trial;
use crate::trials::{large_trials, small_trials};
use lynx_graph::Member;
use lynx_names::{Memory, ProgramId, ServerId};
use lynx_set::ChainSet;
use std::alloc::Global;

/// Mendings that are told of a set, at most.
pub const MAX_MENDINGS: usize = 10;

/// So many times the programs for which a server decides are widened by what still offends.
const MAX_WIDENINGS: usize = 4;

/// Servers that are proposed to decide, at most.
const MAX_DECIDERS: usize = 3;

/// A small change by which the set still offends, and the programs by which it does.
#[derive(Drop)]
struct Opened {
    trial: Trial,
    programs: ProgramMarks,
}

/// The program of a change of one program.
fn program_of(change: &Change) -> Option<ProgramId> {
    match *change {
        Change::Order { program, .. }
        | Change::Turn { program, .. }
        | Change::Drop { program, .. }
        | Change::Cut { program, .. }
        | Change::Leave { program } => Some(program),
        Change::Decide { .. } | Change::Range { .. } => None,
    }
}

/// Tries each small change of the programs, as long as more than that many texts may be judged, and
/// gives those that aren't enough alone.
fn try_small(
    alloc: Global,
    set: &ChainSet,
    search: &mut Search,
    programs: &ProgramMarks,
    kept: u64,
) -> Result<Vec<Opened>, Memory> {
    let mut opened = Vec::new(alloc);
    for trial in small_trials(alloc, set, programs)? {
        let is_due = search.small_found() < MAX_MENDINGS && search.left() > kept;
        if is_due && !search.has_alike(trial.change) {
            if let Some(programs) = search.attempt(alloc, &trial, None)? {
                opened.push(Opened { trial, programs })?;
            }
        }
    }
    Ok(opened)
}

/// Tries that the server decides for the programs, and for those by which the set then still
/// offends.
fn try_decider(
    alloc: Global,
    set: &ChainSet,
    search: &mut Search,
    members: &[Member],
    programs: &ProgramMarks,
    server: ServerId,
) -> Result<(), Memory> {
    let mut all = *programs;
    for _ in 0..MAX_WIDENINGS {
        all = gathered(set, members, all);
        let trial = decide(alloc, set, &all, server)?;
        match search.attempt(alloc, &trial, None)? {
            Some(others) => all = all.with_all(&others),
            None => return Ok(()),
        }
    }
    Ok(())
}

/// Tries that one server decides, those servers first at which the most hops are.
fn try_deciders(
    alloc: Global,
    set: &ChainSet,
    search: &mut Search,
    programs: &ProgramMarks,
) -> Result<(), Memory> {
    let members = groups(alloc, set)?;
    let all = gathered(set, members.as_slice(), *programs);
    let servers = servers_by_hops(alloc, set, &all)?;
    for server in servers.as_slice().iter().take(MAX_DECIDERS) {
        try_decider(alloc, set, search, members.as_slice(), &all, *server)?;
    }
    Ok(())
}

/// Whether the pair is to be tried with this change first. Where either change could come first,
/// that of the earlier program does.
fn comes_first(programs: &ProgramMarks, first: &Change, second: &Change) -> bool {
    match (program_of(first), program_of(second)) {
        (Some(first), Some(second)) => {
            first != second && (first < second || !programs.has(second))
        }
        _ => false,
    }
}

/// Tries each pair of small changes of two programs, the second one of a program by which the set
/// still offends after the first, as long as more than that many texts may be judged.
fn try_pairs(
    alloc: Global,
    set: &ChainSet,
    search: &mut Search,
    programs: &ProgramMarks,
    opened: &[Opened],
    kept: u64,
) -> Result<(), Memory> {
    for one in opened {
        if search.is_over() || search.left() <= kept {
            return Ok(());
        }
        for second in small_trials(alloc, set, &one.programs)? {
            let is_due = comes_first(programs, &one.trial.change, &second.change);
            if is_due && !search.is_over() && search.left() > kept {
                let _ = search.attempt(alloc, &one.trial, Some(&second))?;
            }
        }
    }
    Ok(())
}

/// Tries each large change of the programs.
fn try_large(
    alloc: Global,
    set: &ChainSet,
    search: &mut Search,
    programs: &ProgramMarks,
) -> Result<(), Memory> {
    for trial in large_trials(alloc, set, programs)? {
        if !search.is_over() {
            let _ = search.attempt(alloc, &trial, None)?;
        }
    }
    Ok(())
}

/// What makes a set accepted that offends by walks through these programs.
fn search_mendings(
    alloc: Global,
    set: &ChainSet,
    programs: &ProgramMarks,
) -> Result<Vec<Mending>, Memory> {
    let mut search = Search::new(alloc, set)?;
    let half = search.left() / 2;
    let opened = try_small(alloc, set, &mut search, programs, half)?;
    if search.small_found() >= MAX_MENDINGS {
        return Ok(search.into_found());
    }
    try_deciders(alloc, set, &mut search, programs)?;
    if search.small_found() == 0 {
        let kept = search.left() / 4;
        try_pairs(alloc, set, &mut search, programs, opened.as_slice(), kept)?;
    }
    try_large(alloc, set, &mut search, programs)?;
    Ok(search.into_found())
}

/// Sorts the mendings by what they cost, and lets go of those behind the tenth.
fn keep_smallest(found: &mut Vec<Mending>) -> Result<(), Memory>
    ensures few { OnOk result (length found.new.items ≤ MAX_MENDINGS) }
    ensures rising { OnOk result (IsNonDecreasingBy mending_cost found.new.items) }
{
    found.sort_by_key(|mending| mending.cost())?;
    found.truncate(MAX_MENDINGS);
    Ok(())
}

/// What makes an offending set accepted, the smallest change first: by cost, then by program. Each
/// mending has an accepted set, by its type, which has a text. There are ten at most, and none for
/// a set that is accepted; there may be none for one that offends. The larger the set is, the fewer
/// changes are tried: 4,000 at most, some hundreds of a set of 64 programs of 8 hops.
pub fn mend(alloc: Global, set: &ChainSet) -> Result<Vec<Mending>, Memory>
    ensures few { IfOk result (λ found. length found.items ≤ MAX_MENDINGS) }
    ensures rising { IfOk result (λ found. IsNonDecreasingBy mending_cost found.items) }
    ensures none { IsAccepted set.now → IfOk result (λ found. found.items ≡ []) }
{
    match offending_programs(alloc, set)? {
        Some(programs) => {
            let mut found = search_mendings(alloc, set, &programs)?;
            keep_smallest(&mut found)?;
            Ok(found)
        }
        None => Ok(Vec::new(alloc)),
    }
}
