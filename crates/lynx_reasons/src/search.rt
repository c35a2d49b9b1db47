//! The search for the programs to blame.

ghost use Rattle.std.specs.Prelude.{◌≡◌, ◌<◌, ◌↔◌, ◌/◌, ◌∷◌, ◌||◌, IfOk, IsTrue, OnOk, [], filter, length, max, min, nat_le, true};
ghost use Rattle.lynx_graph.specs.Acceptance.{IsAccepted};
ghost use Rattle.lynx_graph.specs.Edges.{edges_of};
ghost use Rattle.lynx_reasons.specs.Culprits.{AreCulprits, AreFewest, most_looks, ones, set_without, threes, threes_of, twos};
ghost use Rattle.lynx_reasons.specs.inner.Searches.{Ends, Goes, IsNew, IsOf, Keeps, is_aimed};
ghost use Rattle.lynx_reasons.specs.inner.Sifts.{IsSift};

use crate::culprit::Culprit;
use crate::sift::Sift;
use crate::without::is_accepted_without;
use lynx_graph::{Edge, program_of};
use lynx_names::{Items, Memory};
use lynx_set::ChainSet;
use std::alloc::Global;

/// How many are told, at most.
const MAX_TOLD: usize = 3;

/// How many sets without some programs are looked at, at most: of 64 programs each, and each two.
const MAX_LOOKS: usize = 2_500;

/// How many edges are looked at, at most, over all these sets: half a second's work.
const MAX_EDGES_SEEN: usize = 50_000_000;

/// What was found so far, how many sets without some programs were looked at, how many may be, and
/// whether one was not for want of looks.
#[derive(Drop)]
pub(crate) struct Search {
    pub(crate) found: Items<Culprit>,
    pub(crate) looks: usize,
    most: usize,
    pub(crate) is_bound: bool,
}

impl Search {
    /// A search of a set of so many edges.
    fn new(alloc: Global, edges: usize) -> Search
        ensures new { IsNew result }
        ensures most { result.most ≡ min MAX_LOOKS (MAX_EDGES_SEEN / max edges 1) }
    {
        Search {
            found: Items::new(alloc),
            looks: 0,
            most: MAX_LOOKS.min(MAX_EDGES_SEEN / edges.max(1)),
            is_bound: false,
        }
    }

    /// Whether no more sets are looked at.
    fn is_done(&self) -> bool
        ensures { result ≡ (nat_le 3 (length self.now.found) || self.now.is_bound) }
    {
        self.found.len() >= MAX_TOLD || self.is_bound
    }
}

/// What is looked for, and in which order: so many programs, all with late blocks or not.
#[derive(Clone, Copy)]
struct Aim {
    count: usize,
    is_late: bool,
}

/// Whether the set without these programs is accepted. Most that aren't are told by the sift.
fn is_culprit(alloc: Global, set: &ChainSet, sift: &Sift, culprit: &Culprit) -> Result<bool, Memory>
    requires { IsSift set.now sift.now }
    ensures { IfOk result (λ is. IsTrue is ↔ IsAccepted (set_without set.now culprit.now)) }
{
    if !sift.lets_through(alloc, set, culprit)? {
        return Ok(false);
    }
    is_accepted_without(alloc, set, culprit)
}

/// Looks at the set without these programs, where they are of the aim.
fn look(
    alloc: Global,
    set: &ChainSet,
    sift: &Sift,
    aim: &Aim,
    culprit: &Culprit,
    search: &mut Search,
) -> Result<(), Memory>
    requires sift { IsSift set.now sift.now }
    requires of { IsOf set.now aim.now.count culprit.now }
    requires keeps { Keeps set.now aim.now.count search.old }
    ensures keeps { OnOk result (Keeps set.now aim.now.count search.new) }
    ensures goes { OnOk result (Goes set.now
        (filter (is_aimed set.now aim.now.is_late) (culprit.now ∷ [])) search.old search.new) }
{
    if search.is_done() {
        return Ok(());
    }
    if sift.are_late(culprit) != aim.is_late {
        return Ok(());
    }
    if search.looks >= search.most {
        search.is_bound = true;
        return Ok(());
    }
    search.looks += 1;
    if is_culprit(alloc, set, sift, culprit)? {
        search.found.push(*culprit)?;
    }
    Ok(())
}

/// Looks at the sets without one program.
fn look_at_ones(
    alloc: Global,
    set: &ChainSet,
    sift: &Sift,
    is_late: bool,
    search: &mut Search,
) -> Result<(), Memory>
    requires sift { IsSift set.now sift.now }
    requires keeps { Keeps set.now 1 search.old }
    ensures keeps { OnOk result (Keeps set.now 1 search.new) }
    ensures goes { OnOk result (Goes set.now (filter (is_aimed set.now is_late) (ones set.now))
        search.old search.new) }
{
    let aim = Aim { count: 1, is_late };
    for first in 0..set.programs().len() {
        let culprit = Culprit::One(program_of(first));
        look(alloc, set, sift, &aim, &culprit, search)?;
    }
    Ok(())
}

/// Looks at the sets without two programs.
fn look_at_twos(
    alloc: Global,
    set: &ChainSet,
    sift: &Sift,
    is_late: bool,
    search: &mut Search,
) -> Result<(), Memory>
    requires sift { IsSift set.now sift.now }
    requires keeps { Keeps set.now 2 search.old }
    ensures keeps { OnOk result (Keeps set.now 2 search.new) }
    ensures goes { OnOk result (Goes set.now (filter (is_aimed set.now is_late) (twos set.now))
        search.old search.new) }
{
    let aim = Aim { count: 2, is_late };
    let count = set.programs().len();
    for first in 0..count {
        for second in first + 1..count {
            let culprit = Culprit::Two(program_of(first), program_of(second));
            look(alloc, set, sift, &aim, &culprit, search)?;
        }
    }
    Ok(())
}

/// Looks at the sets without three programs of which these are the first two.
fn look_at_threes_of(
    alloc: Global,
    set: &ChainSet,
    sift: &Sift,
    is_late: bool,
    pair: (usize, usize),
    search: &mut Search,
) -> Result<(), Memory>
    requires first { pair.0 < length set.now.programs }
    requires second { pair.1 < length set.now.programs }
    requires sift { IsSift set.now sift.now }
    requires keeps { Keeps set.now 3 search.old }
    ensures keeps { OnOk result (Keeps set.now 3 search.new) }
    ensures goes { OnOk result (Goes set.now
        (filter (is_aimed set.now is_late) (threes_of set.now pair.0 pair.1))
        search.old search.new) }
{
    let aim = Aim { count: 3, is_late };
    let (first, second) = pair;
    let count = set.programs().len();
    for third in second + 1..count {
        let culprit = Culprit::Three(program_of(first), program_of(second), program_of(third));
        look(alloc, set, sift, &aim, &culprit, search)?;
    }
    Ok(())
}

/// Looks at the sets without three programs.
fn look_at_threes(
    alloc: Global,
    set: &ChainSet,
    sift: &Sift,
    is_late: bool,
    search: &mut Search,
) -> Result<(), Memory>
    requires sift { IsSift set.now sift.now }
    requires keeps { Keeps set.now 3 search.old }
    ensures keeps { OnOk result (Keeps set.now 3 search.new) }
    ensures goes { OnOk result (Goes set.now (filter (is_aimed set.now is_late) (threes set.now))
        search.old search.new) }
{
    let count = set.programs().len();
    for first in 0..count {
        for second in first + 1..count {
            look_at_threes_of(alloc, set, sift, is_late, (first, second), search)?;
        }
    }
    Ok(())
}

/// Looks at the sets without one program, then at those without two, then at those without three,
/// until some are accepted; of as many those first of which all programs have late blocks.
fn look_at_all(
    alloc: Global,
    set: &ChainSet,
    sift: &Sift,
    search: &mut Search,
) -> Result<(), Memory>
    requires sift { IsSift set.now sift.now }
    requires new { IsNew search.old }
    ensures right { OnOk result (AreCulprits set.now search.new.found) }
    ensures all { OnOk result (Ends set.now search.old.most search.new) }
{
    look_at_ones(alloc, set, sift, true, search)?;
    look_at_ones(alloc, set, sift, false, search)?;
    if !search.found.is_empty() {
        return Ok(());
    }
    look_at_twos(alloc, set, sift, true, search)?;
    look_at_twos(alloc, set, sift, false, search)?;
    if !search.found.is_empty() {
        return Ok(());
    }
    look_at_threes(alloc, set, sift, true, search)?;
    look_at_threes(alloc, set, sift, false, search)?;
    Ok(())
}

/// The programs to blame, where these are the edges of the set: the fewest, up to three, whose
/// taking away makes it accepted, at most three of as many; and how many sets were looked at.
pub(crate) fn culprits_of(alloc: Global, set: &ChainSet, edges: &[Edge]) -> Result<Search, Memory>
    requires { edges.now ≡ edges_of set.now }
    ensures right { IfOk result (λ search. AreCulprits set.now search.found) }
    ensures fewest { IfOk result (λ search. AreFewest set.now search.found search.is_bound) }
    ensures looks { IfOk result (λ search. search.is_bound ≡ true
        → search.looks ≡ most_looks set.now) }
{
    let sift = Sift::new(alloc, set, edges)?;
    let mut search = Search::new(alloc, edges.len());
    look_at_all(alloc, set, &sift, &mut search)?;
    Ok(search)
}
