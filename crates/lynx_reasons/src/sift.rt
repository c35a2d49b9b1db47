//! Which programs may be to blame, told from the edges of the set. What is told is judged.

ghost use Rattle.std.specs.Prelude.{◌≡◌, ◌==◌, ◌&&◌, ◌||◌, All, IfOk, IsTrue, false, not};
ghost use Rattle.std.specs.List.{list_any};
ghost use Rattle.lynx_graph.specs.Acceptance.{IsAccepted};
ghost use Rattle.lynx_graph.specs.Blocks.{entrance_of, exit_of};
ghost use Rattle.lynx_graph.specs.Edges.{edges_of};
ghost use Rattle.lynx_graph.specs.Walks.{NoWalkOffends};
ghost use Rattle.lynx_set.specs.Set.{Set};
ghost use Rattle.lynx_reasons.specs.Culprits.{are_late, is_late, is_of, set_without};
ghost use Rattle.lynx_reasons.specs.inner.Sifts.{AreOfAbroad, IsEnd, IsSift, is_block_left, is_end_left, is_end_at, leaves_late};

use crate::culprit::Culprit;
use crate::joining::Joining;
use lynx_graph::{Block, Edge, Place, entrance_of, exit_of, places_of};
use lynx_late::{hops_abroad, late_blocks};
use lynx_names::{Items, Memory, ProgramId};
use lynx_set::ChainSet;
use std::alloc::Global;

/// A hop that reaches abroad, and programs that it meets there: all of them where they are three or
/// fewer, else four.
#[derive(Drop)]
struct End {
    place: Place,
    meets: Items<ProgramId>,
}

/// What stands in the way of a set.
#[derive(Drop)]
pub(crate) struct Sift {
    edges: Vec<Edge>,
    ends: Vec<End>,
    blocks: Vec<Block>,
}

/// The programs of the hops, up to four.
fn some_programs(alloc: Global, hops: &[Place]) -> Result<Items<ProgramId>, Memory>
    ensures { IfOk result (λ programs. AreOfAbroad hops.now programs) }
{
    let mut programs = Items::new(alloc);
    for hop in hops {
        if programs.len() < 4 && !programs.as_slice().contains(&hop.program) {
            programs.push(hop.program)?;
        }
    }
    Ok(programs)
}

/// The hops that reach abroad.
fn ends_of(alloc: Global, set: &ChainSet, edges: &[Edge]) -> Result<Vec<End>, Memory>
    requires { edges.now ≡ edges_of set.now }
    ensures { IfOk result (λ ends. All (IsEnd set.now) ends.items) }
{
    let places = places_of(alloc, set)?;
    let mut ends = Vec::new(alloc);
    for place in places.as_slice() {
        let hops = hops_abroad(alloc, set, edges, place)?;
        if !hops.is_empty() {
            ends.push(End {
                place: *place,
                meets: some_programs(alloc, hops.as_slice())?,
            })?;
        }
    }
    Ok(ends)
}

impl End {
    /// Whether a program that the hop meets is none of these.
    fn meets_another(&self, culprit: &Culprit) -> bool
        ensures { result ≡ list_any (λ program. not (is_of culprit.now program)) self.now.meets }
    {
        let mut meets = self.meets.as_slice().iter();
        meets.any(|program| !culprit.has(*program))
    }

    /// Whether the hop reaches abroad without these programs.
    fn is_left(&self, culprit: &Culprit) -> bool
        ensures { result ≡ is_end_left culprit.now self.now }
    {
        !culprit.has(self.place.program) && self.meets_another(culprit)
    }
}

/// Whether one of the blocks is of the program.
fn is_one_of(blocks: &[Block], program: ProgramId) -> bool
    ensures { result ≡ list_any (λ block. (entrance_of block).program == program
        || (exit_of block).program == program) blocks.now }
{
    blocks.iter().any(|block| entrance_of(block).program == program
        || exit_of(block).program == program)
}

impl Sift {
    pub(crate) fn new(alloc: Global, set: &ChainSet, edges: &[Edge]) -> Result<Sift, Memory>
        requires { edges.now ≡ edges_of set.now }
        ensures { IfOk result (λ sift. IsSift set.now sift) }
    {
        Ok(Sift {
            edges: edges.iter().copied().collect(alloc)?,
            ends: ends_of(alloc, set, edges)?,
            blocks: late_blocks(alloc, set, edges)?,
        })
    }

    /// Whether a late block is of the program.
    fn is_late(&self, program: ProgramId) -> bool
        ensures { (set : Set) → IsSift set self.now → result ≡ is_late set program }
    {
        is_one_of(self.blocks.as_slice(), program)
    }

    /// Whether a late block is of each of the programs.
    pub(crate) fn are_late(&self, culprit: &Culprit) -> bool
        ensures { (set : Set) → IsSift set self.now → result ≡ are_late set culprit.now }
    {
        match *culprit {
            Culprit::One(first) => self.is_late(first),
            Culprit::Two(first, second) => self.is_late(first) && self.is_late(second),
            Culprit::Three(first, second, third) => {
                self.is_late(first) && self.is_late(second) && self.is_late(third)
            }
        }
    }

    /// Whether the hop reaches abroad without these programs.
    fn is_end(&self, culprit: &Culprit, place: &Place) -> bool
        ensures { result ≡ list_any (is_end_at culprit.now place.now) self.now.ends.items }
    {
        let mut ends = self.ends.iter();
        ends.any(|end| end.place == *place && end.is_left(culprit))
    }

    /// Whether the block is late without these programs.
    fn is_left(&self, culprit: &Culprit, block: &Block) -> bool
        ensures { result ≡ is_block_left culprit.now self.now.ends.items block.now }
    {
        let (entered, left) = (entrance_of(block), exit_of(block));
        !culprit.has(entered.program)
            && !culprit.has(left.program)
            && self.is_end(culprit, &entered)
            && self.is_end(culprit, &left)
    }

    /// Whether some block is late without these programs.
    fn leaves_late(&self, culprit: &Culprit) -> bool
        ensures { result ≡ leaves_late culprit.now self.now }
    {
        let mut blocks = self.blocks.iter();
        blocks.any(|block| self.is_left(culprit, block))
    }

    /// Whether no group is mixed without these programs.
    fn leaves_none_mixed(
        &self,
        alloc: Global,
        set: &ChainSet,
        culprit: &Culprit,
    ) -> Result<bool, Memory>
        requires { IsSift set.now self.now }
        ensures { IfOk result (λ none. none ≡ false
            → NoWalkOffends (set_without set.now culprit.now) → ⊥) }
    {
        let mut joining = Joining::new(alloc, set)?;
        for edge in self.edges.iter() {
            if !culprit.has(edge.left.program) && !culprit.has(edge.right.program) {
                joining.join(alloc, edge)?;
            }
        }
        Ok(!joining.has_mixed())
    }

    /// Whether the set seems to be accepted without these programs, as it does wherever it is.
    pub(crate) fn lets_through(
        &self,
        alloc: Global,
        set: &ChainSet,
        culprit: &Culprit,
    ) -> Result<bool, Memory>
        requires { IsSift set.now self.now }
        ensures { IfOk result (λ lets. IsAccepted (set_without set.now culprit.now)
            → IsTrue lets) }
    {
        if !self.leaves_late(culprit) {
            return Ok(true);
        }
        self.leaves_none_mixed(alloc, set, culprit)
    }
}
