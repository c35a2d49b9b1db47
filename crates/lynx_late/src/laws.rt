//! What late blocks mean, each law the contract of a function that does nothing.
ghost use Rattle.std.specs.Prelude.{◌≡◌, ◌↔◌, ℕ, List, []};
ghost use Rattle.lynx_set.specs.Set.{Set};
ghost use Rattle.lynx_graph.specs.Blocks.{IsOffendingBlockWalk, NoBlockWalkOffends};
ghost use Rattle.lynx_graph.specs.declared.block.Block.{Block};
ghost use Rattle.lynx_graph.specs.declared.block.Block.TheVariants.{One, Two};
ghost use Rattle.lynx_late.specs.Blocks.{IsLate, late_blocks};

/// A walk of blocks that offends is there exactly where a late block is.
pub fn offending_walk_and_late_block()
    ensures { (set : Set) → ((walk : List Block) × IsOffendingBlockWalk set walk)
        ↔ ((block : Block) × IsLate set block) }
{}

/// No walk of blocks offends exactly where no late block is listed.
pub fn none_offends_and_none_is_late()
    ensures { (set : Set) → NoBlockWalkOffends set ↔ (late_blocks set ≡ []) }
{}

/// Two chains of one program are a late block only where the one chain with the same ends is.
pub fn two_of_one_program()
    ensures { (set : Set) (program entered left : ℕ)
        → IsLate set (Two program entered program left) → IsLate set (One program entered left) }
{}
