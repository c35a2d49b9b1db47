//! Shapes of worlds: which set they run, and what runs.
use lynx_names::Memory;
use lynx_set::ChainSet;
use lynx_text::parse;
use std::alloc::Global;

/// A program for each of two servers, which adds there and then at the other.
const TWO: &str =
    "lynx 1\nservers 2\ntable t\nshard 0 9 0\nshard 10 18446744073709551615 1\nprogram pay0\nhop 0\nadd t 0 1\nhop 1\nadd t 10 1\nend\nprogram pay1\nhop 1\nadd t 10 1\nhop 0\nadd t 0 1\nend\n";

/// A program for each of sixteen servers, which adds there and then at the next.
const SIXTEEN: &str =
    "lynx 1\nservers 16\ntable t\nshard 0 9 0\nshard 10 19 1\nshard 20 29 2\nshard 30 39 3\nshard 40 49 4\nshard 50 59 5\nshard 60 69 6\nshard 70 79 7\nshard 80 89 8\nshard 90 99 9\nshard 100 109 10\nshard 110 119 11\nshard 120 129 12\nshard 130 139 13\nshard 140 149 14\nshard 150 18446744073709551615 15\nprogram pay0\nhop 0\nadd t 0 1\nhop 1\nadd t 10 1\nend\nprogram pay1\nhop 1\nadd t 10 1\nhop 2\nadd t 20 1\nend\nprogram pay2\nhop 2\nadd t 20 1\nhop 3\nadd t 30 1\nend\nprogram pay3\nhop 3\nadd t 30 1\nhop 4\nadd t 40 1\nend\nprogram pay4\nhop 4\nadd t 40 1\nhop 5\nadd t 50 1\nend\nprogram pay5\nhop 5\nadd t 50 1\nhop 6\nadd t 60 1\nend\nprogram pay6\nhop 6\nadd t 60 1\nhop 7\nadd t 70 1\nend\nprogram pay7\nhop 7\nadd t 70 1\nhop 8\nadd t 80 1\nend\nprogram pay8\nhop 8\nadd t 80 1\nhop 9\nadd t 90 1\nend\nprogram pay9\nhop 9\nadd t 90 1\nhop 10\nadd t 100 1\nend\nprogram pay10\nhop 10\nadd t 100 1\nhop 11\nadd t 110 1\nend\nprogram pay11\nhop 11\nadd t 110 1\nhop 12\nadd t 120 1\nend\nprogram pay12\nhop 12\nadd t 120 1\nhop 13\nadd t 130 1\nend\nprogram pay13\nhop 13\nadd t 130 1\nhop 14\nadd t 140 1\nend\nprogram pay14\nhop 14\nadd t 140 1\nhop 15\nadd t 150 1\nend\nprogram pay15\nhop 15\nadd t 150 1\nhop 0\nadd t 0 1\nend\n";

/// A program that adds to a cell, and one that gets it.
const ONE: &str =
    "lynx 1\nservers 1\ntable t\nshard 0 18446744073709551615 0\nprogram add k\nhop 0\nadd t k 1\nend\nprogram get k\nhop 0\nget x t k\nend\n";

/// A program for each of two servers, which sets a cell there and then one at the other.
const CROSSING: &str =
    "lynx 1\nservers 2\ntable t\nshard 0 9 0\nshard 10 18446744073709551615 1\nprogram right\nhop 0\nset t 0 1\nhop 1\nset t 10 1\nend\nprogram left\nhop 1\nset t 10 1\nhop 0\nset t 0 1\nend\n";

/// What a world's chains do.
#[derive(Clone, Copy)]
pub enum Shape {
    /// Each of two servers in turn pays to the other.
    Two,
    /// Each of sixteen servers in turn pays to the next.
    Sixteen,
    /// All add to one cell.
    Adds,
    /// They add to one cell and get it, one after the other.
    Alternating,
    /// Each adds to a cell of its own.
    Cells,
    /// One after another they set two cells; the last two meet, and precede each other.
    Cycle,
}

impl Shape {
    /// The shape of that name.
    pub fn named(name: &str) -> Option<Shape> {
        match name {
            "2" => Some(Shape::Two),
            "16" => Some(Shape::Sixteen),
            "adds" => Some(Shape::Adds),
            "alternating" => Some(Shape::Alternating),
            "cells" => Some(Shape::Cells),
            "cycle" => Some(Shape::Cycle),
            _ => None,
        }
    }

    /// The text of the set that such a world runs.
    pub fn text(self) -> &'static str {
        match self {
            Shape::Two => TWO,
            Shape::Sixteen => SIXTEEN,
            Shape::Adds | Shape::Alternating | Shape::Cells => ONE,
            Shape::Cycle => CROSSING,
        }
    }
}

/// The set of a text that is known to have no fault, in a box: that is let go by one call, which
/// keeps the proofs of those who hold it short.
pub fn set_of(alloc: Global, text: &str) -> Result<Box<ChainSet>, Memory> {
    match parse(alloc, text.as_bytes()) {
        Ok(set) => Ok(Box::new(alloc, set)?),
        Err(_) => Err(Memory),
    }
}
