//! A search for an order of chains, or for a cycle among them, by what they touched. What it finds
//! is a guess: nothing is promised of it, and who asks looks whether it holds.
pub(crate) use candidate::{Candidate, Link};
pub(crate) use searching::search;
pub(crate) use touched::ChainTouch;

mod adjacency;
pub(crate) mod candidate;
mod edges;
mod nearest;
mod picking;
mod round;
mod searching;
mod stretches;
pub(crate) mod touched;
