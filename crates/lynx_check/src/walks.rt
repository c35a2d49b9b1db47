//! A search for a closed walk that offends, through the hops of a set as rows of bits, and the
//! parts of the graph that they make. What it finds is a guess: nothing is promised of it, and who
//! asks looks whether it holds.
pub(crate) use map::Map;
pub(crate) use searching::least_walk;

mod closing;
mod map;
mod marks;
mod parts;
mod row;
mod searching;
mod tracing;
