//! How many bytes a part of a body has at most.
use lynx_names::limits::{MAX_ACTIONS, MAX_HOPS, MAX_PARAMETERS};

/// Whole numbers and stamps.
pub const WORD_BYTES: usize = 8;

/// An origin and an index.
pub const CHAIN_BYTES: usize = 1 + WORD_BYTES;

/// A count, and the arguments of a chain.
pub const ARGS_BYTES: usize = 1 + MAX_PARAMETERS * WORD_BYTES;

/// A count, and the results of a hop.
pub const RESULTS_BYTES: usize = 1 + MAX_ACTIONS * WORD_BYTES;

/// A count, and for each server its number and the chain's number there.
pub const NUMBERS_BYTES: usize = 1 + MAX_HOPS * (1 + WORD_BYTES);

/// A count, and the results of the hops so far.
pub const RESULT_LISTS_BYTES: usize = 1 + MAX_HOPS * RESULTS_BYTES;

pub const REQUEST_BYTES: usize = 2 * WORD_BYTES + 1 + ARGS_BYTES;

pub const LOOK_BYTES: usize = CHAIN_BYTES + 1;

/// That of an answer that a chain began.
pub const ANSWER_BYTES: usize = 1 + CHAIN_BYTES + WORD_BYTES + 1 + RESULTS_BYTES;

/// That of a hop that was found.
pub const LOOKED_BYTES: usize = 1 + WORD_BYTES + RESULTS_BYTES;

pub const MESSAGE_BYTES: usize = CHAIN_BYTES
    + 2
    + WORD_BYTES
    + ARGS_BYTES
    + NUMBERS_BYTES
    + RESULT_LISTS_BYTES;

pub const BEGUN_BYTES: usize = REQUEST_BYTES
    + WORD_BYTES
    + CHAIN_BYTES
    + NUMBERS_BYTES
    + WORD_BYTES
    + RESULTS_BYTES;

pub const REFUSED_BYTES: usize = REQUEST_BYTES + WORD_BYTES + 1 + WORD_BYTES;

/// The longest body.
pub const HOP_BYTES: usize = MESSAGE_BYTES + WORD_BYTES + RESULTS_BYTES;
