//! The limits of a connection.

/// Turns of a connection, at most: each read is one, and so is each write that was interrupted.
pub const MAX_TURNS: u32 = 1_000_000;

/// Bytes that one read takes, at most.
pub const MAX_READ_BYTES: usize = 4_096;

/// Requests that are asked together, and answers that are written together, at most.
pub const MAX_TOGETHER: usize = 64;
