//! The limits of encodings.

/// Bytes of a body, at most: what says more is refused.
pub const MAX_BODY_BYTES: usize = 2_048;

/// Bytes of an encoding, at most: a tag, the four bytes of a length, and a body.
pub const MAX_ENCODING_BYTES: usize = 2_053;
