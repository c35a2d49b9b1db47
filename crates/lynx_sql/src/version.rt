//! The versions of a store.

/// Which tables a store has: version 1 has `meta`, `entry` and `cell`, and version 2 has `acted`
/// too.
#[derive(Clone, Copy, Debug, PartialEq, Eq)]
pub enum StoreVersion {
    One,
    Two,
}
