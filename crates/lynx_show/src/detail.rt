//! How much a listing tells of each entry.

/// How much a listing tells of each entry.
#[derive(Clone, Copy, Debug, PartialEq, Eq)]
pub enum Detail {
    /// What it did.
    Brief,
    /// Behind that the client and the number of the request, the program by name, and the
    /// arguments; of a later hop the program and the arguments.
    Full,
}
