//! By what a file is known, whatever its name.
use std::fs::Metadata;
use std::os::unix::fs::MetadataExt;

/// By what the system tells a file from all others.
#[derive(Clone, Copy, PartialEq, Eq)]
pub(crate) struct Identity {
    device: u64,
    inode: u64,
}

/// What tells a file from all others.
pub(crate) fn identity_of(found: &Metadata) -> Identity {
    Identity {
        device: found.dev(),
        inode: found.ino(),
    }
}
