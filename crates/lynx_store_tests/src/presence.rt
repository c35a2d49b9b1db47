//! What is told of a folder in which a store may be.
use lynx_names::ServerId;
use lynx_store::StoreFault;
use lynx_store_files::{Files, Stores};
use std::fs;

/// The file of the first server's store, and its log.
const FILE: &str = "server-0.lynx";

const LOG: &str = "server-0.lynx-wal";

/// Whether the file was made to hold these bytes, or not to be there.
fn is_made(rt: &HostRuntime, path: &str, bytes: Option<&str>) -> bool {
    let _ = fs::remove_file(rt, path);
    match bytes {
        Some(bytes) => fs::write(rt, path, bytes).is_ok(),
        None => true,
    }
}

/// What is told where the file and the log hold these bytes, or aren't there.
fn told(rt: HostRuntime, file: Option<&str>, log: Option<&str>) -> Result<bool, StoreFault> {
    if !is_made(&rt, FILE, file) || !is_made(&rt, LOG, log) {
        return Err(StoreFault::Damaged);
    }
    Files::new(rt).has(".", ServerId::first())
}

/// What is there, and what is told.
#[rattlefmt::skip]
const CASES: &[(Option<&str>, Option<&str>, bool)] = &[
    (None, None, false),
    (Some(""), None, false),
    (None, Some(""), false),
    (Some(""), Some(""), false),
    (Some("x"), None, true),
    (None, Some("x"), true),
    (Some(""), Some("x"), true),
    (Some("x"), Some("x"), true),
];

#[test]
fn what_is_there_is_told(rt: HostRuntime) {
    for &(file, log, wanted) in CASES {
        assert!(rt; told(rt, file, log) == Ok(wanted));
    }
}
