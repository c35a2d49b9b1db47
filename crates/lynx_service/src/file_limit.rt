//! How long the files of this program may grow.
use libc::getrlimit;
use libc::types::rlimit;

/// What getrlimit is asked: bytes of a file (RLIMIT_FSIZE).
const FILE_BYTES: i32 = 1;

/// What it answers where there is no limit.
const NO_LIMIT: u64 = u64::MAX;

/// How many bytes a file may have that this program writes, where that has a limit. A write beyond
/// it ends the program, by a signal of which nothing here hears.
pub(crate) fn file_limit() -> Option<u64> {
    let mut limit = rlimit {
        rlim_cur: NO_LIMIT,
        rlim_max: NO_LIMIT,
    };
    if getrlimit(FILE_BYTES, &mut limit) != 0 || limit.rlim_cur == NO_LIMIT {
        return None;
    }
    Some(limit.rlim_cur)
}
