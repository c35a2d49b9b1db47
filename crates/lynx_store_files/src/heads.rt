//! What the first bytes of a store's file and of its log say.
ghost use Rattle.std.specs.Prelude.{IsTrue, ◌↔◌};
ghost use Rattle.lynx_store_files.specs.Heads.{IsBegun, IsDatabase, IsUnmade, MayOpen};

/// The bytes with which each database begins.
const DATABASE_HEAD: &[u8; 16] = b"SQLite format 3\0";

/// As many bytes are the head of a file.
pub(crate) const FILE_HEAD: u64 = 16;

/// A log of as many bytes is a head without a commit.
const EMPTY_LOG: usize = 41;

/// What stands behind the first twelve bytes of a log that only the making of a store has written.
const BEGUN: &[u8; 4] = &[255; 4];

/// As many bytes are the head of a log: one more than those of a log without a commit.
pub(crate) const LOG_HEAD: u64 = 42;

/// Whether a file that begins so is a database's.
pub fn is_database(file: &[u8]) -> bool
    ensures { IsTrue result ↔ IsDatabase file.now }
{
    if file.len() < DATABASE_HEAD.len() {
        return false;
    }
    &file[..16] == DATABASE_HEAD.as_slice()
}

/// Whether it is what a stop within the making of a new store leaves in its file.
fn is_unmade(file: &[u8]) -> bool
    ensures { IsTrue result ↔ IsUnmade file.now }
{
    match file {
        [] => true,
        [first, ..] => *first == 0,
    }
}

/// Whether it is what a stop within the making of a new store leaves in its log.
fn is_begun(log: &[u8]) -> bool
    ensures { IsTrue result ↔ IsBegun log.now }
{
    if log.len() > EMPTY_LOG {
        return false;
    }
    match log {
        [0, ..] => true,
        [0x37, ..] if log.len() >= 16 => &log[12..16] == BEGUN.as_slice(),
        _ => false,
    }
}

/// Whether a file and a log that begin so may be opened as a store: those of a database, or of a
/// new store, of which nothing is there yet, or only what a stop within its making left. Any other
/// two hold something that isn't a store, or that opening them would erase.
pub fn may_open(file: &[u8], log: &[u8]) -> bool
    ensures { IsTrue result ↔ MayOpen file.now log.now }
{
    is_database(file) || (file.is_empty() && log.is_empty()) || (is_unmade(file) && is_begun(log))
}
