//! The limits of the store. docs/FORMATS.md says where each is judged.

/// Servers of a set, at most.
pub const MAX_SERVERS: u8 = 16;

/// Tables of a set, at most.
pub const MAX_TABLES: u8 = 64;

/// Shards of one table, at most.
pub const MAX_SHARDS: usize = 64;

/// Programs of a set, at most.
pub const MAX_PROGRAMS: u8 = 64;

/// Parameters of a program, at most.
pub const MAX_PARAMETERS: usize = 8;

/// Hops of a program, at most.
pub const MAX_HOPS: usize = 8;

/// Actions of a hop, at most.
pub const MAX_ACTIONS: usize = 16;

/// Bytes of a name, at most.
pub const MAX_NAME_BYTES: usize = 24;

/// Bytes of a set text or of a script, at most.
pub const MAX_TEXT_BYTES: usize = 65_536;

/// Entries of one server's history, at most.
pub const MAX_ENTRIES: u64 = 1_000_000;

/// Messages that one server holds, at most.
pub const MAX_HELD: usize = 64;

/// Every stamp is below this number.
pub const STAMP_LIMIT: u64 = 0x4000_0000_0000_0000;
