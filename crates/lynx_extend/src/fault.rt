/// Why a set doesn't extend another: the first reason, tables and programs by their numbers,
/// counted from 0.
#[derive(Clone, Copy, Debug, PartialEq, Eq)]
pub enum ExtendFault {
    /// The old set is of version 2, the new one of version 1.
    Version,
    /// The new set has fewer servers.
    Servers,
    /// Another table stands in this one's place: its name or its shards differ.
    TableChanged { table: usize },
    /// The new set has no more tables than those before this one.
    TableGone { table: usize },
    /// Another program stands in this one's place: its name or a word of it differs.
    ProgramChanged { program: usize },
    /// The new set has no more programs than those before this one.
    ProgramGone { program: usize },
}
