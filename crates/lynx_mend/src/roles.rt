//! What becomes of tables where one server decides for some programs.
use crate::marks::TableMarks;
use lynx_names::limits::MAX_TABLES;
use lynx_names::{ServerId, TableId};
use lynx_set::{Action, ChainSet};
use lynx_shards::Shard;

/// What becomes of a table.
#[derive(Clone, Copy, Debug, PartialEq, Eq)]
pub(crate) enum Role {
    /// None of the programs gets it: it stays what it is.
    Unread,
    /// It is got, and all of it is at the server: it is asked there.
    Home,
    /// It is got, and a table beside it is asked.
    Mirrored,
}

/// The server that is to decide, the tables that are got, and those of them all of whose cells are
/// there.
#[derive(Clone, Copy, Debug)]
pub(crate) struct Roles {
    pub server: ServerId,
    read: TableMarks,
    home: TableMarks,
}

fn are_at(shards: &[Shard], server: ServerId) -> bool {
    shards.iter().all(|shard| shard.server == server)
}

/// Whether all cells of the table are at the server.
fn is_home(set: &ChainSet, server: ServerId, table: TableId) -> bool {
    match set.shards().tables().get(table.index()) {
        Some(shards) => are_at(shards.as_slice(), server),
        None => false,
    }
}

impl Roles {
    /// What becomes of the tables where these are got, and that server decides.
    pub(crate) fn new(set: &ChainSet, server: ServerId, read: TableMarks) -> Roles {
        let mut home = TableMarks::new();
        for number in 0..MAX_TABLES {
            if let Some(table) = TableId::new(number) {
                if is_home(set, server, table) {
                    home.add(table);
                }
            }
        }
        Roles { server, read, home }
    }

    /// What becomes of the table.
    pub(crate) fn role_of(&self, table: TableId) -> Role {
        if !self.read.has(table) {
            Role::Unread
        } else if self.home.has(table) {
            Role::Home
        } else {
            Role::Mirrored
        }
    }

    /// The tables beside which there is to be another.
    pub(crate) fn mirrored(&self) -> TableMarks {
        let mut marks = TableMarks::new();
        for number in 0..MAX_TABLES {
            if let Some(table) = TableId::new(number) {
                if self.role_of(table) == Role::Mirrored {
                    marks.add(table);
                }
            }
        }
        marks
    }

    /// Whether the action is done in the first hop, over the table beside where there is one.
    pub(crate) fn decides(&self, action: &Action) -> bool {
        match *action {
            Action::Update { table, .. } => self.role_of(table) != Role::Unread,
            Action::Get { .. } | Action::Let { .. } | Action::Need { .. } => true,
        }
    }

    /// Whether the action is done where it was, over the table that it had.
    pub(crate) fn stays(&self, action: &Action) -> bool {
        match *action {
            Action::Update { table, .. } => self.role_of(table) != Role::Home,
            Action::Get { .. } | Action::Let { .. } | Action::Need { .. } => false,
        }
    }
}
