//! Why a service didn't begin, or didn't end well.
ghost use Rattle.std.specs.Prelude.{◌≡◌};
ghost use Rattle.lynx_service.specs.Failures.{IsPlain};
ghost use Rattle.lynx_service.specs.Faults.{contents_fault, copy_fault, folder_fault, missing_fault, store_fault};

use lynx_cluster::{CloseFault, StartFault};
use lynx_lines::WriteFailed;
use lynx_names::{Memory, ServerId};
use lynx_server::OpenFault;
use lynx_store::StoreFault;
use lynx_store_files::FolderFault;
use lynx_weave::WeaveFault;
use std::alloc::{AllocError, AllocFailed};
use thiserror::Error;

/// Where a store is damaged.
#[derive(Clone, Copy, Debug, PartialEq, Eq)]
pub enum Damage {
    /// In its tables or rows; which of them isn't known.
    Somewhere,
    /// The entry at that place isn't lawful behind those before it, or, at the count of the
    /// entries, the cells aren't those that they leave.
    At { place: u64 },
    /// There is no store, where other servers of the set have stores with entries.
    Missing,
}

/// What is wrong with a store.
#[derive(Clone, Copy, Debug, PartialEq, Eq, Error)]
pub enum StoreWord {
    #[error("other-set")]
    OtherSet,
    #[error("other-version")]
    OtherVersion,
    #[error("damaged")]
    Damaged(Damage),
    #[error("store")]
    Store,
    /// Its name leads to nothing any more, or to another file than the one that is served.
    #[error("gone")]
    Gone,
}

/// Why a store can't follow a server.
#[derive(Clone, Copy, Debug, PartialEq, Eq, Error)]
pub enum CopyWord {
    #[error("other-set")]
    OtherSet,
    #[error("other-version")]
    OtherVersion,
    /// What it keeps isn't a front of what the server did.
    #[error("other-history")]
    OtherHistory,
    #[error("damaged")]
    Damaged,
    #[error("store")]
    Store,
    /// In the end it lacks something of what the server did.
    #[error("behind")]
    Behind,
    /// Its name leads to nothing any more, or to another file than the one that follows.
    #[error("gone")]
    Gone,
    #[error("memory")]
    Memory,
}

impl From<StoreFault> for CopyWord {
    ghost use Rattle.std.specs.Prelude.{◌≡◌};
    ghost use Rattle.lynx_service.specs.Faults.{word_of_store};

    ghost from_gives = { λ fault word. word ≡ word_of_store fault };

    fn from(fault: StoreFault) -> CopyWord {
        match fault {
            StoreFault::OtherSet => CopyWord::OtherSet,
            StoreFault::OtherVersion => CopyWord::OtherVersion,
            StoreFault::Damaged => CopyWord::Damaged,
            StoreFault::Store => CopyWord::Store,
            StoreFault::Memory => CopyWord::Memory,
        }
    }
}

impl From<OpenFault> for CopyWord {
    ghost use Rattle.std.specs.Prelude.{◌≡◌};
    ghost use Rattle.lynx_service.specs.Faults.{word_of_contents};

    ghost from_gives = { λ fault word. word ≡ word_of_contents fault };

    fn from(fault: OpenFault) -> CopyWord {
        match fault {
            OpenFault::Damaged { .. } => CopyWord::Damaged,
            OpenFault::Store => CopyWord::Store,
            OpenFault::Memory => CopyWord::Memory,
        }
    }
}

impl From<Memory> for CopyWord {
    ghost use Rattle.std.specs.Prelude.{◌≡◌};
    ghost use Rattle.lynx_service.specs.declared.fault.CopyWord.TheVariants.{Memory as WantOfMemory};

    ghost from_gives = { λ _ word. word ≡ WantOfMemory };

    fn from(_: Memory) -> CopyWord {
        CopyWord::Memory
    }
}

/// What is wrong with what servers did, or with what clients were told of it. What it prints is one
/// word, which tells no place.
#[derive(Clone, Copy, Debug, PartialEq, Eq, Error)]
pub enum CloseWord {
    /// No world has that entry of that server: nobody sent its message, say.
    #[error("mismatch")]
    Mismatch { server: u8, place: u64 },
    /// No world has that item of that session.
    #[error("told")]
    Told { session: u64, place: u64 },
    #[error("stopped")]
    Stopped { server: u8 },
    #[error("absent")]
    Absent { session: u64 },
    #[error("uncounted")]
    Uncounted { server: u8 },
}

/// Why a service didn't begin, or didn't end well. What was stored stands. The number of a server
/// is a plain one, so that a fault may lie in a value that borrows (docs/DECISIONS.md, Program,
/// input and output).
#[derive(Clone, Copy, Debug, PartialEq, Eq, Error)]
pub enum ServeFault {
    /// The store of that server can't be opened, or could not be closed.
    #[error("store {server}: {word}")]
    Store { server: u8, word: StoreWord },
    /// The store that is to follow that server can't.
    #[error("copy {server}: {word}")]
    Copy { server: u8, word: CopyWord },
    /// The folder that is to follow is the one that is served.
    #[error("copy: same folder")]
    SameFolder,
    /// The port can't be listened at.
    #[error("cannot listen")]
    Listen,
    /// The port at which the status is to be told can't be listened at.
    #[error("cannot listen for the status")]
    ListenStatus,
    /// The file by which clients find the service can't be made in its folder.
    #[error("cannot write the file service")]
    Notice,
    /// No thread could be made for a server.
    #[error("no thread")]
    NoThread,
    /// The look through the stores at the beginning, or the audit at the end, found that.
    #[error("close: {0}")]
    Close(CloseWord),
    #[error("cannot write")]
    Write,
    #[error("out of memory")]
    Memory,
}

impl ServeFault {
    /// The fault of the rows of that server's store, or of its file.
    pub fn of_store(server: ServerId, fault: StoreFault) -> ServeFault
        ensures { result ≡ store_fault server fault }
    {
        let word = match fault {
            StoreFault::OtherSet => StoreWord::OtherSet,
            StoreFault::OtherVersion => StoreWord::OtherVersion,
            StoreFault::Damaged => StoreWord::Damaged(Damage::Somewhere),
            StoreFault::Store => StoreWord::Store,
            StoreFault::Memory => return ServeFault::Memory,
        };
        let server = server.number();
        ServeFault::Store { server, word }
    }

    /// Why the store that is to follow that server can't.
    pub(crate) fn of_copy(server: ServerId, word: CopyWord) -> ServeFault
        ensures value { result ≡ copy_fault server word }
        ensures plain { IsPlain result }
    {
        let server = server.number();
        match word {
            CopyWord::Memory => ServeFault::Memory,
            word => ServeFault::Copy { server, word },
        }
    }

    /// The store of that server isn't there, where others have entries.
    pub fn of_missing(server: ServerId) -> ServeFault
        ensures { result ≡ missing_fault server }
    {
        let server = server.number();
        let word = StoreWord::Damaged(Damage::Missing);
        ServeFault::Store { server, word }
    }

    /// The fault of the stores of a folder.
    pub(crate) fn of_folder(fault: FolderFault) -> ServeFault
        ensures { result ≡ folder_fault fault }
    {
        match fault {
            FolderFault::Store { server, fault } => ServeFault::of_store(server, fault),
            FolderFault::Missing { server } => ServeFault::of_missing(server),
            FolderFault::Memory => ServeFault::Memory,
        }
    }

    /// The fault of what that server's store holds.
    pub fn of_contents(server: ServerId, fault: OpenFault) -> ServeFault
        ensures { result ≡ contents_fault server fault }
    {
        let word = match fault {
            OpenFault::Damaged { place } => StoreWord::Damaged(Damage::At { place }),
            OpenFault::Store => StoreWord::Store,
            OpenFault::Memory => return ServeFault::Memory,
        };
        let server = server.number();
        ServeFault::Store { server, word }
    }
}

impl From<StartFault> for ServeFault {
    ghost use Rattle.std.specs.Prelude.{◌≡◌};
    ghost use Rattle.lynx_service.specs.Faults.{start_fault};

    ghost from_gives = { λ fault told. told ≡ start_fault fault };

    fn from(fault: StartFault) -> ServeFault {
        match fault {
            StartFault::Open { server, fault } => ServeFault::of_contents(server, fault),
            // There is a keeper for each server.
            StartFault::OtherCount | StartFault::NoThread => ServeFault::NoThread,
            StartFault::Memory => ServeFault::Memory,
        }
    }
}

impl From<CloseFault> for ServeFault {
    ghost use Rattle.std.specs.Prelude.{◌≡◌};
    ghost use Rattle.lynx_service.specs.Faults.{close_fault};

    ghost from_gives = { λ fault told. told ≡ close_fault fault };

    fn from(fault: CloseFault) -> ServeFault {
        let word = match fault {
            CloseFault::Mismatch { server, place } => CloseWord::Mismatch {
                server: server.number(),
                place,
            },
            CloseFault::Told { session, place } => CloseWord::Told { session, place },
            CloseFault::Stopped { server } => CloseWord::Stopped {
                server: server.number(),
            },
            CloseFault::Absent { session } => CloseWord::Absent { session },
            CloseFault::Uncounted { server } => CloseWord::Uncounted {
                server: server.number(),
            },
            CloseFault::Memory => return ServeFault::Memory,
        };
        ServeFault::Close(word)
    }
}

impl From<WeaveFault> for ServeFault {
    ghost use Rattle.std.specs.Prelude.{◌≡◌};
    ghost use Rattle.lynx_service.specs.Faults.{apart_fault};

    ghost from_gives = { λ fault told. told ≡ apart_fault fault };

    fn from(fault: WeaveFault) -> ServeFault {
        let word = match fault {
            WeaveFault::Mismatch { server, place } => CloseWord::Mismatch {
                server: server.number(),
                place,
            },
            WeaveFault::Told { session, place } => CloseWord::Told { session, place },
            WeaveFault::Memory => return ServeFault::Memory,
        };
        ServeFault::Close(word)
    }
}

impl From<Memory> for ServeFault {
    ghost use Rattle.std.specs.Prelude.{◌≡◌};
    ghost use Rattle.lynx_service.specs.declared.fault.ServeFault.TheVariants.{Memory as WantOfMemory};

    ghost from_gives = { λ _ told. told ≡ WantOfMemory };

    fn from(_: Memory) -> ServeFault {
        ServeFault::Memory
    }
}

impl From<AllocError> for ServeFault {
    ghost use Rattle.std.specs.Prelude.{◌≡◌};
    ghost use Rattle.lynx_service.specs.declared.fault.ServeFault.TheVariants.{Memory as WantOfMemory};

    ghost from_gives = { λ _ told. told ≡ WantOfMemory };

    fn from(_: AllocError) -> ServeFault {
        ServeFault::Memory
    }
}

impl<T: Drop> From<AllocFailed<T>> for ServeFault {
    ghost use Rattle.std.specs.Prelude.{◌≡◌};
    ghost use Rattle.lynx_service.specs.declared.fault.ServeFault.TheVariants.{Memory as WantOfMemory};

    ghost from_gives = { λ _ told. told ≡ WantOfMemory };

    fn from(_: AllocFailed<T>) -> ServeFault {
        ServeFault::Memory
    }
}

impl From<WriteFailed> for ServeFault {
    ghost use Rattle.std.specs.Prelude.{◌≡◌};
    ghost use Rattle.lynx_service.specs.declared.fault.ServeFault.TheVariants.{Write as NotWritten};

    ghost from_gives = { λ _ told. told ≡ NotWritten };

    fn from(_: WriteFailed) -> ServeFault {
        ServeFault::Write
    }
}
