//! Keepers on disks that stop again and again.
use crate::disks::{disks_of, open};
use crate::luck::Luck;
use crate::torn::Tearing;
use lynx_keep::Keeper;
use lynx_names::{Memory, ServerId};
use lynx_set::ChainSet;
use lynx_store::SqlKeeper;
use sqlite::{FileStore, Files};
use std::alloc::Global;

/// A keeper on disks that stop.
pub trait Stopping: Keeper + Drop + Sized {
    /// What it lies on.
    type Disks: Drop;

    /// New disks, which stop.
    fn new_disks(alloc: Global, luck: &mut Luck) -> Self::Disks;

    /// The keeper of that server on these disks, made where there is none; the disks where it
    /// doesn't open.
    fn open_on(
        alloc: Global,
        disks: Self::Disks,
        set: &ChainSet,
        server: ServerId,
    ) -> Result<Self, Self::Disks>;

    /// The disks, on which nothing more is written.
    fn into_disks(self) -> Self::Disks;

    /// The disks after the machine stopped and came back. They stop again, or last.
    fn come_back(
        alloc: Global,
        disks: Self::Disks,
        luck: &mut Luck,
        last: bool,
    ) -> Result<Self::Disks, Memory>;
}

/// How many calls the log passes on, and how many the database: one of them stops.
fn calls(luck: &mut Luck) -> (u64, u64) {
    if luck.once_in(3) {
        (u64::MAX, luck.below(60))
    } else {
        (luck.below(120), u64::MAX)
    }
}

/// The files after a stop, of which the log passes so many calls on, and the database so many.
fn torn_files<D: Tearing>(
    alloc: Global,
    files: Files<D>,
    calls: (u64, u64),
    luck: &mut Luck,
) -> Result<Files<D>, Memory> {
    let Files { log, db } = files;
    let log = log.come_back(alloc, calls.0, luck)?;
    let db = db.come_back(alloc, calls.1, luck)?;
    Ok(Files { log, db })
}

impl<D: Tearing> Stopping for SqlKeeper<FileStore<D>> {
    type Disks = Files<D>;

    fn new_disks(alloc: Global, luck: &mut Luck) -> Files<D> {
        let (log, db) = calls(luck);
        Files {
            log: D::blank(alloc, log),
            db: D::blank(alloc, db),
        }
    }

    fn open_on(
        alloc: Global,
        disks: Files<D>,
        set: &ChainSet,
        server: ServerId,
    ) -> Result<SqlKeeper<FileStore<D>>, Files<D>> {
        open(alloc, disks, set, server)
    }

    fn into_disks(self) -> Files<D> {
        disks_of(self)
    }

    fn come_back(
        alloc: Global,
        disks: Files<D>,
        luck: &mut Luck,
        last: bool,
    ) -> Result<Files<D>, Memory> {
        let calls = if last {
            (u64::MAX, u64::MAX)
        } else {
            calls(luck)
        };
        torn_files(alloc, disks, calls, luck)
    }
}
