//! Stores on disks in memory, which stop.
use lynx_names::ServerId;
use lynx_set::ChainSet;
use lynx_store::SqlKeeper;
use sqlite::{Connection, FileStore, Files, Options};
use sqlite_disk::{Crash, Disk, Fuse, Memory as File};
use std::alloc::Global;

/// The log is copied into the database file as soon as it has so many pages: so the calls that do
/// that stop too.
const LOG_PAGES: usize = 8;

/// The files of one store, which stop.
pub type Disks = Files<Fuse<File>>;

/// Files that hold nothing yet, whose log passes so many calls on, and whose database so many.
pub fn blank_disks(alloc: Global, log: u64, db: u64) -> Disks {
    Files {
        log: Fuse::new(File::new(alloc), log),
        db: Fuse::new(File::new(alloc), db),
    }
}

/// A database on the disks, or the disks.
pub fn connect<D: Disk + Drop>(
    alloc: Global,
    disks: Files<D>,
) -> Result<Connection<FileStore<D>>, Files<D>> {
    if !disks.may_be_used() {
        return Err(disks);
    }
    let options = Options {
        checkpoint_frames: LOG_PAGES,
        ..Options::new(1)
    };
    match Connection::open_files(alloc, disks, options) {
        Ok(conn) => Ok(conn),
        Err((_, left)) => Err(left.into_files()),
    }
}

/// The keeper of that server on the disks, made where there is none; the disks where it doesn't
/// open.
pub fn open<D: Disk + Drop>(
    alloc: Global,
    disks: Files<D>,
    set: &ChainSet,
    server: ServerId,
) -> Result<SqlKeeper<FileStore<D>>, Files<D>> {
    let conn = connect(alloc, disks)?;
    match SqlKeeper::open(alloc, conn, set, server) {
        Ok(keeper) => Ok(keeper),
        Err((_, conn)) => Err(conn.into_store().close()),
    }
}

/// The disks of a keeper, on which nothing more is written.
pub fn disks_of<D: Disk + Drop>(keeper: SqlKeeper<FileStore<D>>) -> Files<D> {
    keeper.into_connection().into_store().close()
}

/// Whether the disk refuses a call.
fn has_stopped<D: Disk>(disk: &mut D) -> bool {
    !disk.may_be_used() || disk.len().is_err()
}

/// The disks after the machine stopped and came back, and whether a call had found it stopped, or
/// the next one would have.
pub fn come_back<D: Crash + Drop>(mut disks: Files<D>) -> (bool, Files<D>) {
    let stopped = has_stopped(&mut disks.log) || has_stopped(&mut disks.db);
    disks.log.crash();
    disks.db.crash();
    (stopped, disks)
}
