//! Disks in memory of which a stop leaves any part of what wasn't synced.
use crate::luck::Luck;
use lynx_names::Memory;
use sqlite_disk::{Crash, Disk, Fuse, Memory as File};
use std::alloc::Global;

/// A disk of which a stop leaves any part of what wasn't synced.
pub trait Tearing: Disk + Drop + Sized {
    /// A disk that holds nothing yet, and passes so many calls on.
    fn blank(alloc: Global, calls: u64) -> Self;

    /// The disk after the machine stopped and came back, which passes so many calls on.
    fn come_back(self, alloc: Global, calls: u64, luck: &mut Luck) -> Result<Self, Memory>;
}

/// What a file may hold after a stop: in some pieces what was written, in others what was synced,
/// and any length between.
fn torn_bytes(
    alloc: Global,
    written: &[u8],
    synced: &[u8],
    luck: &mut Luck,
) -> Result<Vec<u8>, Memory> {
    let least = written.len().min(synced.len());
    let most = written.len().max(synced.len());
    let more = luck.below((most.saturating_sub(least) as u64).saturating_add(1)) as usize;
    let piece = luck.below(2000);
    let mut is_written = luck.once_in(2);
    let mut bytes = Vec::new(alloc);
    for place in 0..least.saturating_add(more) {
        if luck.once_in(piece) {
            is_written = !is_written;
        }
        let held = if is_written { written } else { synced };
        bytes.push(held.get(place).copied().unwrap_or(0))?;
    }
    Ok(bytes)
}

/// A disk that holds these bytes for good, and passes so many calls on.
pub fn holding(alloc: Global, bytes: &[u8], calls: u64) -> Result<Fuse<File>, Memory> {
    let mut file = File::new(alloc);
    if !file.may_be_used() || file.write_at(0, bytes).is_err() || file.sync().is_err() {
        return Err(Memory);
    }
    Ok(Fuse::new(file, calls))
}

/// The disk after a stop, which passes so many calls on.
fn torn(
    alloc: Global,
    mut disk: Fuse<File>,
    calls: u64,
    luck: &mut Luck,
) -> Result<Fuse<File>, Memory> {
    let written = Vec::from_slice(alloc, disk.inner().bytes())?;
    disk.crash();
    let bytes = torn_bytes(alloc, written.as_slice(), disk.inner().bytes(), luck)?;
    holding(alloc, bytes.as_slice(), calls)
}

impl Tearing for Fuse<File> {
    fn blank(alloc: Global, calls: u64) -> Fuse<File> {
        Fuse::new(File::new(alloc), calls)
    }

    fn come_back(self, alloc: Global, calls: u64, luck: &mut Luck) -> Result<Fuse<File>, Memory> {
        torn(alloc, self, calls, luck)
    }
}
