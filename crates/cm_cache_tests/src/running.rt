//! Disks in memory, formatted and opened.

use cm_commit::Committer;
use cm_disk::{Disk, SimDisk};
use cm_front::Front;
use cm_library::Opened;
use cm_pool::Geometry;
use cm_recover::{NotOpened, open};
use cm_samples::new_disk;
use std::alloc::Global;
use std::test::Fail;
use std::thread::Threads;

/// A disk in memory with an empty cache.
pub fn formatted(alloc: Global) -> Result<SimDisk, Fail> {
    let geometry = Geometry::new(8, 64, 4_096).ok_or("sizes")?;
    Ok(new_disk(alloc, geometry)?)
}

/// What a disk holds.
pub fn opened<D: Disk + Drop>(alloc: Global, disk: D) -> Result<(Front, Committer<D>), Fail> {
    match open(alloc, disk) {
        Ok(opened) => Ok(opened),
        Err(NotOpened { fault: _, disk: _ }) => Err("not opened".into()),
    }
}

/// The cache on a disk, ready to run. Two threads check the records.
pub fn ready<R, D>(rt: &R, alloc: Global, disk: D) -> Result<Opened<D>, Fail>
where
    R: Threads + Sync,
    D: Disk + Drop,
{
    match cm_library::open(rt, alloc, disk, 2) {
        Ok(opened) => Ok(opened),
        Err(NotOpened { fault: _, disk: _ }) => Err("not opened".into()),
    }
}
