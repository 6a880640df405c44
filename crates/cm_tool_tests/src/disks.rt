//! Disks that hold a cache, and what is in it.

use cm_disk::{Disk, SimDisk};
use cm_pool::Geometry;
use cm_tool::{ApplyFault, Outcome, apply_script};
use std::alloc::Global;
use std::test::*;

/// A disk of the default sizes that holds the empty cache.
pub fn new_disk(alloc: Global) -> Result<SimDisk, Fail> {
    new_disk_of(alloc, 4_096)
}

/// The same with this many slots in each half.
pub fn new_disk_of(alloc: Global, slots: u32) -> Result<SimDisk, Fail> {
    let geometry = Geometry::new(8, 64, slots).ok_or("a geometry")?;
    Ok(cm_samples::new_disk(alloc, geometry)?)
}

/// The replies to a script on a disk, its result, and the disk.
pub fn replies<D: Disk>(
    alloc: Global,
    script: &[u8],
    disk: D,
) -> (Vec<u8>, Result<Outcome, ApplyFault>, D) {
    let mut reader = script;
    let mut written = Vec::new(alloc);
    let (outcome, disk) = apply_script(alloc, &mut reader, &mut written, disk);
    (written, outcome, disk)
}

/// Whether these are the replies to a script on a disk.
pub fn are_replies(alloc: Global, disk: SimDisk, script: &[u8], wanted: &[u8]) -> bool {
    let (written, _outcome, _disk) = replies(alloc, script, disk);
    written.as_slice() == wanted
}

/// Whether the cache on a disk has only loader `a`, so that one more is its second.
pub fn has_one_loader(alloc: Global, disk: SimDisk) -> bool {
    let script = b"loader a\nloader another\n";
    are_replies(alloc, disk, script, b"refused 2 loader exists\nok 2\n")
}
