//! Disks in memory.

use cm_disk::{DeviceFault, Disk, SimDisk};
use cm_pool::Geometry;
use cm_recover::{FormatFault, format};
use std::alloc::Global;
use std::test::Fail;

/// The most bytes of which a disk is made.
const MOST_BYTES: usize = 100_000;

/// A disk that holds the empty cache of these sizes.
pub fn new_disk(alloc: Global, geometry: Geometry) -> Result<SimDisk, FormatFault> {
    let mut disk = SimDisk::new(alloc);
    format(alloc, &mut disk, geometry)?;
    Ok(disk)
}

/// A disk of these bytes, which are durable; a fault if they are more than 100,000.
pub fn disk_of(alloc: Global, bytes: &[u8]) -> Result<SimDisk, DeviceFault> {
    if bytes.len() > MOST_BYTES {
        return Err(DeviceFault);
    }
    let mut disk = SimDisk::new(alloc);
    disk.write_at(0, bytes)?;
    disk.sync()?;
    Ok(disk)
}

/// All bytes of a disk.
pub fn bytes_of(alloc: Global, disk: &mut SimDisk) -> Result<Vec<u8>, Fail> {
    let len = disk.len()?;
    let mut bytes = Vec::from_elem(alloc, 0, len as usize)?;
    disk.read(0, &mut bytes)?;
    Ok(bytes)
}
