//! The disk of a region file.
ghost use Rattle.std.specs.Prelude.{◌≡◌, length, IfOk};
ghost use Rattle.cm_device_disk.specs.DeviceDisk.{disk_contents};
ghost use Rattle.cm_region_disk.specs.Opening.{IsWithoutRecords, HasRecords};

use cm_device_disk::{Device, DeviceDisk, HeldDisk, OpenedDevice, ReadError, WordsAhead};
use cm_disk::WordRange;
use cm_verdict::{OpenFault, bytes_before_roots, record_ranges};
use std::alloc::Global;

/// The disk of a device that holds a cache. What opening the cache reads is in memory then: the
/// superblock, both halves of the journal, and the words of the records of its live classes;
/// nothing else is. So the memory is that of what lives, whatever the sizes allow and however long
/// the device is. The rows are walked once here, to find the records.
///
/// A device that holds no sound cache is a disk too, and its damage is found when the cache is
/// opened.
///
/// # Errors
/// As of [`OpenedDevice::read_on`].
pub fn disk_of<V: Device<Fault = F>, F: Copy>(
    alloc: Global,
    opened: OpenedDevice<V>,
) -> Result<DeviceDisk<V, F>, ReadError<F>>
    ensures len { IfOk result (λ d. length (disk_contents d) ≡ opened.len) }
    ensures read { IfOk result (HasRecords opened) }
{
    let (disk, ranges) = disk_without_records(alloc, opened)?;
    disk.read_words(alloc, &ranges, WordsAhead::none(alloc))
}

/// The same disk before the words of the records are read, and their ranges: none if the device
/// holds no cache whose rows are sound. A caller may read these words by several threads, for
/// [`DeviceDisk::read_words`].
///
/// # Errors
/// As of [`OpenedDevice::read_on`].
pub fn disk_without_records<V: Device<Fault = F>, F: Copy>(
    alloc: Global,
    opened: OpenedDevice<V>,
) -> Result<(DeviceDisk<V, F>, Vec<WordRange>), ReadError<F>>
    ensures len { IfOk result (λ p. length (disk_contents p.0) ≡ opened.len) }
    ensures read { IfOk result (λ p. IsWithoutRecords opened p.0 p.1.items) }
{
    let reach = bytes_before_roots(opened.beginning());
    let disk = DeviceDisk::of_opened(opened.read_on(alloc, reach)?);
    // They are found in what it holds, so the disk itself stays as it is.
    match record_ranges(alloc, &mut HeldDisk::of(&disk)) {
        Ok(ranges) => Ok((disk, ranges)),
        Err(fault) => match fault {
            OpenFault::NoMemory => Err(ReadError::NoMemory),
            _ => Ok((disk, Vec::new(alloc))),
        },
    }
}
