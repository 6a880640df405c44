//! Opens the bytes of a file, for a caller that makes the device calls.

ghost use Rattle.std.specs.Prelude.{◌≡◌, ◌≤◌, ◌^◌, List, ℕ, length, IfOk, OnOk};
ghost use Rattle.cm_device_disk.specs.DeviceDisk.{disk_contents};
ghost use Rattle.cm_stepped.specs.Opening.{Begins, IsUpToDate};

use crate::opening::open;
use crate::stepped::SteppedSession;
use cm_deferred_disk::{DeferredDisk, LastCall, ListedCalls, ListedDisk, SliceDevice};
use cm_device_disk::{DeviceDisk, HeldDisk, OpenedDevice, ReadError};
use cm_disk::DeviceFault;
use cm_region_disk::{disk_of, most_bytes_a_write};
use cm_verdict::{OpenFault, is_older};
use std::alloc::Global;
use thiserror::Error;

/// The most bytes that a file has.
const LIMIT: u64 = 1 << 40;

/// Why the bytes of a file aren't opened.
#[derive(Clone, Copy, Debug, PartialEq, Eq, Error)]
pub enum BytesFault {
    /// As of [`open`]. `Device` if there are more than 2^40 bytes.
    #[error("{0}")]
    Fault(OpenFault),
    /// The file is of version 1: it has to be upgraded first.
    #[error("a file of version 1")]
    Older,
}

// The bytes of a file as a disk, and the longest write that its cache will make.
#[derive(Drop)]
struct ReadBytes<'a> {
    disk: DeviceDisk<SliceDevice<'a>, DeviceFault>,
    room: usize,
}

fn of_read_error(error: ReadError<DeviceFault>) -> OpenFault {
    match error {
        ReadError::Device(_) => OpenFault::Device,
        ReadError::NoMemory => OpenFault::NoMemory,
    }
}

// Reads what opening the cache reads: the superblock, both halves, and the records that live.
fn read_bytes(alloc: Global, bytes: &[u8]) -> Result<ReadBytes<'_>, OpenFault>
    ensures { IfOk result (λ r. length (disk_contents r.disk) ≡ length bytes.now) }
{
    let len = bytes.len() as u64;
    if len > LIMIT {
        return Err(OpenFault::Device);
    }
    let opened = match OpenedDevice::of_device(alloc, SliceDevice::new(bytes), len) {
        Ok(opened) => opened,
        Err(error) => return Err(of_read_error(error)),
    };
    let room = most_bytes_a_write(opened.beginning()) as usize;
    match disk_of(alloc, opened) {
        Ok(disk) => Ok(ReadBytes { disk, room }),
        Err(error) => Err(of_read_error(error)),
    }
}

// A file of version 1 may only be opened once it was upgraded, so no fault is passed over.
fn refuse_older(
    alloc: Global,
    disk: &DeviceDisk<SliceDevice<'_>, DeviceFault>,
) -> Result<(), BytesFault>
    ensures { OnOk result (IsUpToDate (disk_contents disk.now)) }
{
    match is_older(alloc, &mut HeldDisk::of(disk)) {
        Ok(true) => Err(BytesFault::Older),
        Ok(false) => Ok(()),
        Err(fault) => Err(BytesFault::Fault(fault)),
    }
}

/// Opens the cache of these bytes, as [`open`] does. They are read in this call alone.
///
/// # Errors
/// [`BytesFault::Older`] if the half that counts is of version 1. Otherwise exactly the verdict on
/// the bytes; `NoMemory` if an allocation failed.
pub fn open_bytes(alloc: Global, bytes: &[u8]) -> Result<SteppedSession<DeferredDisk>, BytesFault>
    ensures { IfOk result (λ s. (contents : List ℕ) × (length contents ≡ length bytes.now)
        × IsUpToDate contents × Begins contents s) }
{
    let ReadBytes { disk, room } = match read_bytes(alloc, bytes) {
        Ok(read) => read,
        Err(fault) => return Err(BytesFault::Fault(fault)),
    };
    refuse_older(alloc, &disk)?;
    let Ok(note) = LastCall::new(alloc, room) else {
        return Err(BytesFault::Fault(OpenFault::NoMemory));
    };
    match open(alloc, disk.with_device(note)) {
        Ok(session) => Ok(session),
        Err(not_opened) => Err(BytesFault::Fault(not_opened.fault)),
    }
}

/// The bytes of a file as a disk that lists its calls.
pub(crate) fn listed_disk(alloc: Global, bytes: &[u8]) -> Result<ListedDisk, OpenFault>
    ensures { IfOk result (λ d. length (disk_contents d) ≡ length bytes.now) }
{
    let read = read_bytes(alloc, bytes)?;
    Ok(read.disk.with_device(ListedCalls::new(alloc)))
}
