//! Disks whose calls are left to the caller.

use cm_deferred_disk::{Call, DeferredDisk, LastCall, ListedCalls, ListedDisk, SliceDevice};
use cm_device_disk::{DeviceDisk, OpenedDevice, ReadError, WordsAhead};
use cm_disk::{DeviceFault, Disk, WordRange};
use std::alloc::Global;
use std::test::*;

/// Whether a write of these bytes to this place was noted.
fn is_write(call: Option<Call<'_>>, place: u64, expected: &[u8]) -> bool {
    matches!(call, Some(Call::Write { at, bytes }) if at == place && bytes == expected)
}

fn is_cut(call: Option<Call<'_>>, expected: u64) -> bool {
    matches!(call, Some(Call::Cut { len }) if len == expected)
}

fn is_sync(call: Option<Call<'_>>) -> bool {
    matches!(call, Some(Call::Sync))
}

/// Two writes, a cut and a sync.
fn change<D: Disk>(disk: &mut D) -> Result<(), DeviceFault> {
    if disk.len()? != 0 {
        return Err(DeviceFault);
    }
    disk.write_at(0, b"abcdef")?;
    disk.write_at(4, b"WXYZ")?;
    disk.cut(7)?;
    disk.sync()
}

fn are_listed(calls: &ListedCalls) -> bool {
    calls.len() == 4
        && is_write(calls.get(0), 0, b"abcdef")
        && is_write(calls.get(1), 4, b"WXYZ")
        && is_cut(calls.get(2), 7)
        && is_sync(calls.get(3))
        && calls.get(4).is_none()
}

#[test]
fn calls_are_listed_in_their_order(rt: HostRuntime) -> Result<(), Fail> {
    let mut disk = ListedDisk::of_empty(rt.alloc(), ListedCalls::new(rt.alloc()));
    change(&mut disk)?;
    assert!(rt; are_listed(disk.device()));
    assert_eq!(rt; disk.len(), Ok(7));
    Ok(())
}

/// Whether each call is noted in place of the one before.
fn notes_each(disk: &mut DeferredDisk) -> Result<bool, DeviceFault> {
    if disk.len()? != 0 || disk.device().call().is_some() {
        return Ok(false);
    }
    disk.write_at(0, b"abcdef")?;
    let is_written = is_write(disk.device().call(), 0, b"abcdef");
    disk.write_at(2, b"X")?;
    let is_written_again = is_write(disk.device().call(), 2, b"X");
    disk.sync()?;
    Ok(is_written && is_written_again && is_sync(disk.device().call()))
}

#[test]
fn the_last_call_is_noted(rt: HostRuntime) -> Result<(), Fail> {
    for room in [0, 6, 100] {
        let device = LastCall::new(rt.alloc(), room)?;
        let mut disk = DeferredDisk::of_empty(rt.alloc(), device);
        assert!(rt; notes_each(&mut disk)?);
    }
    Ok(())
}

/// A disk over bytes in memory, with their last word read.
fn with_last_word(
    alloc: Global,
    bytes: &[u8; 8192],
) -> Result<DeferredDisk, ReadError<DeviceFault>> {
    let opened = OpenedDevice::of_device(alloc, SliceDevice::new(bytes), 8192)?;
    let range = WordRange { at: 8184, count: 1 };
    let disk = DeviceDisk::of_opened(opened).read_words(alloc, &[range], WordsAhead::none(alloc))?;
    Ok(disk.with_device(LastCall::new(alloc, 0)?))
}

/// The last word of 8,192 bytes, if the first 4,096 are read and none between.
fn last_word(alloc: Global, disk: &mut DeferredDisk) -> Result<Option<u64>, DeviceFault> {
    if disk.len()? != 8192 {
        return Ok(None);
    }
    let mut byte = [0; 1];
    disk.read(4095, &mut byte)?;
    if byte != [1] || disk.read(4096, &mut byte).is_ok() {
        return Ok(None);
    }
    let range = WordRange { at: 8184, count: 1 };
    match disk.take_words(alloc, range)? {
        Ok(words) => Ok(words.as_slice().first().copied()),
        Err(_) => Ok(None),
    }
}

#[test]
fn a_slice_is_read_at_opening_alone(rt: HostRuntime) -> Result<(), Fail> {
    let bytes = [1; 8192];
    let mut disk = with_last_word(rt.alloc(), &bytes)?;
    assert_eq!(rt;
        last_word(rt.alloc(), &mut disk)?,
        Some(0x0101_0101_0101_0101)
    );
    disk.sync()?;
    assert!(rt; is_sync(disk.device().call()));
    Ok(())
}

/// A disk that may go to another thread.
fn is_sendable<D: Disk + Send + Drop>(_disk: &D) -> bool {
    true
}

#[test]
fn a_deferred_disk_may_go_to_another_thread(rt: HostRuntime) -> Result<(), Fail> {
    let disk = DeferredDisk::of_empty(rt.alloc(), LastCall::new(rt.alloc(), 8)?);
    assert!(rt; is_sendable(&disk));
    Ok(())
}
