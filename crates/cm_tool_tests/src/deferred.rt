//! A cache in memory, whose calls are left to the caller.

use crate::disks::replies;
use cm_deferred_disk::{Call, DeferredDisk, LastCall, ListedCalls, ListedDisk, SliceDevice};
use cm_device_disk::OpenedDevice;
use cm_pool::Geometry;
use cm_recover::format;
use cm_region_disk::{disk_of, most_bytes_a_write};
use std::alloc::{AllocError, Global};
use std::test::*;

/// Makes the calls of formatting on bytes in memory.
fn overwrite(bytes: &mut Vec<u8>, at: u64, written: &[u8]) -> Result<(), AllocError> {
    for (offset, byte) in written.iter().enumerate() {
        let place = (at as usize).saturating_add(offset);
        if place < bytes.len() {
            bytes[place] = *byte;
        } else {
            bytes.push(*byte)?;
        }
    }
    Ok(())
}

/// The bytes of an empty cache, as the calls that are listed make them.
fn bytes_of(alloc: Global, calls: &ListedCalls) -> Result<Vec<u8>, AllocError> {
    let mut bytes = Vec::new(alloc);
    for index in 0..calls.len() {
        if let Some(Call::Write { at, bytes: written }) = calls.get(index) {
            overwrite(&mut bytes, at, written)?;
        }
    }
    Ok(bytes)
}

/// A new cache with 256 slots in each half.
fn formatted(alloc: Global) -> Result<Vec<u8>, Fail> {
    let geometry = Geometry::new(8, 64, 256).ok_or("a geometry")?;
    let mut disk = ListedDisk::of_empty(alloc, ListedCalls::new(alloc));
    if format(alloc, &mut disk, geometry).is_err() {
        return Err("a new cache".into());
    }
    Ok(bytes_of(alloc, disk.device())?)
}

/// The disk of the cache that these bytes are.
fn opened(alloc: Global, bytes: &[u8]) -> Result<DeferredDisk, Fail> {
    let len = bytes.len() as u64;
    if len > 1 << 40 {
        return Err("too long".into());
    }
    let opened = OpenedDevice::of_device(alloc, SliceDevice::new(bytes), len)?;
    let room = most_bytes_a_write(opened.beginning()) as usize;
    Ok(disk_of(alloc, opened)?.with_device(LastCall::new(alloc, room)?))
}

/// The first 4,096 bytes, or all if there are fewer.
fn beginning(bytes: &[u8]) -> &[u8] {
    match bytes.get(..4_096) {
        Some(first) => first,
        None => bytes,
    }
}

#[test]
fn a_cache_in_memory_is_used_by_calls_alone(rt: HostRuntime) -> Result<(), Fail> {
    let bytes = formatted(rt.alloc())?;
    assert_eq!(rt; bytes.len(), 36_864);
    assert_eq!(rt; most_bytes_a_write(beginning(&bytes)), 262_144);
    let disk = opened(rt.alloc(), &bytes)?;
    let (told, outcome, disk) = replies(rt.alloc(), b"loader a\nloader b\n", disk);
    assert!(rt; outcome.is_ok());
    assert_eq!(rt; told.as_slice(), b"ok 1\nok 2\n".as_slice());
    assert!(rt; matches!(disk.device().call(), Some(Call::Sync)));
    Ok(())
}
