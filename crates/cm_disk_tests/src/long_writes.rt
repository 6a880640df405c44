//! Writes that are longer than any that a cache makes: a root has at most 4 MiB.

use crate::held::hold_record;
use cm_disk::{Choice, DeviceFault, Disk, SimDisk};
use std::alloc::{AllocError, Global};
use std::test::Fail;

/// How many bytes are written at once.
const LONG: usize = 5 << 20;

/// Where the second kind of byte begins, and how many bytes a torn write stores.
const MIDDLE: usize = 9 << 19;

fn long_bytes(alloc: Global, middle: usize, long: usize) -> Result<Vec<u8>, AllocError> {
    let mut bytes = Vec::from_elem(alloc, 1, middle)?;
    bytes.resize(long, 2)?;
    Ok(bytes)
}

fn write(disk: &mut SimDisk, bytes: &[u8]) -> Result<(), DeviceFault> {
    if bytes.len() > LONG {
        return Err(DeviceFault);
    }
    disk.write_at(0, bytes)
}

/// Whether a write is read back, also once it is durable and the machine was stopped.
fn is_read_back(alloc: Global, bytes: &[u8]) -> Result<bool, Fail> {
    let mut disk = SimDisk::new(alloc);
    write(&mut disk, bytes)?;
    let written = hold_record(alloc, &mut disk)?;
    disk.sync()?;
    let none = Choice {
        len: 0,
        fill: Vec::new(alloc),
    };
    let mut left = disk.crash(alloc, &none)?;
    let stored = hold_record(alloc, &mut left)?;
    Ok(written.as_slice() == bytes && stored.as_slice() == bytes)
}

/// Whether a write that is to fail stores this many of its bytes, and no more.
fn is_torn(alloc: Global, bytes: &[u8], stores: usize) -> Result<bool, Fail> {
    let mut disk = SimDisk::new(alloc);
    disk.arm(stores);
    let fails = write(&mut disk, bytes).is_err() && !disk.was_refused();
    let held = hold_record(alloc, &mut disk)?;
    Ok(fails && bytes.get(..stores) == Some(held.as_slice()))
}

#[test]
fn long_writes_are_read_back_or_torn(rt: HostRuntime) -> Result<(), Fail> {
    let bytes = long_bytes(rt.alloc(), MIDDLE, LONG)?;
    assert!(rt; is_read_back(rt.alloc(), &bytes)?);
    assert!(rt; is_torn(rt.alloc(), &bytes, MIDDLE)?);
    Ok(())
}
