//! Reports on files that aren't opened.

use crate::maintenance_disks::{Verb, cache_after, changed_cache, shortened_cache, status_of};
use cm_disk::{FuseDisk, SimDisk};
use cm_maintenance::Status;
use cm_samples::{new_disk, small_geometry};
use std::alloc::Global;
use std::test::*;

/// Whether this line is reported about a disk, with the status for a refusal.
fn is_refused(alloc: Global, verb: Verb, disk: SimDisk, line: &[u8]) -> Result<bool, Fail> {
    let (status, is_told, _disk) = status_of(alloc, verb, disk, line)?;
    Ok(status == Status::Refused && is_told)
}

/// The position of a byte of the empty cache, its new value, and what is then reported.
const CHANGES: [(u64, u8, &[u8]); 8] = [
    // the first bytes, and the gate of the superblock
    (0, b'c', b"not a cache\n"),
    (4_095, 0, b"not a cache\n"),
    // its version, its greatest order, and a byte that is 0
    (8, 2, b"damaged 1 0\n"),
    (12, 13, b"damaged 1 0\n"),
    (4_094, 1, b"damaged 1 0\n"),
    // the gate of the half's head, and its count of live slots
    (4_096, 0, b"damaged 3 0\n"),
    (4_100, 255, b"damaged 4 0\n"),
    // the gate of a group whose head is missing
    (4_160, 0xA5, b"damaged 4 1\n"),
];

#[test]
fn damaged_files_are_refused(rt: HostRuntime) -> Result<(), Fail> {
    let alloc = rt.alloc();
    for (at, byte, line) in &CHANGES {
        for verb in [Verb::Check, Verb::List, Verb::Trim] {
            let is_refused = is_refused(alloc, verb, changed_cache(alloc, *at, *byte)?, line)?;
            assert!(rt; is_refused, "{byte} at {at}");
        }
    }
    Ok(())
}

/// The length of the beginning of a cache, and what is reported about it.
const BEGINNINGS: [(u64, &[u8]); 4] = [
    (0, b"not a cache\n"),
    (4_095, b"not a cache\n"),
    (4_096, b"damaged 2 0\n"),
    (36_863, b"damaged 2 0\n"),
];

#[test]
fn short_files_are_refused(rt: HostRuntime) -> Result<(), Fail> {
    let alloc = rt.alloc();
    for (len, line) in &BEGINNINGS {
        for verb in [Verb::Check, Verb::List, Verb::Trim] {
            let is_refused = is_refused(alloc, verb, shortened_cache(alloc, *len)?, line)?;
            assert!(rt; is_refused, "{len} bytes");
        }
    }
    Ok(())
}

/// The status of a report on a cache of one class if the device fails after this many calls, and
/// whether it is these lines or that the device failed.
fn tell_behind(alloc: Global, verb: Verb, pass: u64, lines: &[u8]) -> Result<(Status, bool), Fail> {
    let disk = cache_after(alloc, b"loader app\ndefine app <0141>\n")?;
    let (status, is_told, _disk) = status_of(alloc, verb, FuseDisk::new(disk, pass, 0), lines)?;
    Ok((status, is_told))
}

/// The device fails at one call after another, until all succeed.
#[test]
fn a_failing_device_is_told(rt: HostRuntime) -> Result<(), Fail> {
    let alloc = rt.alloc();
    let report = b"ok loaders 1 classes 1 chunks 1 number 2\n";
    let lines = b"loader app\nclass A words 16 root 0 at 0\n";
    for pass in 0..100 {
        let (check, is_checked) = tell_behind(alloc, Verb::Check, pass, report)?;
        let (list, is_listed) = tell_behind(alloc, Verb::List, pass, lines)?;
        assert!(rt; is_checked && is_listed, "{pass} calls");
        if list == Status::Done {
            assert_eq!(rt; check, Status::Done);
            assert!(rt; pass > 2);
            return Ok(());
        }
        assert_eq!(rt; list, Status::Failed);
        assert!(rt; check != Status::Refused);
    }
    Err("no run met no failure".into())
}

/// The status of a check of a disk that fails, and that of a check when it no longer fails.
fn check_twice(alloc: Global, disk: FuseDisk) -> Result<[Status; 2], Fail> {
    let (failed, _, disk) = status_of(alloc, Verb::Check, disk, b"")?;
    let mut disk = disk.into_inner();
    disk.disarm();
    let (done, _, _disk) = status_of(alloc, Verb::Check, disk, b"")?;
    Ok([failed, done])
}

#[test]
fn a_disk_that_failed_is_given_back(rt: HostRuntime) -> Result<(), Fail> {
    let fuse = FuseDisk::new(new_disk(rt.alloc(), small_geometry())?, 0, 0);
    let statuses = check_twice(rt.alloc(), fuse)?;
    assert_eq!(rt; statuses, [Status::Failed, Status::Done]);
    Ok(())
}
