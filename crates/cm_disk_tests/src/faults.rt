use crate::held::{fill, hold_record};
use cm_disk::{Disk, FuseDisk, SimDisk};
use std::test::Fail;

/// Whether exactly the calls fail for which the disk is armed.
fn fails_where_armed(disk: &mut SimDisk) -> bool {
    let is_filled = fill(disk).is_ok();
    disk.arm(2);
    let writes = disk.write_at(0, b"WXYZ").is_ok() || disk.was_refused();
    disk.arm(0);
    let syncs = disk.sync().is_ok();
    disk.arm(0);
    let tells_len = disk.len().is_ok();
    is_filled && !writes && !syncs && !tells_len
}

#[test]
fn an_armed_call_fails_and_the_next_does_not(rt: HostRuntime) -> Result<(), Fail> {
    let alloc = rt.alloc();
    let mut disk = SimDisk::new(alloc);
    assert!(rt; fails_where_armed(&mut disk));
    disk.arm(0);
    disk.disarm();
    let bytes = hold_record(alloc, &mut disk)?;
    assert_eq!(rt; bytes.as_slice(), b"WXcdef".as_slice());
    assert_eq!(rt; disk.syncs(), 0);
    Ok(())
}

/// Whether a write, a sync and a query of the length are let through, and nothing after them.
fn lets_three_through(disk: &mut FuseDisk) -> bool {
    let are_through = fill(disk).is_ok() && disk.sync().is_ok() && disk.len() == Ok(6);
    are_through && fill(disk).is_err() && disk.sync().is_err()
}

#[test]
fn a_fuse_lets_so_many_calls_through(rt: HostRuntime) -> Result<(), Fail> {
    let mut fuse = FuseDisk::new(SimDisk::new(rt.alloc()), 3, 1);
    assert!(rt; lets_three_through(&mut fuse));
    let mut disk = fuse.into_inner();
    disk.disarm();
    assert_eq!(rt; disk.len(), Ok(6));
    assert_eq!(rt; disk.syncs(), 1);
    Ok(())
}
