use crate::held::fill;
use cm_disk::{DeviceFault, Disk, SimDisk};
use std::test::Fail;

// All eight bytes, and three of them.
fn whole_and_part(disk: &mut SimDisk) -> Result<([u8; 8], [u8; 3]), DeviceFault> {
    if disk.len()? != 8 {
        return Err(DeviceFault);
    }
    let mut whole = [0; 8];
    disk.read(0, &mut whole)?;
    let mut part = [0; 3];
    disk.read(3, &mut part)?;
    Ok((whole, part))
}

/// Writes six letters, four that overlap their end, and one in the middle.
fn write_over_and_past(disk: &mut SimDisk) -> Result<(), DeviceFault> {
    fill(disk)?;
    disk.write_at(4, b"WXYZ")?;
    disk.write_at(1, b"-")?;
    disk.sync()
}

#[test]
fn writes_over_and_past_the_end(rt: HostRuntime) -> Result<(), Fail> {
    let mut disk = SimDisk::new(rt.alloc());
    assert_eq!(rt; disk.len(), Ok(0));
    write_over_and_past(&mut disk)?;
    assert!(rt; !disk.was_refused());
    assert_eq!(rt; whole_and_part(&mut disk)?, (*b"a-cdWXYZ", *b"dWX"));
    Ok(())
}

/// How many syncs there were after each sync, and the length after a cut and after a write of
/// no bytes.
fn cut_and_count(disk: &mut SimDisk) -> Result<([u64; 3], [u64; 2]), DeviceFault> {
    fill(disk)?;
    let none = disk.syncs();
    disk.sync()?;
    let one = disk.syncs();
    disk.cut(2)?;
    let cut = disk.len()?;
    disk.sync()?;
    let two = disk.syncs();
    disk.write_at(2, b"")?;
    Ok(([none, one, two], [cut, disk.len()?]))
}

#[test]
fn cuts_and_counts_syncs(rt: HostRuntime) -> Result<(), Fail> {
    let mut disk = SimDisk::new(rt.alloc());
    assert_eq!(rt; cut_and_count(&mut disk)?, ([0, 1, 2], [2, 2]));
    Ok(())
}
