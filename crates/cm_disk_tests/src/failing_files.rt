//! Files that can't be written to.

use cm_disk::{DeviceFault, Disk};
use cm_file_disk::FileDisk;
use std::test::*;
use std::{fs, io};

fn kind_of_cause(disk: &FileDisk) -> Option<io::ErrorKind> {
    disk.cause().map(|error| error.kind())
}

/// Whether every call fails.
fn is_lost(disk: &mut FileDisk) -> bool {
    disk.len().is_err()
        && disk.write_at(0, b"").is_err()
        && disk.sync().is_err()
        && disk.cut(0).is_err()
        && disk.read(0, &mut []).is_err()
}

/// Whether the disk holds six letters.
fn holds_letters(disk: &mut FileDisk) -> Result<bool, DeviceFault> {
    if disk.len()? != 6 {
        return Ok(false);
    }
    let mut bytes = [0; 6];
    disk.read(0, &mut bytes)?;
    disk.sync()?;
    Ok(bytes == *b"abcdef")
}

/// Whether a change fails, and every call after it, for the same cause.
fn fails_for_good(disk: &mut FileDisk, cuts: bool) -> bool {
    let is_changed = if cuts {
        disk.cut(0).is_ok()
    } else {
        disk.write_at(0, b"X").is_ok()
    };
    let cause = kind_of_cause(disk);
    !is_changed && cause.is_some() && is_lost(disk) && kind_of_cause(disk) == cause
}

#[test]
fn after_a_write_that_failed_every_call_fails(rt: HostRuntime) -> Result<(), Fail> {
    let path = "cm_file_disk_read_only.tmp";
    fs::write(&rt, path, b"abcdef".as_slice())?;
    for cuts in [false, true] {
        let opened = cm_file_disk::open_read_only(&rt, rt.alloc(), path)?;
        let mut disk = FileDisk::of_opened(opened.read_on(rt.alloc(), u64::MAX)?);
        assert!(rt; holds_letters(&mut disk)?);
        assert!(rt; fails_for_good(&mut disk, cuts));
        assert_eq!(rt; fs::read_to_string(&rt, path)?.as_str(), "abcdef");
    }
    fs::remove_file(&rt, path)?;
    Ok(())
}
