//! What reaches the file, and what is read from it.
ghost use Rattle.std.specs.Prelude.{◌≤◌, ◌<◌, ◌+◌, ◌^◌, ℕ, length};

use cm_disk::{DeviceFault, Disk};
use cm_file_disk::{FileDisk, OpenError, OpenedFile};
use std::fs;
use std::test::*;

/// The disk of a file with its first bytes, up to this many.
fn open_up_to(rt: &HostRuntime, path: &str, reach: u64) -> Result<FileDisk, OpenError> {
    let opened = cm_file_disk::open(rt, rt.alloc(), path)?;
    Ok(FileDisk::of_opened(opened.read_on(rt.alloc(), reach)?))
}

/// Stores eight bytes with two writes, and cuts off the last one.
fn store_seven(disk: &mut FileDisk) -> Result<(), DeviceFault> {
    if disk.len()? != 0 {
        return Err(DeviceFault);
    }
    disk.write_at(0, b"abcdef")?;
    disk.write_at(4, b"WXYZ")?;
    disk.sync()?;
    disk.cut(7)?;
    disk.sync()
}

/// The four bytes in the middle, and the last one, which is read after a sync.
fn middle_and_end(disk: &mut FileDisk) -> Result<([u8; 4], [u8; 1]), DeviceFault> {
    if disk.len()? != 7 {
        return Err(DeviceFault);
    }
    let mut middle = [0; 4];
    disk.read(2, &mut middle)?;
    disk.sync()?;
    let mut end = [0; 1];
    disk.read(6, &mut end)?;
    Ok((middle, end))
}

/// Whether the disk holds the seven bytes, and no call failed.
fn holds_seven(disk: &mut FileDisk) -> Result<bool, DeviceFault> {
    let parts = middle_and_end(disk)?;
    Ok(parts == (*b"cdWX", *b"Y") && disk.cause().is_none())
}

#[test]
fn stored_bytes_are_read_when_it_is_opened_again(rt: HostRuntime) -> Result<(), Fail> {
    let path = "cm_file_disk_stored.tmp";
    let _ = fs::remove_file(&rt, path);
    let mut disk = cm_file_disk::create(&rt, rt.alloc(), path)?;
    store_seven(&mut disk)?;
    assert_eq!(rt; disk.len(), Ok(7));
    drop(disk);
    for _ in 0..2 {
        let mut disk = open_up_to(&rt, path, u64::MAX)?;
        assert!(rt; holds_seven(&mut disk)?);
    }
    fs::remove_file(&rt, path)?;
    Ok(())
}

/// Makes each byte differ from its neighbours, with no period of a power of two.
fn count_up(bytes: &mut [u8]) {
    for (i, byte) in bytes.iter_mut().enumerate() {
        *byte = (i % 251) as u8;
    }
}

/// Writes these bytes over the last three of ten, and returns the length.
fn write_behind_seven(disk: &mut FileDisk, bytes: &[u8]) -> Result<u64, DeviceFault>
    requires within_limit { 7 + length bytes.now ≤ 2 ^ 40 }
{
    disk.write_at(0, b"0123456789")?;
    disk.write_at(7, bytes)?;
    disk.len()
}

fn is_behind_seven(held: &[u8], bytes: &[u8]) -> bool {
    held.strip_prefix(b"0123456")
        .is_some_and(|rest| rest == bytes)
}

#[test]
fn a_write_of_many_pieces_is_written_whole(rt: HostRuntime) -> Result<(), Fail> {
    let path = "cm_file_disk_pieces.tmp";
    let _ = fs::remove_file(&rt, path);
    let mut bytes = Vec::from_elem(rt.alloc(), 0u8, 200_000)?;
    count_up(&mut bytes);
    let mut disk = cm_file_disk::create(&rt, rt.alloc(), path)?;
    assert_eq!(rt; write_behind_seven(&mut disk, &bytes)?, 200_007);
    let held = fs::read(&rt, path)?;
    assert!(rt; is_behind_seven(&held, &bytes));
    fs::remove_file(&rt, path)?;
    Ok(())
}

/// Whether a write drops the bytes that were read, but keeps the length and causes no failure.
fn gives_up_bytes_alone(disk: &mut FileDisk) -> Result<bool, DeviceFault> {
    if disk.len()? != 6 {
        return Ok(false);
    }
    let mut byte = [0; 1];
    disk.read(0, &mut byte)?;
    disk.write_at(1, b"X")?;
    let is_given_up = disk.read(0, &mut byte).is_err();
    Ok(is_given_up && disk.len() == Ok(6) && disk.cause().is_none())
}

#[test]
fn a_write_gives_the_bytes_up_and_leaves_the_length(rt: HostRuntime) -> Result<(), Fail> {
    let path = "cm_file_disk_given_up.tmp";
    fs::write(&rt, path, b"abcdef".as_slice())?;
    let mut disk = open_up_to(&rt, path, u64::MAX)?;
    assert!(rt; gives_up_bytes_alone(&mut disk)?);
    // This is no failure of the file: later calls still reach it.
    assert_eq!(rt; disk.len(), Ok(6));
    disk.write_at(6, b"g")?;
    disk.sync()?;
    assert_eq!(rt; fs::read_to_string(&rt, path)?.as_str(), "aXcdefg");
    fs::remove_file(&rt, path)?;
    Ok(())
}

/// Whether the last of the held bytes is read, and none after them.
fn is_read_up_to(disk: &mut FileDisk, bytes: &[u8], held: u64) -> Result<bool, DeviceFault>
    requires within { length bytes.now < 2 ^ 40 }
{
    if disk.len()? != bytes.len() as u64 || held == 0 || held >= bytes.len() as u64 {
        return Ok(false);
    }
    let mut byte = [0; 1];
    disk.read(held - 1, &mut byte)?;
    let is_held = byte[0] == bytes[held as usize - 1];
    Ok(is_held && disk.read(held, &mut byte).is_err())
}

/// Whether the length is known, and one more byte can be written at the end, which is then cut off.
/// A read that fails is no failure of the file.
fn grows_by_one(disk: &mut FileDisk) -> Result<bool, DeviceFault> {
    let len = disk.len()?;
    if len > 1 << 30 {
        return Ok(false);
    }
    disk.write_at(len, b"x")?;
    let longer = disk.len()?;
    if longer != len + 1 {
        return Ok(false);
    }
    disk.cut(len)?;
    Ok(true)
}

/// Whether the length is that of these bytes, and the first 4,096 of them were read.
fn begins_as(opened: &OpenedFile, bytes: &[u8]) -> bool {
    let beginning = opened.beginning();
    opened.len() == bytes.len() as u64 && beginning.len() == 4096 && bytes.starts_with(beginning)
}

#[test]
fn a_long_file_is_read_as_far_as_asked(rt: HostRuntime) -> Result<(), Fail> {
    let path = "cm_file_disk_long.tmp";
    let mut bytes = Vec::from_elem(rt.alloc(), 0u8, 10_000)?;
    count_up(&mut bytes);
    fs::write(&rt, path, bytes.as_slice())?;
    for (reach, held) in [(0, 4096), (4096, 4096), (4097, 4097), (9_999, 9_999)] {
        let mut disk = open_up_to(&rt, path, reach)?;
        assert!(rt; is_read_up_to(&mut disk, &bytes, held)?, "up to {reach}");
        assert!(rt; grows_by_one(&mut disk)?);
    }
    let opened = cm_file_disk::open(&rt, rt.alloc(), path)?;
    assert!(rt; begins_as(&opened, &bytes));
    fs::remove_file(&rt, path)?;
    Ok(())
}
