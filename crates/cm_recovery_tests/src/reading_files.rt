//! What is found in a file by reads, and which damage is reported first.

use crate::found::Found::{Damaged, NotACache, Sound};
use crate::found::{EMPTY, Found, NEW, Summary, find_in};
use cm_disk::{Disk, FuseDisk, SimDisk};
use cm_samples::{least_geometry, new_disk};
use cm_verdict::{Damage, OpenFault};
use std::alloc::Global;
use std::test::*;

type Told = Result<Summary, OpenFault>;

/// The position of a byte of a new file, its new value, and what is then found.
const CHANGES: [(u64, u8, Found<Summary>); 9] = [
    (0, b'C', Sound(NEW)),
    (0, b'c', NotACache),
    (4_095, 0xA4, NotACache),
    (8, 2, Damaged(Damage::Superblock, 0)),
    (21, 2, Damaged(Damage::Length, 0)),
    // the gates of both halves, and of a group
    (4_096, 0, Damaged(Damage::Halves, 0)),
    (20_480, 0xA5, Damaged(Damage::Head, 256)),
    (4_160, 0xA5, Damaged(Damage::Head, 1)),
    (4_160, 0xA4, Sound(NEW)),
];

fn change(disk: &mut SimDisk, at: u64, byte: u8) -> Result<(), Fail> {
    if at < 40_000 && at < disk.len()? {
        disk.write_at(at, &[byte])?;
    }
    Ok(())
}

fn find_with(alloc: Global, at: u64, byte: u8) -> Result<Told, Fail> {
    let mut disk = new_disk(alloc, least_geometry())?;
    change(&mut disk, at, byte)?;
    Ok(find_in(alloc, &mut disk))
}

#[test]
fn the_first_damage_is_told(rt: HostRuntime) -> Result<(), Fail> {
    for (at, byte, found) in &CHANGES {
        let told = find_with(rt.alloc(), *at, *byte)?;
        assert_eq!(rt; told, found.on_disk(), "{byte} at {at}");
    }
    Ok(())
}

fn cut(disk: &mut SimDisk, len: u64) -> Result<(), Fail> {
    if len <= disk.len()? {
        disk.cut(len)?;
    }
    Ok(())
}

fn find_short(alloc: Global, len: u64) -> Result<Told, Fail> {
    let mut disk = new_disk(alloc, least_geometry())?;
    cut(&mut disk, len)?;
    Ok(find_in(alloc, &mut disk))
}

/// How long the beginning of a new file is, and what is found in it.
const BEGINNINGS: [(u64, Found<Summary>); 5] = [
    (0, NotACache),
    (4_095, NotACache),
    (4_096, Damaged(Damage::Length, 0)),
    (36_863, Damaged(Damage::Length, 0)),
    (36_864, Sound(NEW)),
];

#[test]
fn a_short_file_is_no_cache_or_damaged(rt: HostRuntime) -> Result<(), Fail> {
    for (len, found) in &BEGINNINGS {
        let told = find_short(rt.alloc(), *len)?;
        assert_eq!(rt; told, found.on_disk(), "{len} bytes");
    }
    Ok(())
}

/// What is found if a call fails after this many, and then if none does, with the syncs.
fn find_behind(alloc: Global, pass: u64) -> Result<(Told, Told, u64), Fail> {
    let mut fuse = FuseDisk::new(new_disk(alloc, least_geometry())?, pass, 0);
    let broken = find_in(alloc, &mut fuse);
    let mut disk = fuse.into_inner();
    disk.disarm();
    let whole = find_in(alloc, &mut disk);
    Ok((broken, whole, disk.syncs()))
}

#[test]
fn a_failing_read_is_told(rt: HostRuntime) -> Result<(), Fail> {
    for pass in 0..4 {
        let found = find_behind(rt.alloc(), pass)?;
        assert_eq!(rt; found, (Err(OpenFault::Device), EMPTY, 2));
    }
    Ok(())
}
