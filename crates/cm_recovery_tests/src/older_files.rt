//! Files of version 1 are upgraded when they are opened.

use crate::file_samples::{file_of_two, put};
use cm_disk::{Choice, FuseDisk, SimDisk};
use cm_maintenance::check;
use cm_recover::{NotOpened, open};
use cm_samples::{bytes_of, disk_of, new_disk, small_geometry};
use cm_verdict::{Damage, FileFault, OpenFault};
use std::alloc::Global;
use std::test::*;

/// Where the halves begin, of 256 slots each.
const HALF_0: usize = 4_096;

const HALF_1: usize = 20_480;

/// The position of the version in a head.
const VERSION_AT: usize = 2;

/// How many calls opening the file of two classes takes if it isn't upgraded: a sync, the length,
/// the superblock, both halves, the length again, and two records.
const CALLS: u64 = 8;

/// The number of the last command, and how many words the records of `A` and `B` have.
type Told = Result<(u64, [u32; 2]), OpenFault>;

const WHOLE: Told = Ok((3, [16, 20]));

/// The file of two classes, with this version in its half.
fn file_of_version(alloc: Global, version: u8) -> Result<Vec<u8>, Fail> {
    let mut file = file_of_two(alloc)?;
    put(&mut file, HALF_0 + VERSION_AT, version);
    Ok(file)
}

/// What a file is opened as if a call fails after this many, and its disk.
fn open_fused(alloc: Global, disk: SimDisk, pass: u64, stores: usize) -> (Told, SimDisk) {
    match open(alloc, FuseDisk::new(disk, pass, stores)) {
        Ok((front, committer)) => {
            let words = |class| front.find(b"a", class).map_or(0, |record| record.words());
            let told = (committer.number(), [words(b"A"), words(b"B")]);
            (Ok(told), committer.into_disk().into_inner())
        }
        Err(NotOpened { fault, disk }) => (Err(fault), disk.into_inner()),
    }
}

/// What it is opened as if no call fails.
fn open_whole(alloc: Global, disk: SimDisk) -> (Told, SimDisk) {
    open_fused(alloc, disk, 100, 0)
}

/// What a head says: its gate, version, live rows, epoch and base.
fn head_at(bytes: &[u8], at: usize) -> Option<[u8; 5]> {
    let slot = bytes.get(at..)?;
    Some([
        *slot.first()?,
        *slot.get(2)?,
        *slot.get(4)?,
        *slot.get(8)?,
        *slot.get(16)?,
    ])
}

#[test]
fn an_older_file_is_moved_over(rt: HostRuntime) -> Result<(), Fail> {
    let alloc = rt.alloc();
    let (told, mut disk) = open_whole(alloc, disk_of(alloc, &file_of_version(alloc, 1)?)?);
    assert_eq!(rt; told, WHOLE);
    let bytes = bytes_of(alloc, &mut disk)?;
    assert_eq!(rt; head_at(&bytes, HALF_0), Some([0xA5, 1, 0, 1, 0]));
    assert_eq!(rt; head_at(&bytes, HALF_1), Some([0xA5, 2, 3, 2, 3]));
    // now it is only synced and read
    let (told, mut disk) = open_fused(alloc, disk, CALLS, 0);
    assert_eq!(rt; told, WHOLE);
    assert!(rt; bytes_of(alloc, &mut disk)? == bytes);
    Ok(())
}

#[test]
fn moving_over_takes_six_calls(rt: HostRuntime) -> Result<(), Fail> {
    let alloc = rt.alloc();
    for (version, calls) in [(2, CALLS), (1, CALLS + 6)] {
        let file = file_of_version(alloc, version)?;
        let (told, _) = open_fused(alloc, disk_of(alloc, &file)?, calls - 1, 0);
        assert_eq!(rt; told, Err(OpenFault::Device));
        let (told, _) = open_fused(alloc, disk_of(alloc, &file)?, calls, 0);
        assert_eq!(rt; told, WHOLE);
    }
    Ok(())
}

/// How long the file is that a crash leaves, and what its unsynced bytes are.
const LEFT: [(u64, &[u8]); 5] = [
    (0, b""),
    (1 << 40, b""),
    (0, b"\0\0\0\0\0\0\0\0\0\0"),
    (1 << 40, b"\xFF\xFF\xFF\xFF\xFF\xFF\xFF"),
    (1 << 40, b"\xA5\xA5\xA5\xA5\xA5"),
];

/// The result of opening after a call failed and a crash came.
fn open_after(alloc: Global, pass: u64, left: (u64, &[u8])) -> Result<Told, Fail> {
    let file = file_of_version(alloc, 1)?;
    let (_, mut disk) = open_fused(alloc, disk_of(alloc, &file)?, pass, 3);
    disk.disarm();
    let choice = Choice {
        len: left.0,
        fill: Vec::from_slice(alloc, left.1)?,
    };
    let (told, _) = open_whole(alloc, disk.crash(alloc, &choice)?);
    Ok(told)
}

#[test]
fn a_stop_while_it_is_moved_over_loses_nothing(rt: HostRuntime) -> Result<(), Fail> {
    for pass in 0..=CALLS + 6 {
        for left in LEFT {
            let told = open_after(rt.alloc(), pass, left)?;
            assert_eq!(rt; told, WHOLE, "after {pass} calls");
        }
    }
    Ok(())
}

#[test]
fn an_empty_older_file_is_moved_over(rt: HostRuntime) -> Result<(), Fail> {
    let alloc = rt.alloc();
    let mut disk = new_disk(alloc, small_geometry())?;
    let mut file = bytes_of(alloc, &mut disk)?;
    assert_eq!(rt; head_at(&file, HALF_0), Some([0xA5, 2, 0, 1, 0]));
    put(&mut file, HALF_0 + VERSION_AT, 1);
    let (told, mut disk) = open_whole(alloc, disk_of(alloc, &file)?);
    assert_eq!(rt; told, Ok((0, [0, 0])));
    let bytes = bytes_of(alloc, &mut disk)?;
    assert_eq!(rt; head_at(&bytes, HALF_1), Some([0xA5, 2, 0, 2, 0]));
    Ok(())
}

/// The result of checking the file with this version, and another byte at a position.
fn check_with(alloc: Global, version: u8, at: usize, byte: u8) -> Result<Option<OpenFault>, Fail> {
    let mut file = file_of_version(alloc, version)?;
    put(&mut file, at, byte);
    let mut disk = disk_of(alloc, &file)?;
    let told = check(alloc, &mut disk).err();
    let is_same = bytes_of(alloc, &mut disk)? == file;
    if is_same {
        Ok(told)
    } else {
        Err("checking writes nothing".into())
    }
}

#[test]
fn an_older_file_keeps_its_rules(rt: HostRuntime) -> Result<(), Fail> {
    let alloc = rt.alloc();
    let head = Some(OpenFault::File(FileFault::Damaged {
        what: Damage::Head,
        slot: 0,
    }));
    // its epoch is at most one above its base
    assert_eq!(rt; check_with(alloc, 1, HALF_0 + 8, 1)?, None);
    assert_eq!(rt; check_with(alloc, 1, HALF_0 + 8, 2)?, head);
    assert_eq!(rt; check_with(alloc, 2, HALF_0 + 8, 2)?, None);
    // a name of 49 bytes isn't allowed
    let slot = Some(OpenFault::File(FileFault::Damaged {
        what: Damage::Slot,
        slot: 2,
    }));
    assert_eq!(rt; check_with(alloc, 1, HALF_0 + 2 * 64 + 2, 49)?, slot);
    Ok(())
}
