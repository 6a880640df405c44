//! What is reported about files that hold a cache.

use crate::stored_calls::Call::{Define, Loader, Tighten, Unload, UnloadAll};
use crate::stored_calls::{Call, disk_after};
use cm_disk::{Disk, FuseDisk, SimDisk};
use cm_maintenance::{Report, check};
use cm_samples::{bytes_of, disk_of};
use cm_verdict::OpenFault;
use std::alloc::Global;
use std::test::*;

const fn report(
    loaders: usize,
    classes: usize,
    chunks: usize,
    number: u64,
) -> Result<Report, OpenFault> {
    Ok(Report {
        loaders,
        classes,
        chunks,
        number,
    })
}

/// A class in each of two loaders.
const TWO: [Call; 4] = [
    Loader(b'a'),
    Loader(b'b'),
    Define(b'a', b'A'),
    Define(b'b', b'A'),
];

/// Commands, and how many loaders, classes and chunks there are after them, with the number of the
/// last.
const CASES: [(&[Call], [usize; 3], u64); 11] = [
    (&[], [0, 0, 0], 0),
    (&[Loader(b'a')], [1, 0, 0], 1),
    (&TWO, [2, 2, 2], 4),
    // a loader that is unloaded, with its classes and chunks
    (&[Loader(b'a'), Unload(b'a')], [0, 0, 0], 2),
    (
        &[Loader(b'a'), Define(b'a', b'A'), Unload(b'a')],
        [0, 0, 0],
        3,
    ),
    (
        &[
            Loader(b'a'),
            Loader(b'b'),
            Define(b'a', b'A'),
            Define(b'b', b'A'),
            Unload(b'a'),
        ],
        [1, 1, 1],
        5,
    ),
    // one more of the same name
    (
        &[
            Loader(b'a'),
            Define(b'a', b'A'),
            Define(b'a', b'B'),
            Unload(b'a'),
            Loader(b'a'),
            Define(b'a', b'A'),
        ],
        [1, 1, 1],
        6,
    ),
    (
        &[
            Loader(b'a'),
            Loader(b'b'),
            Define(b'a', b'A'),
            Loader(b'c'),
            Define(b'b', b'A'),
            Define(b'c', b'A'),
            UnloadAll(&[b"c", b"a"]),
        ],
        [1, 1, 1],
        7,
    ),
    // eight records of 16 words fill a chunk of 128
    (
        &[
            Loader(b'a'),
            Define(b'a', b'A'),
            Define(b'a', b'B'),
            Define(b'a', b'C'),
            Define(b'a', b'D'),
            Define(b'a', b'E'),
            Define(b'a', b'F'),
            Define(b'a', b'G'),
            Define(b'a', b'H'),
        ],
        [1, 8, 1],
        9,
    ),
    (
        &[
            Loader(b'a'),
            Define(b'a', b'A'),
            Define(b'a', b'B'),
            Define(b'a', b'C'),
            Define(b'a', b'D'),
            Define(b'a', b'E'),
            Define(b'a', b'F'),
            Define(b'a', b'G'),
            Define(b'a', b'H'),
            Define(b'a', b'I'),
        ],
        [1, 9, 2],
        10,
    ),
    // the ninth moves to a smaller chunk
    (
        &[
            Loader(b'a'),
            Define(b'a', b'A'),
            Define(b'a', b'B'),
            Define(b'a', b'C'),
            Define(b'a', b'D'),
            Define(b'a', b'E'),
            Define(b'a', b'F'),
            Define(b'a', b'G'),
            Define(b'a', b'H'),
            Define(b'a', b'I'),
            Tighten(b'a'),
        ],
        [1, 9, 2],
        11,
    ),
];

/// The result of checking a file.
type Told = Result<Report, OpenFault>;

fn tell_after(alloc: Global, calls: &[Call]) -> Result<Told, Fail> {
    let mut disk = disk_after(alloc, calls)?;
    Ok(check(alloc, &mut disk))
}

#[test]
fn what_commands_leave_is_counted(rt: HostRuntime) -> Result<(), Fail> {
    for (calls, counts, number) in &CASES {
        let told = tell_after(rt.alloc(), calls)?;
        let [loaders, classes, chunks] = *counts;
        let expected = report(loaders, classes, chunks, *number);
        assert_eq!(rt; told, expected, "after {number} commands");
    }
    Ok(())
}

fn push_loaders(calls: &mut Vec<Call>) -> Result<(), Fail> {
    for number in 0..92 {
        calls.push(Loader(b'!' + number))?;
    }
    Ok(())
}

// Chunks of 128, 256 and 512 words take 8, 16 and 11 records of 16 words.
fn push_classes(calls: &mut Vec<Call>, count: u8) -> Result<(), Fail> {
    for number in 0..count.min(36) {
        calls.push(Define(b'!', b'\\' + number))?;
    }
    Ok(())
}

fn tell_of_many(alloc: Global, classes: u8) -> Result<Told, Fail> {
    let mut calls = Vec::new(alloc);
    push_loaders(&mut calls)?;
    push_classes(&mut calls, classes)?;
    tell_after(alloc, &calls)
}

// 127 groups of two slots, after the half's head, fill all but one of its 256 slots. One more group
// is after 127 live rows in the other half.
#[test]
fn a_full_journal_is_counted(rt: HostRuntime) -> Result<(), Fail> {
    assert_eq!(rt; tell_of_many(rt.alloc(), 35)?, report(92, 35, 3, 127));
    assert_eq!(rt; tell_of_many(rt.alloc(), 36)?, report(92, 36, 3, 128));
    Ok(())
}

// The result of checking a file, and whether its bytes and its syncs are what they were.
fn look(alloc: Global, disk: &mut SimDisk) -> Result<(Told, bool, bool), Fail> {
    let (before, syncs) = (bytes_of(alloc, disk)?, disk.syncs());
    let told = check(alloc, disk);
    let is_same = bytes_of(alloc, disk)? == before;
    Ok((told, is_same, disk.syncs() == syncs))
}

fn look_after(alloc: Global, calls: &[Call]) -> Result<(Told, bool, bool), Fail> {
    let mut disk = disk_after(alloc, calls)?;
    look(alloc, &mut disk)
}

#[test]
fn a_file_is_looked_at_by_reads_alone(rt: HostRuntime) -> Result<(), Fail> {
    let looked_at = look_after(rt.alloc(), &TWO)?;
    assert_eq!(rt; looked_at, (report(2, 2, 2, 4), true, true));
    Ok(())
}

// The result of checking a file of these bytes if a call fails after this many, and then if none
// does.
fn tell_behind(alloc: Global, bytes: &[u8], pass: u64) -> Result<(Told, Told), Fail> {
    let mut fuse = FuseDisk::new(disk_of(alloc, bytes)?, pass, 0);
    let told = check(alloc, &mut fuse);
    let mut disk = fuse.into_inner();
    disk.disarm();
    Ok((told, check(alloc, &mut disk)))
}

// After how many calls a failure is the first to give a wrong result. The seven calls are the
// length, the superblock, both halves, the length again, and two records.
fn first_other(alloc: Global, bytes: &[u8]) -> Result<Option<u64>, Fail> {
    let whole = report(2, 2, 2, 4);
    for pass in 0..8 {
        let broken = if pass < 7 {
            Err(OpenFault::Device)
        } else {
            whole
        };
        if tell_behind(alloc, bytes, pass)? != (broken, whole) {
            return Ok(Some(pass));
        }
    }
    Ok(None)
}

fn bytes_after(alloc: Global, calls: &[Call]) -> Result<Vec<u8>, Fail> {
    let mut disk = disk_after(alloc, calls)?;
    bytes_of(alloc, &mut disk)
}

#[test]
fn a_failing_call_is_told(rt: HostRuntime) -> Result<(), Fail> {
    let bytes = bytes_after(rt.alloc(), &TWO)?;
    assert_eq!(rt; first_other(rt.alloc(), &bytes)?, None);
    Ok(())
}
