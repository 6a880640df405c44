//! What files stand for, and which damage of a record is reported first.

use crate::file_samples::{ROOTS_AT, file_of, file_of_two, put};
use crate::found::Found;
use crate::found::Found::{Damaged, NotACache, Sound};
use cm_disk::{Disk, FuseDisk};
use cm_recover::{StandingFile, read_standing};
use cm_samples::{class, disk_of};
use cm_verdict::{Damage, OpenFault};
use std::alloc::Global;
use std::test::*;

/// What a file stands for: how many live rows there are, twice, how many words the records of class
/// `A` and `B` have, the number of the last command, the slot where the groups end, and the whole
/// roots.
#[derive(Clone, Copy, Debug, PartialEq, Eq)]
struct Summary {
    rows: usize,
    committed: usize,
    words: [u32; 2],
    number: u64,
    end: u32,
    roots: u32,
}

type Told = Result<Summary, OpenFault>;

/// The file of two classes.
const WHOLE: Summary = Summary {
    rows: 3,
    committed: 3,
    words: [16, 20],
    number: 3,
    end: 7,
    roots: 1,
};

fn words(file: &StandingFile, name: &[u8]) -> u32 {
    file.rows.class(1, name).map_or(0, |class| class.words())
}

fn summary_of(file: &StandingFile) -> Summary {
    Summary {
        rows: file.rows.len(),
        committed: file.committed.len(),
        words: [words(file, b"A"), words(file, b"B")],
        number: file.journal.number,
        end: file.journal.end,
        roots: file.roots,
    }
}

fn read_standing_of<D: Disk>(alloc: Global, disk: &mut D) -> Told {
    let file = read_standing(alloc, disk)?;
    Ok(summary_of(&file))
}

/// The position of a byte of the file, its new value, and what is then found.
const CHANGES: [(usize, u8, Found<Summary>); 7] = [
    // nothing changed
    (0, b'C', Sound(WHOLE)),
    // a record that begins inside the one before it
    (4_508, 15, Damaged(Damage::Chunks, 6)),
    // the second class in a root that the file doesn't have
    (4_496, 1, Damaged(Damage::Chunks, 6)),
    // a constant of an unknown kind, in the record of the first class and in that of the second
    (ROOTS_AT + 72, 2, Damaged(Damage::Record, 4)),
    (ROOTS_AT + 200, 2, Damaged(Damage::Record, 6)),
    // the name of the second class is that of the first
    (ROOTS_AT + 256, b'A', Damaged(Damage::ClassTwice, 6)),
    // after the records
    (ROOTS_AT + 288, 1, Sound(WHOLE)),
];

/// What a file of these bytes stands for.
fn tell_standing(alloc: Global, bytes: &[u8]) -> Result<Told, Fail> {
    let mut disk = disk_of(alloc, bytes)?;
    Ok(read_standing_of(alloc, &mut disk))
}

/// The same with another byte at a position.
fn tell_with(alloc: Global, file: &[u8], at: usize, byte: u8) -> Result<Told, Fail> {
    let mut bytes = Vec::from_slice(alloc, file)?;
    put(&mut bytes, at, byte);
    tell_standing(alloc, &bytes)
}

// Which change is the first after which the file stands for something else.
fn first_other_change(alloc: Global, file: &[u8]) -> Result<Option<(usize, u8)>, Fail> {
    for (at, byte, found) in &CHANGES {
        if tell_with(alloc, file, *at, *byte)? != found.on_disk() {
            return Ok(Some((*at, *byte)));
        }
    }
    Ok(None)
}

#[test]
fn the_first_damage_of_a_record_is_told(rt: HostRuntime) -> Result<(), Fail> {
    let file = file_of_two(rt.alloc())?;
    assert_eq!(rt; first_other_change(rt.alloc(), &file)?, None);
    Ok(())
}

/// How long the beginning of the file is, and what is found in it.
const BEGINNINGS: [(usize, Found<Summary>); 5] = [
    (4_095, NotACache),
    (36_863, Damaged(Damage::Length, 0)),
    (36_864, Damaged(Damage::Chunks, 4)),
    (45_055, Damaged(Damage::Chunks, 4)),
    (45_056, Sound(WHOLE)),
];

// Which beginning is the first that stands for something else.
fn first_other_beginning(alloc: Global, file: &[u8]) -> Result<Option<usize>, Fail> {
    for (long, found) in &BEGINNINGS {
        let bytes = file.get(..*long).ok_or("not longer")?;
        if tell_standing(alloc, bytes)? != found.on_disk() {
            return Ok(Some(*long));
        }
    }
    Ok(None)
}

#[test]
fn a_record_lies_in_a_whole_root(rt: HostRuntime) -> Result<(), Fail> {
    let file = file_of_two(rt.alloc())?;
    assert_eq!(rt; first_other_beginning(rt.alloc(), &file)?, None);
    Ok(())
}

#[test]
fn a_class_is_defined_once_in_a_loader(rt: HostRuntime) -> Result<(), Fail> {
    let class = class(rt.alloc(), b"A")?;
    let file = file_of(rt.alloc(), &class, &class)?;
    let told = tell_standing(rt.alloc(), &file)?;
    assert_eq!(rt; told, Damaged(Damage::ClassTwice, 6).on_disk());
    Ok(())
}

/// What a file stands for if a call fails after this many, and then if none does.
fn tell_behind(alloc: Global, file: &[u8], pass: u64) -> Result<(Told, Told), Fail> {
    let mut fuse = FuseDisk::new(disk_of(alloc, file)?, pass, 0);
    let broken = read_standing_of(alloc, &mut fuse);
    let mut disk = fuse.into_inner();
    disk.disarm();
    Ok((broken, read_standing_of(alloc, &mut disk)))
}

// After how many calls a failure is the first to give a wrong result.
fn first_other_failure(alloc: Global, file: &[u8]) -> Result<Option<u64>, Fail> {
    for pass in 0..7 {
        if tell_behind(alloc, file, pass)? != (Err(OpenFault::Device), Ok(WHOLE)) {
            return Ok(Some(pass));
        }
    }
    Ok(None)
}

#[test]
fn a_failing_call_is_told(rt: HostRuntime) -> Result<(), Fail> {
    let file = file_of_two(rt.alloc())?;
    assert_eq!(rt; first_other_failure(rt.alloc(), &file)?, None);
    Ok(())
}
