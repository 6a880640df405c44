//! Making files, and stops at each device call.

use crate::found::{EMPTY, Summary, find_in};
use cm_disk::{Choice, DeviceFault, Disk, FuseDisk, SimDisk};
use cm_pool::Geometry;
use cm_recover::{FormatFault, format};
use cm_samples::least_geometry;
use cm_verdict::{FileFault, OpenFault};
use std::alloc::Global;
use std::test::*;

const NONE: Result<Summary, OpenFault> = Err(OpenFault::File(FileFault::NotACache));

// Makes a disk a file of these sizes. Returns whether that succeeds, its length, its syncs, and
// what is found in it.
fn make(
    alloc: Global,
    disk: &mut SimDisk,
    geometry: Geometry,
) -> Result<(bool, u64, u64, Result<Summary, OpenFault>), DeviceFault> {
    let is_made = format(alloc, disk, geometry).is_ok();
    let long = disk.len()?;
    Ok((is_made, long, disk.syncs(), find_in(alloc, disk)))
}

/// The order of a root, the roots, the slots, and how long a new file is.
const SIZES: [(u32, u32, u32, u64); 3] = [
    (8, 64, 4_096, 528_384),
    (3, 1, 256, 36_864),
    (12, 256, 65_536, 8_392_704),
];

#[test]
fn a_new_file_is_the_empty_cache(rt: HostRuntime) -> Result<(), Fail> {
    for (top, roots, slots, long) in &SIZES {
        let geometry = Geometry::new(*top, *roots, *slots).ok_or("within the limits")?;
        let made = make(rt.alloc(), &mut SimDisk::new(rt.alloc()), geometry)?;
        assert_eq!(rt; made, (true, *long, 2, EMPTY));
    }
    Ok(())
}

// The result of making a file on a disk of one byte; and then its length, byte and syncs.
fn make_of_byte(
    alloc: Global,
    disk: &mut SimDisk,
    geometry: Geometry,
) -> Result<(Result<(), FormatFault>, u64, [u8; 1], u64), DeviceFault> {
    disk.write_at(0, b"x")?;
    let made = format(alloc, disk, geometry);
    let long = disk.len()?;
    let mut byte = [0];
    if long == 1 {
        disk.read(0, &mut byte)?;
    }
    Ok((made, long, byte, disk.syncs()))
}

#[test]
fn a_file_that_has_bytes_stays(rt: HostRuntime) -> Result<(), Fail> {
    let mut disk = SimDisk::new(rt.alloc());
    let left = make_of_byte(rt.alloc(), &mut disk, least_geometry())?;
    assert_eq!(rt; left, (Err(FormatFault::NotEmpty), 1, *b"x", 0));
    Ok(())
}

/// Lets this many calls succeed; a write that fails stores this many bytes.
fn stop_making(alloc: Global, pass: u64, stores: usize) -> (Result<(), FormatFault>, SimDisk) {
    let mut fuse = FuseDisk::new(SimDisk::new(alloc), pass, stores);
    let made = format(alloc, &mut fuse, least_geometry());
    (made, fuse.into_inner())
}

/// How many calls succeed, how many bytes a failing write stores, the length and the bytes that a
/// crash leaves if it may, and what is then found.
const LEFT: [(u64, usize, u64, &[u8], Result<Summary, OpenFault>); 14] = [
    // the length isn't returned
    (0, 0, 0, b"", NONE),
    // the first write fails; its sync fails
    (1, 0, 36_864, b"", NONE),
    (1, 5_000, 36_864, b"", NONE),
    (1, 36_864, 36_864, b"", NONE),
    (2, 0, 36_864, b"", NONE),
    (2, 0, 4_095, b"", NONE),
    (2, 0, 36_864, b"CMCACHE1", NONE),
    // the gate's write fails; its sync fails
    (3, 0, 36_864, b"", NONE),
    (3, 0, 36_864, b"\xA5", EMPTY),
    (3, 1, 36_864, b"", EMPTY),
    (3, 1, 36_864, b"\xA4", NONE),
    (4, 0, 36_864, b"", EMPTY),
    (4, 0, 36_864, b"\0", NONE),
    // all is durable
    (5, 0, 0, b"\0", EMPTY),
];

// Whether the file is made, and what is found if this is chosen at the crash.
fn crash_as_chosen(
    alloc: Global,
    pass: u64,
    stores: usize,
    choice: &Choice,
) -> Result<(bool, Result<Summary, OpenFault>), Fail> {
    let (made, disk) = stop_making(alloc, pass, stores);
    let mut left = disk.crash(alloc, choice)?;
    Ok((made.is_ok(), find_in(alloc, &mut left)))
}

fn crash_disk(
    alloc: Global,
    [pass, len]: [u64; 2],
    stores: usize,
    fill: &[u8],
) -> Result<(bool, Result<Summary, OpenFault>), Fail> {
    let choice = Choice {
        len,
        fill: Vec::from_slice(alloc, fill)?,
    };
    crash_as_chosen(alloc, pass, stores, &choice)
}

#[test]
fn a_crash_leaves_no_cache_or_the_empty_one(rt: HostRuntime) -> Result<(), Fail> {
    for (pass, stores, len, fill, expected) in &LEFT {
        let told = crash_disk(rt.alloc(), [*pass, *len], *stores, fill)?;
        assert_eq!(rt; told, (*pass == 5, *expected), "{pass} calls");
    }
    Ok(())
}

const TEXTS: [(FormatFault, &str); 3] = [
    (FormatFault::NotEmpty, "exists"),
    (FormatFault::Device, "device"),
    (FormatFault::NoMemory, "memory"),
];

#[test]
fn faults_have_their_texts(rt: HostRuntime) -> Result<(), Fail> {
    for (fault, text) in &TEXTS {
        assert_eq!(rt; fault.to_string(rt.alloc())?.as_str(), *text);
    }
    Ok(())
}
