//! Disks that hold a cache.

use crate::disks::replies;
use cm_disk::{DeviceFault, Disk, SimDisk};
use cm_maintenance::{NotReported, Status, check_to, list_to, trim_to};
use cm_samples::{new_disk, small_geometry};
use std::alloc::Global;
use std::io::Write;
use std::test::*;

/// The class `A` of `java/lang/Object` up to the length of its name, and what follows its name.
const CLASS: (&[u8], &[u8]) = (
    b"cafebabe0000003400050700020100",
    b"0700040100106a6176612f6c616e672f4f626a6563740021000100030000000000000000",
);

/// A script in which `<` and `>` stand for what surrounds the length and the name of a class.
fn expand(alloc: Global, script: &[u8]) -> Result<Vec<u8>, Fail> {
    let mut text = Vec::new(alloc);
    for byte in script {
        match *byte {
            b'<' => text.extend_from_slice(CLASS.0)?,
            b'>' => text.extend_from_slice(CLASS.1)?,
            byte => text.push(byte)?,
        }
    }
    Ok(text)
}

/// The disk after a script that runs to its end.
fn run_script(alloc: Global, script: &[u8], disk: SimDisk) -> Result<SimDisk, Fail> {
    let (_replies, outcome, disk) = replies(alloc, script, disk);
    match outcome {
        Ok(_) => Ok(disk),
        Err(_) => Err("a run to the end".into()),
    }
}

/// A disk that holds the cache after this script.
pub fn cache_after(alloc: Global, script: &[u8]) -> Result<SimDisk, Fail> {
    let script = expand(alloc, script)?;
    run_script(alloc, &script, new_disk(alloc, small_geometry())?)
}

fn change(disk: &mut SimDisk, at: u64, byte: u8) -> Result<(), DeviceFault> {
    if at < 100_000 && at <= disk.len()? {
        disk.write_at(at, &[byte])?;
    }
    Ok(())
}

/// A disk with the empty cache, except for one byte.
pub fn changed_cache(alloc: Global, at: u64, byte: u8) -> Result<SimDisk, Fail> {
    let mut disk = new_disk(alloc, small_geometry())?;
    change(&mut disk, at, byte)?;
    Ok(disk)
}

fn shorten(disk: &mut SimDisk, len: u64) -> Result<(), DeviceFault> {
    if len <= disk.len()? {
        disk.cut(len)?;
    }
    Ok(())
}

/// A disk with the beginning of the empty cache.
pub fn shortened_cache(alloc: Global, len: u64) -> Result<SimDisk, Fail> {
    let mut disk = new_disk(alloc, small_geometry())?;
    shorten(&mut disk, len)?;
    Ok(disk)
}

/// What is reported about a disk.
#[derive(Clone, Copy)]
pub enum Verb {
    Check,
    List,
    Trim,
}

pub fn tell<W: Write, D: Disk>(
    alloc: Global,
    verb: Verb,
    writer: &mut W,
    disk: D,
) -> Result<(Status, D), NotReported<D>> {
    match verb {
        Verb::Check => check_to(alloc, writer, disk),
        Verb::List => list_to(alloc, writer, disk),
        Verb::Trim => trim_to(alloc, writer, disk),
    }
}

/// The status and the disk of a report that was written to its end.
pub fn tell_to_end<D: Drop>(
    told: Result<(Status, D), NotReported<D>>,
) -> Result<(Status, D), Fail> {
    match told {
        Ok(given) => Ok(given),
        Err(
            NotReported {
                fault: _,
                disk: _disk,
            },
        ) => Err("a status".into()),
    }
}

/// Whether these lines should be written with the status or, if the device failed, that it did.
fn is_due(status: Status, told: &[u8], lines: &[u8]) -> bool {
    match status {
        Status::Failed => told == b"device\n".as_slice(),
        _ => told == lines,
    }
}

/// The status of a report on a disk, whether it is these lines or that the device failed, and the
/// disk.
pub fn status_of<D: Disk + Drop>(
    alloc: Global,
    verb: Verb,
    disk: D,
    lines: &[u8],
) -> Result<(Status, bool, D), Fail> {
    let mut told = Vec::new(alloc);
    let (status, disk) = tell_to_end(tell(alloc, verb, &mut told, disk))?;
    Ok((status, is_due(status, &told, lines), disk))
}
